//! The counts of a node's work since it started.

use cg_core::Reply;
use cg_entry::Took;
use std::sync::atomic::{AtomicU64, Ordering};

/// Counts that all workers share.
#[derive(Drop)]
pub(crate) struct Counts {
    pub(crate) rounds: AtomicU64,
    pub(crate) begun: AtomicU64,
    pub(crate) answered: AtomicU64,
    pub(crate) taken: AtomicU64,
    pub(crate) old: AtomicU64,
    pub(crate) gap: AtomicU64,
    pub(crate) own: AtomicU64,
    // one more than the time of the last round, 0 before the first
    next_to_last: AtomicU64,
}

// Counts one more.
fn add_one(count: &AtomicU64) {
    count.fetch_add(1, Ordering::SeqCst);
}

impl Counts {
    /// Begins with nothing.
    pub(crate) fn new() -> Counts {
        Counts {
            rounds: AtomicU64::new(0),
            begun: AtomicU64::new(0),
            answered: AtomicU64::new(0),
            taken: AtomicU64::new(0),
            old: AtomicU64::new(0),
            gap: AtomicU64::new(0),
            own: AtomicU64::new(0),
            next_to_last: AtomicU64::new(0),
        }
    }

    /// Counts a round that was done at a time.
    pub(crate) fn count_round(&self, now: u64) {
        add_one(&self.rounds);
        self.next_to_last
            .store(now.saturating_add(1), Ordering::SeqCst);
    }

    /// Counts an exchange that was begun.
    pub(crate) fn count_begun(&self) {
        add_one(&self.begun);
    }

    /// Counts an exchange that was answered.
    pub(crate) fn count_answered(&self) {
        add_one(&self.answered);
    }

    // Counts the outcome of a delta.
    fn count_outcome(&self, took: Took) {
        match took {
            Took::Taken => add_one(&self.taken),
            Took::Old => add_one(&self.old),
            Took::Gap => add_one(&self.gap),
            Took::Own => add_one(&self.own),
        }
    }

    /// Counts the outcomes of the deltas in a reply. Returns `false` if it is none to an ACK or an ACK2.
    pub(crate) fn count_outcomes(&self, reply: Option<&Reply>) -> bool {
        let outcomes = match reply {
            Some(Reply::Both { outcomes, .. }) => outcomes,
            Some(Reply::Took(outcomes)) => outcomes,
            _ => return false,
        };
        for outcome in outcomes.as_slice() {
            self.count_outcome(outcome.took);
        }
        true
    }

    /// The time of the last round, if one was done.
    pub(crate) fn last_round(&self) -> Option<u64> {
        self.next_to_last.load(Ordering::SeqCst).checked_sub(1)
    }
}
