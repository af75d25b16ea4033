//! The values that an agent's workers share.

ghost use Rattle.std.specs.Prelude.{◌≡◌};

use crate::breaks::Breaks;
use crate::counts::Counts;
use cg_ahead_seats::SharedAhead;
use cg_core::Reply;
use cg_locked::Name;
use cg_types::Fault;
use std::alloc::{AllocError, Global};
use std::io::{Eprint, Write};
use std::sync::atomic::{AtomicBool, Ordering};
use std::sync::{Mutex, MutexGuard, Wait};

/// The board, the clock, whether the node is to end, whether it no longer can be reached, the exchanges that broke off,
/// and the counts of all work.
pub(crate) struct Site<N: Name, W: Write, C> {
    pub(crate) shared: SharedAhead<N, W>,
    pub(crate) clock: C,
    pub(crate) is_ending: AtomicBool,
    pub(crate) is_deaf: AtomicBool,
    pub(crate) breaks: Mutex<Breaks>,
    pub(crate) counts: Counts,
}

impl<N: Name, W: Write + Drop, C> Site<N, W, C> {
    /// Makes the site of a board that no worker uses yet.
    pub(crate) fn new(shared: SharedAhead<N, W>, clock: C) -> Site<N, W, C>
        ensures { (result.shared ≡ shared) × (result.clock ≡ clock) }
    {
        Site {
            shared,
            clock,
            is_ending: AtomicBool::new(false),
            is_deaf: AtomicBool::new(false),
            breaks: Mutex::new(Breaks::new()),
            counts: Counts::new(),
        }
    }

    /// Has the node end.
    pub(crate) fn end(&self) {
        self.is_ending.store(true, Ordering::SeqCst);
    }

    /// Has the node end, since no further connection comes.
    pub(crate) fn end_deaf(&self) {
        self.is_deaf.store(true, Ordering::SeqCst);
        self.end();
    }

    /// Returns `true` if the node is to end.
    pub(crate) fn is_ending(&self) -> bool {
        self.is_ending.load(Ordering::SeqCst)
    }

    // Counts an exchange if it was broken off.
    fn count_broken<R: Wait>(&self, rt: &R, broken: Option<Fault>) {
        let Some(fault) = broken else {
            return;
        };
        let mut breaks = self.breaks.lock(rt);
        breaks.add(fault);
        MutexGuard::unlock(breaks);
    }

    /// Counts an exchange over a connection that came: answered, or broken off by a fault. The reply is that to its last
    /// event, if one was done.
    pub(crate) fn count_answered<R: Wait>(
        &self,
        rt: &R,
        broken: Option<Fault>,
        reply: Option<&Reply>,
    ) {
        self.counts.count_outcomes(reply);
        if broken.is_none() {
            self.counts.count_answered();
        }
        self.count_broken(rt, broken);
    }

    /// Counts an exchange that was begun, if its peer was reached: then there is a reply, or a fault broke it off.
    pub(crate) fn count_begun<R: Wait>(
        &self,
        rt: &R,
        broken: Option<Fault>,
        reply: Option<&Reply>,
    ) {
        if self.counts.count_outcomes(reply) || broken.is_some() {
            self.counts.count_begun();
        }
        self.count_broken(rt, broken);
    }

    /// Returns the numbers of exchanges that broke off, by the number of the fault.
    pub(crate) fn broken_so_far<R: Wait>(
        &self,
        rt: &R,
        alloc: Global,
    ) -> Result<Vec<(u8, u64)>, AllocError> {
        let breaks = self.breaks.lock(rt);
        let counted = breaks.counted(alloc);
        MutexGuard::unlock(breaks);
        counted
    }

    /// Prints a line about the exchanges that broke off since the last one, if there are any.
    pub(crate) fn tell_broken<R: Wait + Eprint>(&self, rt: &R) {
        let mut breaks = self.breaks.lock(rt);
        let counted = breaks.untold.take();
        MutexGuard::unlock(breaks);
        if let Some(fault) = counted.last {
            let _ = eprintln!(rt;
                "cg agent: exchanges broken off: {}, the last by {fault}",
                counted.count
            );
        }
    }
}
