//! Events applied to a history, and a fold of its first records.

use crate::answers::Answer;
use crate::samples::{Kind, applied, event, history, set, world};
use crate::texts::add_history;
use crate::trials::{Outcome, Seen, Trial, compared, tried};
use cg_core::Event;
use cg_history::History;
use cg_types::Fault;
use std::alloc::Global;

// The caller of the events.
const CALLER: u32 = 3;

// A history, and an event to be applied to it.
#[derive(Drop)]
struct Applying {
    history: History,
    event: Event,
}

impl Trial for Applying {
    ghost parts = { λ _. 0 };

    fn call(&mut self, alloc: Global) -> Result<Answer, Fault> {
        let event = self.event.copy(alloc)?;
        match self.history.apply(alloc, CALLER, event) {
            Ok(receipt) => Ok(Answer::Recorded(receipt)),
            Err(fault) => Err(fault),
        }
    }

    fn show(&mut self, _alloc: Global, text: &mut String) -> Result<(), Fault> {
        Ok(add_history(text, &self.history)?)
    }
}

fn seen_applying(alloc: Global, kind: Kind) -> Result<Seen, Fault> {
    let world = world(alloc)?;
    let mut history = history(alloc, &world)?;
    // only a key with a text can be removed
    if let Kind::Remove = kind {
        let set = event(alloc, &world, Kind::Set)?;
        applied(alloc, &mut history, CALLER, set)?;
    }
    let event = event(alloc, &world, kind)?;
    tried(alloc, &mut Applying { history, event })
}

/// Applies an event of a kind to a history of two records, or of three: a Set comes before a Remove.
pub(crate) fn apply(alloc: Global, kind: Kind) -> Result<Outcome, Fault> {
    let due = seen_applying(alloc, kind)?.of_twin()?;
    compared(alloc, &due, seen_applying(alloc, kind)?)
}

// A history of which the first records are to be folded.
#[derive(Drop)]
struct Folding {
    history: History,
}

impl Trial for Folding {
    ghost parts = { λ _. 0 };

    fn call(&mut self, alloc: Global) -> Result<Answer, Fault> {
        let front = self.history.records().len().min(3);
        self.history.fold_front(alloc, front)?;
        Ok(Answer::Done)
    }

    fn show(&mut self, _alloc: Global, text: &mut String) -> Result<(), Fault> {
        Ok(add_history(text, &self.history)?)
    }
}

// Returns a history of five records.
fn five_records(alloc: Global) -> Result<History, Fault> {
    let mut history = history(alloc, &world(alloc)?)?;
    applied(alloc, &mut history, CALLER, set(alloc, 3, "x")?)?;
    applied(alloc, &mut history, CALLER, Event::Beat)?;
    applied(alloc, &mut history, CALLER, set(alloc, 3, "y")?)?;
    Ok(history)
}

fn seen_folding(alloc: Global) -> Result<Seen, Fault> {
    let history = five_records(alloc)?;
    tried(alloc, &mut Folding { history })
}

/// Folds three of five records.
pub(crate) fn fold_front(alloc: Global) -> Result<Outcome, Fault> {
    let due = seen_folding(alloc)?.of_twin()?;
    compared(alloc, &due, seen_folding(alloc)?)
}
