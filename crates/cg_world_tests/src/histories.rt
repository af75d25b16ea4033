//! Sample histories, events that are applied to them, and folds of their first records.

use cg_core::Event;
use cg_history::{History, Receipt};
use cg_testing::{endpoint, generation, settings};
use std::alloc::Global;
use std::test::Fail;

/// The history of a node that starts.
pub fn begun(alloc: Global, own: u16, number: u32) -> Result<History, Fail> {
    Ok(History::begin(alloc, endpoint(own), generation(number), settings(alloc)?)?)
}

/// Applies an event to a history. It has no clause, so who calls it again and again is proved without its records.
pub fn applied(
    alloc: Global,
    history: &mut History,
    caller: u32,
    event: Event,
) -> Result<Receipt, Fail> {
    Ok(history.apply(alloc, caller, event)?)
}

/// Folds the first records, if there are as many.
pub fn fold(alloc: Global, history: &mut History, count: usize) -> Result<(), Fail> {
    if count <= history.records().len() {
        history.fold_front(alloc, count)?;
    }
    Ok(())
}
