//! Histories that are read from journals, and events applied to histories.
//!
//! These calls have no clause, so who calls one of them again and again is proved without its records.

use cg_core::Event;
use cg_history::{History, Receipt};
use cg_journal::read_journal;
use cg_links::Counted;
use cg_types::Fault;
use std::alloc::Global;
use std::test::Fail;

/// Reads the history of a journal.
pub(crate) fn history_in(alloc: Global, journal: &[u8]) -> Result<History, Fail> {
    let mut reader = Counted::new(journal);
    Ok(read_journal(alloc, &mut reader).ok().ok_or("a history")?)
}

/// Applies an event to a history.
pub(crate) fn applied(
    alloc: Global,
    history: &mut History,
    caller: u32,
    event: Event,
) -> Result<Receipt, Fault> {
    history.apply(alloc, caller, event)
}
