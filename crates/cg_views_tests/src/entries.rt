//! Entries of A, 10.0.0.1:7000, at generation 9, and tables of it.

use cg_entry::Entry;
use cg_table::{Puts, Table};
use cg_testing::{A, bare_entry, endpoint};
use std::alloc::Global;
use std::test::Fail;

/// A's entry at this heartbeat, with no states.
pub(crate) fn beat(alloc: Global, heartbeat: u32) -> Result<Entry, Fail> {
    bare_entry(alloc, 9, heartbeat)
}

/// A table of A that holds it at heartbeat 1.
pub(crate) fn opening(alloc: Global) -> Result<Table, Fail> {
    Ok(Table::new(alloc, endpoint(A), beat(alloc, 1)?)?)
}

/// One put of A, at this heartbeat.
pub(crate) fn put(alloc: Global, heartbeat: u32) -> Result<Puts, Fail> {
    Ok(Puts::one(alloc, endpoint(A), beat(alloc, heartbeat)?)?)
}

/// A's heartbeat in its own table.
pub(crate) fn heartbeat(table: &Table) -> u32 {
    table.own_entry().heartbeat().get()
}
