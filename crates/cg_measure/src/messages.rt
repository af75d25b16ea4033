//! Messages of tables, for the programs that measure.

use crate::failure::Failure;
use cg_exchange::answer_syn;
use cg_messages::{Ack, Syn};
use cg_table::Table;
use cg_testing::cluster;
use std::alloc::Global;

/// Makes the SYN of a member that holds nothing.
pub fn empty_syn(alloc: Global) -> Result<Syn, Failure> {
    Syn::new(cluster(alloc)?, Vec::new(alloc)).ok_or(Failure::Lacking("a SYN"))
}

/// Makes an ACK that brings all that a table holds, and requests nothing.
pub fn bringing(alloc: Global, table: &Table) -> Result<Ack, Failure> {
    let syn = empty_syn(alloc)?;
    Ok(answer_syn(alloc, table, syn.cluster(), &syn)?)
}
