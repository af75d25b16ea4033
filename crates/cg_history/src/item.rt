//! Records, and their receipts.

use cg_core::{Event, Reply};
use cg_table::Puts;
use cg_types::Fault;
use thiserror::Error;

/// A record of an event done: its caller, the event, the node's reply, and the owners whose entry it changed. These
/// rise, each with its whole new entry, which is shared with the node's table.
#[derive(Drop)]
pub struct Item {
    pub caller: u32,
    pub event: Event,
    pub reply: Reply,
    pub puts: Puts,
}

/// A caller's receipt of its record. Records are numbered from 1.
#[derive(Debug, Drop)]
pub struct Receipt {
    pub caller: u32,
    pub number: u64,
    pub event: Event,
    pub reply: Reply,
}

/// The first of some receipts that is not confirmed: its place among them, counted from 0, and the reason.
#[derive(Clone, Copy, Debug, PartialEq, Eq, Error)]
#[error("receipt {place}, counted from 0, is not confirmed: {fault}")]
pub struct UnconfirmedReceipt {
    pub place: usize,
    pub fault: Fault,
}
