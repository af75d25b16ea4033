//! The line in which reading a journal ended, and its fault.

use cg_types::Fault;
use thiserror::Error;

/// The line in which reading ended, counted from 1 (0: in none), and its fault. `BadText` if it can't be read,
/// `OutOfMemory` if memory ran out in it, `ReadFault` if the reader failed or 4,294,967,295 reads were made.
#[derive(Clone, Copy, Debug, PartialEq, Eq, Error)]
#[error("the journal can't be read at line {line}: {fault}")]
pub struct Unread {
    pub line: u64,
    pub fault: Fault,
}
