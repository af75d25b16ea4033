//! The result of a node's run.

use cg_history::History;
use cg_locked::Unconfirmed;
use cg_types::Fault;
use thiserror::Error;

/// A node that ran.
#[derive(Drop)]
pub struct Ran {
    /// Its history, which has the record of each receipt of all workers.
    pub history: History,
    /// The numbers of the records whose rounds the sender took, in their order.
    pub rounds: Vec<u64>,
}

/// A node that did not run, or whose history does not confirm its workers' receipts.
#[derive(Debug, Drop, Error)]
pub enum NotRun {
    /// For want of memory the table's copy, the views, the board, the channel or a worker could not be made. The
    /// workers that were made have ended. A thread that is refused counts as memory: the fault is OutOfMemory.
    #[error("the node could not be started: {0}")]
    Unstarted(Fault),
    /// The history that is left, and the first receipt that it does not confirm.
    #[error("{0}")]
    Unconfirmed(Unconfirmed),
}
