//! The status of a node, as a server is shown it.

use cg_status::Status;
use std::alloc::Global;
use std::sync::Arc;

/// A server's sight of its node beside the table. A reader waits for no lock.
pub trait Watch {
    /// The status that was published last, if one was.
    fn status(&mut self) -> Option<Arc<Status, Global>>;

    /// Returns `true` if the rounds of the node go on.
    fn is_healthy(&self) -> bool;
}
