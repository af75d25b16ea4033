//! The values that the workers of a node share.

use cg_locked::{Name, Shared};
use std::sync::OnceLock;

/// The board, the clock, and the start signal: `true` if all workers were started.
pub struct Site<N: Name, C> {
    pub shared: Shared<N>,
    pub clock: C,
    pub go: OnceLock<bool>,
}
