//! Faults of settings of silence.

use crate::limits::{GAP_LIMIT, THRESHOLD_LIMIT, WINDOW_LIMIT};
use thiserror::Error;

/// A setting of silence that is out of its range.
#[derive(Clone, Copy, Debug, PartialEq, Eq, Error)]
pub enum SilenceFault {
    /// The window is not 1 to `WINDOW_LIMIT` gaps.
    #[error("the window is not 1 to {WINDOW_LIMIT} gaps")]
    Window,
    /// The greatest gap is not 1 to `GAP_LIMIT` milliseconds.
    #[error("the greatest gap is not 1 to {GAP_LIMIT} milliseconds")]
    MaxGap,
    /// The initial gap is not 1 to the greatest gap.
    #[error("the initial gap is not 1 to the greatest gap")]
    InitialGap,
    /// The threshold is not 1 to `THRESHOLD_LIMIT`.
    #[error("the threshold is not 1 to {THRESHOLD_LIMIT}")]
    Threshold,
}
