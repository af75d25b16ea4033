//! The outcome of a ticker's work.

/// A reason for which a round could not be put in.
#[derive(Clone, Copy, Debug, PartialEq, Eq)]
pub enum Stop {
    /// No memory was found for it.
    NoMemory,
    /// The channel handed it back, since nobody takes any more.
    HandedBack,
}

/// The outcome of a ticker's ticks.
#[derive(Clone, Copy, Debug, PartialEq, Eq)]
pub struct Ticked {
    /// The number of refused ticks.
    pub refused: u32,
    /// The reason for which it stopped before its last tick or at it; `None` if it did not.
    pub stopped: Option<Stop>,
}
