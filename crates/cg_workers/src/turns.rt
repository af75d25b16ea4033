//! The numbers by which the workers of a node that serves end and wait.

/// The rounds and exchanges of a node that serves, and its interval.
#[derive(Clone, Copy, Debug, PartialEq, Eq)]
pub struct Turns {
    /// The rounds that it begins.
    pub rounds: u32,
    /// The exchanges that it takes.
    pub exchanges: u32,
    /// Milliseconds between two rounds.
    pub interval: u32,
}
