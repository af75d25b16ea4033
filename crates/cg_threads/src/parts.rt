//! The parts that a node runs on: links, a clock, random words, an operator.

/// The parts that a node runs on.
#[derive(Drop)]
pub struct Parts<L: Drop, D: Drop, C: Drop, G: Drop, O: Drop> {
    /// The source of connections that come in.
    pub listener: L,
    /// The maker of connections to peers.
    pub dialer: D,
    /// The clock that times are read from.
    pub clock: C,
    /// The generator from which the words of ticks are drawn.
    pub generator: G,
    /// The operator's work.
    pub operator: O,
}
