//! The tools that each worker has of its own.

// The receiver's listener, the sender's dialer, the ticker's generator, and the operator's work.
#[derive(Drop)]
pub(crate) struct Tools<L: Drop, D: Drop, G: Drop, O: Drop> {
    pub(crate) listener: L,
    pub(crate) dialer: D,
    pub(crate) generator: G,
    pub(crate) operator: O,
}
