//! Samples for tests of operators at the gate of a seat.
#![tactic(auto)]

mod calls;

pub use calls::{last_version, learn, read_removed, read_three, remove_three, set_three};
