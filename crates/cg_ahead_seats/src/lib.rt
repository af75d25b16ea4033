//! The events of one caller at a shared node that writes its journal ahead, each confirmed at once.
//!
//! A `SharedAhead` is the board behind its lock. An `AheadGate` does events as the caller of its seat: the receipt of
//! each is confirmed under the lock under which its record was made, and only the last one is kept.
#![tactic(auto)]

mod gate;
mod shared;

pub use gate::AheadGate;
pub use shared::SharedAhead;
