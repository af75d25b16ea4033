//! One node's history behind a lock, with the views of its table, and the events of one caller there.
//!
//! The data under the lock is a `Board`: the history, the publisher, and the number of records appended to the views.
//! It has the book of a ledger too, which counts the records. Its types state what is true of it whenever the lock is
//! free. A `SeatGate` does events as the caller of its seat, and keeps the receipts: a `Gate` for exchanges, an `Enter` for
//! a ticker. An `Operate` is an operator's work over such a gate.
#![tactic(auto)]

mod board;
pub mod laws;
mod limits;
mod log;
mod name;
mod operate;
mod seat;
mod seat_gate;
mod shared;

pub use board::Board;
pub use limits::SEAT_LIMIT;
pub use name::Name;
pub use operate::{Operate, operator};
pub use seat::Seat;
pub use seat_gate::SeatGate;
pub use shared::{BoardGuard, Fresh, Shared, Unconfirmed};
