//! A node's workers, in the caller's thread and three more, over one history.
//!
//! `run_node` starts four workers on the seats of one board. The receiver answers exchanges, the sender begins them,
//! the ticker begins rounds, and the operator does its own work. All but the receiver wait for the start signal first.
//! Each leaves its seat with its receipts. `gather` puts the seats back together and has the history confirm all receipts.
//! So the workers leave one history, which has a record of each of them.
#![tactic(auto)]

mod begun;
mod callers;
mod finishing;
/// Laws of receipts and of the callers' numbers.
pub mod laws;
mod left;
mod parts;
mod promises;
mod ran;
mod run;
mod scoped;
mod seats;
mod site;
mod started;
mod tools;
mod work;

pub use begun::{Begun, prepare};
pub use callers::{OPERATOR, RECEIVER, SENDER, TICKER, WORKERS};
pub use cg_locked::{Operate, SeatGate, operator};
pub use cg_workers::{Dial, Listen, Turns, receiver, sender, ticker};
pub use finishing::gather;
pub use left::{SeatLeft, SenderLeft, TickerLeft, WorkersLeft};
pub use parts::Parts;
pub use ran::{NotRun, Ran};
pub use run::run_node;
pub use seats::Seats;
pub use site::Site;
pub use work::{run_operator, run_receiver, run_sender, run_ticker};
