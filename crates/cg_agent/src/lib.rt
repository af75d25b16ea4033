//! A node that runs until it is stopped: its life, from its settings on, with a journal that is written as it runs.
//!
//! Receivers answer connections, and one worker begins rounds, sends them and tells of members that come, go silent and
//! come back. An operator's lines change the node's keys. Each event's line stands in the journal before its message
//! leaves, and records that are written and published are folded, so that memory stays bounded.
#![tactic(auto)]

mod breaks;
mod browsers;
mod chores;
mod counts;
pub mod laws;
mod limits;
mod lines;
mod living;
mod looking;
mod members;
mod parts;
mod posts;
mod promises;
mod publishing;
mod reading;
mod receivers;
mod rounds;
mod running;
mod seats;
mod sink;
mod site;
mod standard_input;
mod started;
mod tally;
mod telling;
mod work;

pub use limits::{LINE_MOST, MEBIBYTE, NAP, PAUSE, WEB_LIMIT, WEB_TIME};
pub use living::agent;
pub use parts::{Parts, Plan};
pub use running::{Ran, run_agent};
