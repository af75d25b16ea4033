//! A history: a node, and the records of all that it did since it started, with the laws of both.
//!
//! Each record of a history replays: from the node before it, its event leads by one step to the node after it, with
//! the record's reply. The record's puts are what the step changed in the table. A receipt is what the caller keeps of its
//! record; `History::confirms` tests whether receipts are the history's own. An `Enter` has events done, and keeps their
//! receipts. The first records can be folded into the history's base: then the history keeps their number alone.
#![tactic(auto)]

mod confirming;
mod enter;
mod greatest;
mod history;
mod item;
/// Laws of histories.
pub mod laws;
mod log;

pub use confirming::confirms;
pub use enter::Enter;
pub use history::History;
pub use item::{Item, Receipt, UnconfirmedReceipt};
pub use log::Log;
