//! A board that writes the journal of its life ahead: the line of each record stands before the record takes effect.
//!
//! An event's line is written and flushed under the lock of the board, behind its record and before the record is
//! published, told or answered. So no message leaves, and no pass reads an entry, whose record is not in the journal.
//! Records that are written and published are folded, so that memory stays bounded.
#![tactic(auto)]

mod entering;
mod journaled;
pub mod laws;
mod limits;
mod weights;

pub use journaled::{Ended, Journaled};
pub use limits::{FOLD_LENGTH, MEMBER_WEIGHT, WEIGHT_LIMIT};
