//! Journals that are cut, as by a kill: the length of their whole lines, and laws.
//!
//! A line of a cut journal counts only with its line feed, so the journal is read as that of the life's first records.
//! The cut lives are one run wherever the whole ones are, if each message that is handled in what is left was sent in
//! what is left: as it is if each message left only behind its record's line.
#![tactic(auto)]

pub mod laws;
mod whole;

pub use whole::whole_length;
