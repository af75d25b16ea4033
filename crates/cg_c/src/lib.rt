//! A node as a library for C: each call takes handles, numbers and bytes, and answers 0 or the number of a fault.
//!
//! A handle holds one value behind a pointer, or is null and holds nothing. A call that is told an empty handle of a node
//! answers `NoSuchNode`. A refusal leaves all that the call was lent as it was. No call ends the process, prints, or
//! keeps a pointer that it was lent.
#![tactic(auto)]

mod entries;
mod exchanging;
mod given;
mod held_bytes;
mod held_node;
mod leading;
mod loose;
mod own;
mod reading;
mod starting;
mod told;

pub use given::Bytes;
pub use held_bytes::HeldBytes;
pub use held_node::HeldNode;
pub use starting::Judgement;
