//! A table that one publisher shows, and that passes read with no lock and no wait.
//!
//! The published table is the opening table after lists of puts, each list one operation. A pass reads the table that
//! is published at that time, and its read begins with all that it has read or learnt before. By a `Told` one thread
//! hands another what is published: a pass that learnt it reads that, or more.
#![tactic(auto)]

mod following;
mod front;
pub mod laws;
mod limits;
mod pass;
mod publisher;
mod shown;

pub use front::{Naming, Opened};
pub use limits::PASS_LIMIT;
pub use pass::{Pass, Snapshot, Told};
pub use publisher::{Publisher, views};
