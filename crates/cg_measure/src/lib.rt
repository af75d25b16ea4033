//! The common part of the programs that measure: cases and their runs, tables and messages to work on, and digests of
//! results.
#![tactic(auto)]

mod case;
mod chance;
mod claims;
mod digest;
mod failure;
mod messages;
mod sampling;
mod tables;
mod words;

pub use case::{CaseName, Mode, Work, run_cases};
pub use claims::{claiming, leaving, tokens_text};
pub use digest::{add_message, add_ring, add_table};
pub use failure::Failure;
pub use messages::{bringing, empty_syn};
pub use tables::{HELD, Held, Shape, table, table_of};
pub use words::{is_first_word, mode_of};
