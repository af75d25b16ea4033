//! Links whose calls are counted, reads and writes over them, the lines of a text, and links for trials.
//!
//! Lines are handed over one after the other, each without its line feed, as they come. Memory is that of the longest
//! line, and not of the text.
#![tactic(auto)]

mod counted;
/// Laws of the bounds on reads of a link and on their bytes.
pub mod laws;
mod lines;
mod transfer;
mod trials;

pub use counted::Counted;
pub use lines::{Next, PIECE_LIMIT, TakeLine, take_lines};
pub use transfer::{MOST_READS, read_all, write_and_flush, write_bytes};
pub use trials::{CountingLink, FailingLink, FullLink, SlowLink};
