//! Journals: the text of one history, which is written when a node ends and read to see what it did.
//!
//! The first line is `life EP GENERATION W INITIAL MAX THRESHOLD SEEDS CLUSTER`. Its seeds have commas between them, or
//! are `-`; the cluster's name goes to the end of the line. Then comes one line for each record: `beat`, `set KEY HEX`,
//! `tick NOW W1 W2 W3 W4`, `open`, `syn HEX`, `ack NOW HEX` or `ack2 NOW HEX`. Numbers are decimal with no leading
//! zeros. A frame, and the bytes of a text, are hexadecimal digits, and the empty text is `-`. Callers, replies and
//! puts are not written: reading does the events from the start, and the replies come out of that.
#![tactic(auto)]

mod event;
mod fitting;
mod history;
/// Laws of journals.
pub mod laws;
mod life;
mod line;
mod reading;
mod text;
mod unread;
mod writing;

pub use fitting::every_event_fits;
pub use history::every_history_fits;
pub use line::EventLine;
pub use reading::{read_journal, read_journal_telling};
pub use unread::Unread;
pub use writing::write_journal;
