//! Texts: the words of lines as they are read, and the forms in which a program prints what nodes hold and did.
//!
//! Single spaces separate words. An endpoint is as `10.0.0.1:7000`, and numbers are decimal with no leading zeros. Keys
//! are 1 to 16. Times in milliseconds, random words, numbers of replicas and of messages are 0 to 2^64 - 1. A text is the
//! rest of the line after one space. It may be empty, and is UTF-8.
//!
//! Each call that begins with `add_` adds to a text, of which the last line ends with one line feed. Tokens are 32
//! lower-case hexadecimal digits. Such a call returns `AllocError` if the text finds no memory; a part may then be added.
#![tactic(auto)]

mod done;
mod held;
pub mod laws;
mod names;
mod numbers;
mod parts;
mod runs;
mod seeds;
mod view;
mod words;
mod writing;

pub use done::{add_message, add_outcomes, add_round, add_started, add_version};
pub use held::{add_digests, add_gossipinfo, add_replicas, add_ring};
pub use names::{bytes_in, cluster_named};
pub use runs::{add_item, add_stuck};
pub use seeds::endpoints_in;
pub use view::View;
pub use words::{
    GREATEST, count_before, count_in, endpoint_before, four_in, is_word, key_before, state_text_in,
    text_in,
};
pub use writing::written;
