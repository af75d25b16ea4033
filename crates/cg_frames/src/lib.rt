//! Messages as bytes, written and read.
#![tactic(auto)]

mod bodies;
mod decoding;
mod deltas;
mod encoding;
mod feed;
mod fits;
pub mod laws;
mod layout;
mod layouts;
mod lengths;
mod lists;
mod misread;
mod reader;

pub use cg_entry::TOMBSTONE;
pub use cg_messages::{Ack, Ack2, BorrowedMessage, Message, OwnerDelta, Request, Syn};
pub use decoding::{decode, decode_among, decode_in};
pub use encoding::{encode, encode_ack_into, encode_borrowed, encode_in};
pub use feed::{Fed, Feed};
pub use fits::every_message_fits;
pub use layout::{LAYOUT_1, LAYOUT_2, LAYOUT_3, LAYOUTS, Layout, WRITTEN};
