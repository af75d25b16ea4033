//! Exchanges of messages over links, and one message over a link.
//!
//! A gate does the events of the messages that come, as one node does, or many threads that share one. An exchange is a
//! few turns: a message is read, its event is done, and the message of the reply is written. It goes over links whose
//! calls are counted; others fail, are slow or take nothing, for trials.
#![tactic(auto)]

mod answering;
mod exchange;
mod expected;
mod gate;
pub mod laws;
mod node_gate;
mod receiving;
mod sending;
mod turn;

pub use answering::answer_frame;
pub use cg_links::{Counted, CountingLink, FailingLink, FullLink, SlowLink};
pub use exchange::{Broken, Ended, initiate, respond};
pub use expected::{UNEXPECTED, expected_ack, expected_ack2, expected_syn};
pub use gate::Gate;
pub use node_gate::NodeGate;
pub use receiving::{MOST_TURNS, PIECE_LIMIT, receive};
pub use sending::send;
