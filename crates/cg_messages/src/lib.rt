//! The three messages of an exchange between two members.
//!
//! An exchange has the shape of Apache Cassandra's. A SYN has digests (`GossipDigestSyn`), an ACK has requests and
//! deltas (`GossipDigestAck`), and an ACK2 has the deltas that were requested (`GossipDigestAck2`). Each list of a
//! message rises strictly by endpoint and has at most `MEMBER_LIMIT` members.
#![tactic(auto)]

mod ack;
mod ack2;
mod borrowed;
mod borrowed_ack;
mod kind;
mod message;
mod opening;
mod outcome;
mod owned;
mod owner_delta;
mod request;

pub use ack::Ack;
pub use ack2::Ack2;
pub use borrowed::BorrowedMessage;
pub use borrowed_ack::{BorrowedAck, BorrowedOwnerDelta};
pub use kind::Kind;
pub use message::Message;
pub use opening::Syn;
pub use outcome::Outcome;
pub use owner_delta::OwnerDelta;
pub use request::Request;
