//! A fleet: the nodes of a cluster in one process, which gossip in rounds and lose messages by chance.
//!
//! In the place of sockets each message is handed on, one at a time. It passes through its frame, so a node shares no entry
//! with another, and takes the memory that it takes in a process of its own. A node's rounds are those of a node that
//! serves: a tick, whose words choose the peers, and one exchange with each of them.
#![tactic(auto)]

mod carrying;
mod chance;
mod fleet;
mod relaying;
mod rounds;
mod samples;
mod single;
mod spreading;

pub use carrying::carry;
pub use chance::Chance;
pub use fleet::Fleet;
pub use relaying::{Sent, WHOLE, relay};
pub use spreading::{all_have, hold_all, hold_equal};
