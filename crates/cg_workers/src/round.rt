//! A round of a node.

use cg_core::Peers;
use cg_messages::Syn;

/// A round: its peers, the SYN for each of them, and the number of its record.
#[derive(Debug, Drop)]
pub struct Round {
    /// The endpoints of the round, in the order in which they were chosen.
    pub peers: Peers,
    /// The SYN that each of them is sent.
    pub syn: Syn,
    /// The number of its record.
    pub number: u64,
}
