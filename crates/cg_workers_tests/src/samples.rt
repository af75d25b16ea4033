//! Sample nodes, frames and a clock.
//!
//! The exchange is that of A, 10.0.0.1:7000 in generation 9, with B, 10.0.0.2:7000 in generation 5, of the cluster c1.

use cg_core::Node;
use cg_engine::NodeGate;
use cg_testing::{endpoint, generation, settings};
use cg_workers::Milliseconds;
use std::alloc::Global;
use std::test::Fail;

// A's SYN.
pub(crate) const SYN: &[u8] =
    b"\x00\x00\x00\x16\x01\x01\x02c1\x01\x00\x01\x0a\x00\x00\x01\x1b\x58\x00\x00\x00\x09\x00\x00\x00\x01";

// A's SYN, and then its ACK2.
pub(crate) const SYN_AND_ACK2: &[u8] =
    b"\x00\x00\x00\x16\x01\x01\x02c1\x01\x00\x01\x0a\x00\x00\x01\x1b\x58\x00\x00\x00\x09\x00\x00\x00\x01\x00\x00\x00\x17\x01\x03\x00\x01\x0a\x00\x00\x01\x1b\x58\x00\x00\x00\x09\x00\x00\x00\x00\x00\x00\x00\x01\x00";

// B's ACK.
pub(crate) const ACK: &[u8] =
    b"\x00\x00\x00\x27\x01\x02\x00\x01\x0a\x00\x00\x01\x1b\x58\x00\x00\x00\x09\x00\x00\x00\x00\x00\x01\x0a\x00\x00\x02\x1b\x58\x00\x00\x00\x05\x00\x00\x00\x00\x00\x00\x00\x01\x00";

// The gate over the node of an endpoint that has just started at a generation.
pub(crate) fn started(alloc: Global, own: u16, start: u32) -> Result<NodeGate, Fail> {
    let node = Node::start(alloc, endpoint(own), generation(start), settings(alloc)?)?;
    Ok(NodeGate::new(node))
}

// The number of owners that the node of a gate holds.
pub(crate) fn owners(gate: &NodeGate) -> usize {
    gate.node().table().owners().len()
}

// A clock that shows one time.
pub(crate) struct Standing(pub(crate) u64);

impl Milliseconds for Standing {
    fn now(&self) -> u64 {
        self.0
    }
}
