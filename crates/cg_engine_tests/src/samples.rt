//! Nodes and frames of the worked exchange: A is 10.0.0.1:7000 in generation 9, B is 10.0.0.2:7000 in generation 5, and
//! the cluster is c1.

use cg_core::{Event, Node};
use cg_engine::{Broken, Ended, NodeGate, expected_syn, initiate, respond};
use cg_frames::decode;
use cg_links::Counted;
use cg_messages::Syn;
use cg_testing::{A, B, endpoint, generation, settings};
use std::alloc::Global;
use std::io::{Read, Write};
use std::test::Fail;

// A's SYN, B's ACK, and A's ACK2 in layout 1, as they are read.
pub(crate) const SYN_IN: &[u8] =
    b"\x00\x00\x00\x16\x01\x01\x02c1\x01\x00\x01\x0a\x00\x00\x01\x1b\x58\x00\x00\x00\x09\x00\x00\x00\x01";

pub(crate) const ACK_IN: &[u8] =
    b"\x00\x00\x00\x27\x01\x02\x00\x01\x0a\x00\x00\x01\x1b\x58\x00\x00\x00\x09\x00\x00\x00\x00\x00\x01\x0a\x00\x00\x02\x1b\x58\x00\x00\x00\x05\x00\x00\x00\x00\x00\x00\x00\x01\x00";

pub(crate) const ACK2_IN: &[u8] =
    b"\x00\x00\x00\x17\x01\x03\x00\x01\x0a\x00\x00\x01\x1b\x58\x00\x00\x00\x09\x00\x00\x00\x00\x00\x00\x00\x01\x00";

// The same messages in layout 3, as they are written, and read too.
pub(crate) const SYN_OUT: &[u8] =
    b"\x00\x00\x00\x16\x03\x01\x02c1\x01\x00\x01\x0a\x00\x00\x01\x1b\x58\x00\x00\x00\x09\x00\x00\x00\x01";

pub(crate) const ACK_OUT: &[u8] =
    b"\x00\x00\x00\x27\x03\x02\x00\x01\x0a\x00\x00\x01\x1b\x58\x00\x00\x00\x09\x00\x00\x00\x00\x00\x01\x0a\x00\x00\x02\x1b\x58\x00\x00\x00\x05\x00\x00\x00\x00\x00\x00\x00\x01\x00";

pub(crate) const ACK2_OUT: &[u8] =
    b"\x00\x00\x00\x17\x03\x03\x00\x01\x0a\x00\x00\x01\x1b\x58\x00\x00\x00\x09\x00\x00\x00\x00\x00\x00\x00\x01\x00";

// Makes the node of an endpoint that has just started at a generation.
pub(crate) fn started(alloc: Global, own: u16, start: u32) -> Result<Node, Fail> {
    Ok(Node::start(alloc, endpoint(own), generation(start), settings(alloc)?)?)
}

// Steps a node by an event. It has no clause, so who calls it again and again is proved without what a step promises.
pub(crate) fn step(alloc: Global, node: &mut Node, event: Event) -> Result<(), Fail> {
    node.step(alloc, &event)?;
    Ok(())
}

fn node(alloc: Global, own: u16, start: u32) -> Result<NodeGate, Fail> {
    Ok(NodeGate::new(started(alloc, own, start)?))
}

pub(crate) fn a(alloc: Global) -> Result<NodeGate, Fail> {
    node(alloc, A, 9)
}

pub(crate) fn b(alloc: Global) -> Result<NodeGate, Fail> {
    node(alloc, B, 5)
}

// The SYN that A sends.
pub(crate) fn syn(alloc: Global) -> Result<Syn, Fail> {
    let (message, _size) = decode(alloc, SYN_IN)?.ok_or("a whole frame")?;
    Ok(expected_syn(message)?)
}

// Answers an exchange at a gate over these links: its end, and both links. As `step`, it has no clause.
pub(crate) fn respond_over<R: Read, W: Write>(
    alloc: Global,
    gate: &mut NodeGate,
    now: u64,
    input: R,
    output: W,
) -> (Result<Ended, Broken>, Counted<R>, Counted<W>) {
    let mut reader = Counted::new(input);
    let mut writer = Counted::new(output);
    let ended = respond(alloc, gate, now, &mut reader, &mut writer);
    (ended, reader, writer)
}

// Begins an exchange with this SYN at a gate in the same way.
pub(crate) fn initiate_over<R: Read, W: Write>(
    alloc: Global,
    gate: &mut NodeGate,
    now: u64,
    opening: &Syn,
    input: R,
    output: W,
) -> (Result<Ended, Broken>, Counted<R>, Counted<W>) {
    let mut reader = Counted::new(input);
    let mut writer = Counted::new(output);
    let ended = initiate(alloc, gate, now, opening, &mut reader, &mut writer);
    (ended, reader, writer)
}

// Returns the first `count` bytes.
pub(crate) fn front(bytes: &[u8], count: usize) -> &[u8] {
    &bytes[..count.min(bytes.len())]
}

// Joins bytes, one after the other.
pub(crate) fn joined(alloc: Global, parts: &[&[u8]]) -> Result<Vec<u8>, Fail> {
    let mut all = Vec::new(alloc);
    for part in parts {
        all.extend_from_slice(part)?;
    }
    Ok(all)
}
