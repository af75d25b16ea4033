//! Exchanges and frames over links in memory.

use crate::nodes::{after, joined, started};
use bytes::Bytes;
use cg_core::{Event, Node, Reply};
use cg_engine::{Ended, NodeGate, initiate, receive, respond};
use cg_exchange::{answer_syn, syn};
use cg_frames::{decode, encode};
use cg_links::Counted;
use cg_measure::{Failure, Shape};
use cg_messages::{Ack, Ack2, Message, Syn};
use cg_testing::cluster;
use cg_types::Fault;
use std::alloc::{AllocError, Global};

/// One side of an exchange: its node, and the bytes that it reads.
#[derive(Drop)]
pub(crate) struct Side {
    node: Node,
    input: Vec<u8>,
}

fn opening(alloc: Global, opener: &Node) -> Result<Syn, Failure> {
    let cluster = cluster(alloc)?;
    Ok(syn(alloc, opener.table(), &cluster)?)
}

/// The answerer's node after an exchange over links, and the bytes that it wrote.
pub(crate) fn answerer_part(alloc: Global, side: &Side) -> Result<(Node, Vec<u8>), Failure> {
    let mut gate = NodeGate::new(side.node.copy()?);
    let mut reader = Counted::new(side.input.as_slice());
    let mut writer = Counted::new(Vec::new(alloc));
    let ended = respond(alloc, &mut gate, 2000, &mut reader, &mut writer);
    if ended != Ok(Ended::Whole) {
        return Err(Failure::Lacking("an answer to the end"));
    }
    Ok((gate.into_node(), writer.into_link()))
}

/// The opener's node after an exchange over links, and the bytes that it wrote.
pub(crate) fn opener_part(alloc: Global, side: &Side) -> Result<(Node, Vec<u8>), Failure> {
    let syn = opening(alloc, &side.node)?;
    let mut gate = NodeGate::new(side.node.copy()?);
    let mut reader = Counted::new(side.input.as_slice());
    let mut writer = Counted::new(Vec::new(alloc));
    let ended = initiate(alloc, &mut gate, 2000, &syn, &mut reader, &mut writer);
    if ended != Ok(Ended::Whole) {
        return Err(Failure::Lacking("an opening to the end"));
    }
    Ok((gate.into_node(), writer.into_link()))
}

/// The message that a link holds.
pub(crate) fn received(alloc: Global, frame: &[u8]) -> Result<Message, Failure> {
    let mut reader = Counted::new(frame);
    receive(alloc, &mut reader)?.ok_or(Failure::Lacking("a message"))
}

// The ACK that the answerer sends to the opener's SYN.
fn answer(alloc: Global, opener: &Node, answerer: &Node) -> Result<Ack, Failure> {
    let cluster = cluster(alloc)?;
    let syn = syn(alloc, opener.table(), &cluster)?;
    Ok(answer_syn(alloc, answerer.table(), &cluster, &syn)?)
}

// The node after an event, and its reply. It has no clause, so who calls it is proved without the rules of steps.
fn stepped(alloc: Global, node: &Node, event: &Event) -> Result<(Node, Reply), Fault> {
    node.stepped(alloc, event)
}

// The opener after the answer to its SYN, and the ACK2 that it sends.
fn answered(alloc: Global, opener: &Node, m: Ack) -> Result<(Node, Ack2), Failure> {
    let (opener, reply) = stepped(alloc, opener, &Event::Ack { now: 1000, m })?;
    match reply {
        Reply::Both { ack2, .. } => Ok((opener, ack2)),
        _ => Err(Failure::Lacking("an ACK2")),
    }
}

// Both nodes after an exchange.
fn both_meet(alloc: Global, opener: &Node, answerer: &Node) -> Result<(Node, Node), Failure> {
    let ack = answer(alloc, opener, answerer)?;
    let (opener, m) = answered(alloc, opener, ack)?;
    let answerer = after(alloc, answerer, &Event::Ack2 { now: 1000, m })?;
    Ok((opener, answerer))
}

// Endpoint 0, which holds all others, and endpoint 255, once more started, which holds as much.
fn equal_nodes(alloc: Global, shape: Shape) -> Result<(Node, Node), Failure> {
    let opener = joined(alloc, shape)?;
    let answerer = started(alloc, 255, 6)?;
    both_meet(alloc, &opener, &answerer)
}

fn syn_frame(alloc: Global, opener: &Node) -> Result<Bytes, Failure> {
    Ok(encode(alloc, &Message::Syn(opening(alloc, opener)?))?)
}

fn ack2_frame(alloc: Global, opener: &Node, ack: Ack) -> Result<Bytes, Failure> {
    let (_, ack2) = answered(alloc, opener, ack)?;
    Ok(encode(alloc, &Message::Ack2(ack2))?)
}

fn put_together(alloc: Global, one: &[u8], other: &[u8]) -> Result<Vec<u8>, AllocError> {
    let mut all = Vec::with_capacity(alloc, one.len().saturating_add(other.len()))?;
    all.extend_from_slice(one)?;
    all.extend_from_slice(other)?;
    Ok(all)
}

fn ack_frame(alloc: Global, opener: &Node, answerer: &Node) -> Result<Bytes, Failure> {
    let ack = answer(alloc, opener, answerer)?;
    Ok(encode(alloc, &Message::Ack(ack))?)
}

// The bytes that the opener reads: an ACK.
fn opener_input(alloc: Global, opener: &Node, answerer: &Node) -> Result<Vec<u8>, Failure> {
    let ack = ack_frame(alloc, opener, answerer)?;
    Ok(ack.to_vec(alloc)?)
}

// The bytes that the answerer reads: a SYN and an ACK2.
fn answerer_input(alloc: Global, opener: &Node, answerer: &Node) -> Result<Vec<u8>, Failure> {
    let ack2 = ack2_frame(alloc, opener, answer(alloc, opener, answerer)?)?;
    Ok(put_together(alloc, &syn_frame(alloc, opener)?, &ack2)?)
}

// Both sides of an exchange between two nodes.
fn sides(alloc: Global, opener: Node, answerer: Node) -> Result<(Side, Side), Failure> {
    let heard = opener_input(alloc, &opener, &answerer)?;
    let asked = answerer_input(alloc, &opener, &answerer)?;
    let opener = Side {
        node: opener,
        input: heard,
    };
    let answerer = Side {
        node: answerer,
        input: asked,
    };
    Ok((opener, answerer))
}

/// Both sides of an exchange of two nodes that hold the same.
pub(crate) fn equal_sides(alloc: Global, shape: Shape) -> Result<(Side, Side), Failure> {
    let (opener, answerer) = equal_nodes(alloc, shape)?;
    sides(alloc, opener, answerer)
}

/// A node, and the frame of a SYN of another that holds the same.
pub(crate) fn equal_syn(alloc: Global, shape: Shape) -> Result<(Node, Bytes), Failure> {
    let (opener, answerer) = equal_nodes(alloc, shape)?;
    let frame = syn_frame(alloc, &opener)?;
    Ok((answerer, frame))
}

/// The node after the frame of a SYN, and the frame of its answer.
pub(crate) fn handled(alloc: Global, node: &Node, frame: &[u8]) -> Result<(Node, Bytes), Failure> {
    let event = match decode(alloc, frame)? {
        Some((Message::Syn(m), _)) => Event::Syn { m },
        _ => return Err(Failure::Lacking("a SYN")),
    };
    match node.stepped(alloc, &event)? {
        (node, Reply::Sent(ack)) => Ok((node, encode(alloc, &ack)?)),
        _ => Err(Failure::Lacking("an answer")),
    }
}
