//! Two nodes that hold 512 endpoints between them, each with 16 states of 4,096 bytes, exchange all that they hold.

use crate::samples::{initiate_over, respond_over, started, step};
use cg_core::{Event, Node};
use cg_engine::{Broken, Ended, NodeGate};
use cg_exchange::syn;
use cg_links::CountingLink;
use cg_messages::{Ack2, OwnerDelta, Syn};
use cg_testing::{delta, endpoint, expect_eq, key, state};
use cg_types::{StateText, TEXT_LIMIT};
use std::alloc::Global;
use std::test::Fail;

// Returns the letter of a key of an endpoint.
fn letter(number: u16, at: u8) -> char {
    char::from(b'a' + (number % 13) as u8 + at % 13)
}

// The letters of the part that a text repeats.
const PART: usize = 64;

// Makes the text of a key of an endpoint: its letter, as often as a text may have it.
fn text(alloc: Global, number: u16, at: u8) -> Result<String, Fail> {
    let letter = letter(number, at);
    let mut part = String::new(alloc);
    for _ in 0..PART {
        part.push(letter)?;
    }
    let mut text = String::new(alloc);
    for _ in 0..TEXT_LIMIT / PART {
        text.push_str(&part)?;
    }
    Ok(text)
}

// Makes the delta with all states of an endpoint.
fn whole(alloc: Global, number: u16) -> Result<OwnerDelta, Fail> {
    let mut states = Vec::new(alloc);
    for at in 1..17u8 {
        let text = text(alloc, number, at)?;
        states.push(state(alloc, at, u32::from(at) + 1, &text)?)?;
    }
    Ok(OwnerDelta {
        endpoint: endpoint(number),
        delta: delta((5, 0, 20), states)?,
    })
}

// Makes the message that brings the endpoints of these numbers.
fn crowd(alloc: Global, from: u16, to: u16) -> Result<Ack2, Fail> {
    let mut deltas = Vec::new(alloc);
    for number in from..to {
        deltas.push(whole(alloc, number)?)?;
    }
    Ok(Ack2::new(deltas).ok_or("an ACK2")?)
}

// Sets a key of the node of an endpoint to its text.
fn set(alloc: Global, node: &mut Node, own: u16, at: u8) -> Result<(), Fail> {
    let text = StateText::new(alloc, &text(alloc, own, at)?)?;
    step(alloc, node, Event::Set { key: key(at), text })
}

// Makes the node of an endpoint that has set its 16 states.
fn settled(alloc: Global, own: u16) -> Result<Node, Fail> {
    let mut node = started(alloc, own, 5)?;
    for at in 1..17u8 {
        set(alloc, &mut node, own, at)?;
    }
    Ok(node)
}

// Makes the node of the first of these endpoints, which holds all of them.
fn holding(alloc: Global, from: u16, to: u16) -> Result<Node, Fail> {
    let mut node = settled(alloc, from)?;
    let m = crowd(alloc, from.saturating_add(1), to)?;
    step(alloc, &mut node, Event::Ack2 { now: 1000, m })?;
    Ok(node)
}

// The result of one side of an exchange: its end, the number of bytes left, the most that one read requested, the node
// then, and the bytes written.
#[derive(Drop)]
struct Part {
    ended: Result<Ended, Broken>,
    left: usize,
    asked: usize,
    node: Node,
    written: Vec<u8>,
}

fn answering(alloc: Global, node: Node, input: &[u8]) -> Part {
    let mut gate = NodeGate::new(node);
    let input = CountingLink::new(input);
    let (ended, reader, writer) = respond_over(alloc, &mut gate, 2000, input, Vec::new(alloc));
    let link = reader.into_link();
    let asked = link.most_asked();
    Part {
        ended,
        left: link.into_link().len(),
        asked,
        node: gate.into_node(),
        written: writer.into_link(),
    }
}

fn opening(alloc: Global, node: Node, first: &Syn, input: &[u8]) -> Part {
    let mut gate = NodeGate::new(node);
    let input = CountingLink::new(input);
    let (ended, reader, writer) = initiate_over(
        alloc,
        &mut gate,
        2000,
        first,
        input,
        Vec::new(alloc),
    );
    let link = reader.into_link();
    let asked = link.most_asked();
    Part {
        ended,
        left: link.into_link().len(),
        asked,
        node: gate.into_node(),
        written: writer.into_link(),
    }
}

// The ends of both sides, the bytes that each left of its input, the most that their reads requested, the length of the
// ACK, whether both hold the same entries, and the number of endpoints.
type Meeting = (
    [Result<Ended, Broken>; 2],
    [usize; 2],
    [usize; 2],
    usize,
    (bool, usize),
);

// Returns what a node writes before it has an answer; it stays the same.
fn begun(alloc: Global, node: &Node, first: &Syn) -> Result<Vec<u8>, Fail> {
    Ok(opening(alloc, node.copy()?, first, b"").written)
}

// Returns what a node writes over this input; it stays the same.
fn answered(alloc: Global, node: &Node, input: &[u8]) -> Result<Vec<u8>, Fail> {
    Ok(answering(alloc, node.copy()?, input).written)
}

// Returns the SYN of the first of two nodes and the ACK with which the second answers it; both nodes stay the same.
fn syn_and_ack(alloc: Global, a: &Node, b: &Node) -> Result<(Syn, Vec<u8>), Fail> {
    let first = syn(alloc, a.table(), a.settings().cluster())?;
    let begun = begun(alloc, a, &first)?;
    let ack = answered(alloc, b, begun.as_slice())?;
    Ok((first, ack))
}

// Runs a node over an ACK and two more bytes, and puts two more behind the bytes that it wrote.
fn opened(alloc: Global, node: Node, first: &Syn, ack: Vec<u8>) -> Result<Part, Fail> {
    let mut input = ack;
    input.extend_from_slice(b"\xff\xff")?;
    let mut part = opening(alloc, node, first, input.as_slice());
    part.written.extend_from_slice(b"\xff\xff")?;
    Ok(part)
}

// Runs each of two nodes over the bytes that the other wrote and two more; returns both sides, and the ACK's length.
fn sides(alloc: Global, a: Node, b: Node) -> Result<(Part, Part, usize), Fail> {
    let (first, ack) = syn_and_ack(alloc, &a, &b)?;
    let length = ack.len();
    let one = opened(alloc, a, &first, ack)?;
    let other = answering(alloc, b, one.written.as_slice());
    Ok((one, other, length))
}

// Runs the exchange if the first side holds this number of endpoints, and the other side the rest.
fn meeting(alloc: Global, split: u16) -> Result<Meeting, Fail> {
    let a = holding(alloc, 1, split.saturating_add(1))?;
    let b = holding(alloc, split.saturating_add(1), 513)?;
    let (one, other, length) = sides(alloc, a, b)?;
    let same = one.node.table().same_entries(other.node.table());
    let held = other.node.table().owners().len();
    Ok((
        [one.ended, other.ended],
        [one.left, other.left],
        [one.asked, other.asked],
        length,
        (same, held),
    ))
}

const WHOLE: [Result<Ended, Broken>; 2] = [Ok(Ended::Whole), Ok(Ended::Whole)];

// A delta has 19 bytes and 16 states of 4,103; an ACK 10 beside its members, and a request 14.
#[test]
fn a_newcomer_takes_a_full_table(rt: HostRuntime) -> Result<(), Fail> {
    let shown = meeting(rt.alloc(), 1)?;
    expect_eq!(
        shown,
        (
            WHOLE,
            [2, 2],
            [4096, 4096],
            10 + 14 + 511 * 65667,
            (true, 512)
        )
    )
}

#[test]
fn two_halves_make_a_full_table(rt: HostRuntime) -> Result<(), Fail> {
    let shown = meeting(rt.alloc(), 256)?;
    expect_eq!(
        shown,
        (
            WHOLE,
            [2, 2],
            [4096, 4096],
            10 + 256 * 14 + 256 * 65667,
            (true, 512)
        )
    )
}
