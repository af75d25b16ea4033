//! Copies of events, replies, outcomes and peers, and their comparison by `==`.

use crate::samples::{ack_event, comes, node, set_event, stepped, syn_event};
use cg_core::{Event, Outcomes, Peers, Reply};
use cg_entry::Took;
use cg_messages::Outcome;
use cg_testing::{A, B, endpoint, expect, expect_eq, version};
use std::alloc::{AllocError, Global};
use std::test::Fail;

// An event of each kind, by numbers below 7.
fn event(alloc: Global, number: u8) -> Result<Event, Fail> {
    match number {
        0 => Ok(Event::Beat),
        1 => Ok(Event::Opening),
        2 => Ok(Event::Tick {
            now: 5,
            words: [7, 3, 5, 9],
        }),
        3 => set_event(alloc, 3, "x"),
        4 => syn_event(alloc, "c1"),
        5 => ack_event(alloc, 1),
        _ => comes(alloc, 1, B, (5, 0, 1)),
    }
}

fn are_equal(alloc: Global, one: u8, other: u8) -> Result<bool, Fail> {
    let one = event(alloc, one)?;
    Ok(one == event(alloc, other)?)
}

// Tests whether an event equals its copy, and counts the deltas that it hands on.
fn shown(alloc: Global, number: u8) -> Result<(bool, usize), Fail> {
    let event = event(alloc, number)?;
    Ok((event.copy(alloc)? == event, event.deltas().len()))
}

// Each number of an event, with the number of deltas that the event hands on.
#[test]
fn events_equal_their_copies_alone(rt: HostRuntime) -> Result<(), Fail> {
    for (one, deltas) in [(0, 0), (1, 0), (2, 0), (3, 0), (4, 0), (5, 1), (6, 1)] {
        expect_eq!(shown(rt.alloc(), one)?, (true, deltas), "{one}")?;
        for other in 0..7 {
            let equal = are_equal(rt.alloc(), one, other)?;
            expect_eq!(equal, one == other, "{one} and {other}")?;
        }
    }
    Ok(())
}

// Tests whether a reply equals its copy, whether it equals the reply of another version, and whether it sends a
// message.
fn replied(alloc: Global, reply: &Reply) -> Result<[bool; 3], AllocError> {
    let is_copied = reply.copy(alloc)? == *reply;
    let is_other = *reply == Reply::Done(version(9));
    Ok([is_copied, is_other, reply.message().is_some()])
}

// The reply to an event, at A in generation 9.
fn reply_to(alloc: Global, event: &Event) -> Result<Reply, Fail> {
    let node = node(alloc, A, 9)?;
    let (_after, reply) = stepped(alloc, &node, event)?;
    Ok(reply)
}

// Tests the same of that reply.
fn replied_to(alloc: Global, event: &Event) -> Result<[bool; 3], Fail> {
    let reply = reply_to(alloc, event)?;
    Ok(replied(alloc, &reply)?)
}

fn replied_to_number(alloc: Global, number: u8) -> Result<[bool; 3], Fail> {
    let event = event(alloc, number)?;
    replied_to(alloc, &event)
}

// Each number of an event, and whether the reply to it sends a message.
#[test]
fn replies_equal_their_copies(rt: HostRuntime) -> Result<(), Fail> {
    for (number, sends) in [
        (0, false),
        (1, true),
        (2, true),
        (3, false),
        (4, true),
        (5, true),
        (6, false),
    ] {
        let replied = replied_to_number(rt.alloc(), number)?;
        expect_eq!(replied, [true, false, sends], "{number}")?;
    }
    Ok(())
}

#[test]
fn outcomes_are_compared(rt: HostRuntime) -> Result<(), Fail> {
    let endpoint = endpoint(A);
    let took = Took::Old;
    let one = Outcomes::of(vec![in rt.alloc(); Outcome { endpoint, took }]?);
    expect!(one.copy(rt.alloc())? == one)?;
    expect!(one != Outcomes::of(Vec::new(rt.alloc())))
}

#[test]
fn peers_are_compared(rt: HostRuntime) -> Result<(), Fail> {
    let one = Peers::of(vec![in rt.alloc(); endpoint(B)]?);
    expect!(one.copy(rt.alloc())? == one)?;
    expect!(one != Peers::of(Vec::new(rt.alloc())))?;
    expect_eq!(one.endpoints().first().copied(), Some(endpoint(B)))
}
