//! Nodes, and the events that they are given.

use cg_core::{Event, Node};
use cg_entry::Delta;
use cg_history::History;
use cg_measure::{Failure, Held, Shape, bringing, table};
use cg_messages::{Ack, Ack2, OwnerDelta};
use cg_testing::{endpoint, generation, key, settings, version};
use cg_types::{Fault, StateText};
use std::alloc::{AllocError, Global};

/// An endpoint that has just started.
pub(crate) fn started(alloc: Global, number: u16, at: u32) -> Result<Node, Failure> {
    Ok(Node::start(alloc, endpoint(number), generation(at), settings(alloc)?)?)
}

/// The history of endpoint 0, which has just started.
pub(crate) fn begun(alloc: Global) -> Result<History, Failure> {
    Ok(History::begin(alloc, endpoint(0), generation(5), settings(alloc)?)?)
}

/// The node after an event.
pub(crate) fn after(alloc: Global, node: &Node, event: &Event) -> Result<Node, Fault> {
    let (after, _) = node.stepped(alloc, event)?;
    Ok(after)
}

/// The ACK that brings all that the others hold.
pub(crate) fn whole(alloc: Global, shape: Shape) -> Result<Ack, Failure> {
    bringing(alloc, &table(alloc, Held::Other, shape)?)
}

fn copies(alloc: Global, deltas: &[OwnerDelta]) -> Result<Vec<OwnerDelta>, AllocError> {
    let mut copies = Vec::new(alloc);
    for delta in deltas {
        copies.push(delta.copy(alloc)?)?;
    }
    Ok(copies)
}

fn arrival(now: u64, deltas: Vec<OwnerDelta>) -> Result<Event, Failure> {
    let m = Ack2::new(deltas).ok_or(Failure::Lacking("an ACK2"))?;
    Ok(Event::Ack2 { now, m })
}

/// The event of all that the others hold.
pub(crate) fn others(alloc: Global, shape: Shape) -> Result<Event, Failure> {
    let whole = whole(alloc, shape)?;
    arrival(1000, copies(alloc, whole.deltas())?)
}

/// Adds the delta of an endpoint.
pub(crate) fn add_delta(
    deltas: &mut Vec<OwnerDelta>,
    number: u16,
    delta: Delta,
) -> Result<(), Failure> {
    let endpoint = endpoint(number);
    Ok(deltas.push(OwnerDelta { endpoint, delta })?)
}

/// The event of an ACK2 that brings one delta, of an endpoint, at this time.
pub(crate) fn brings_one(
    alloc: Global,
    now: u64,
    number: u16,
    delta: Delta,
) -> Result<Event, Failure> {
    let mut deltas = Vec::new(alloc);
    add_delta(&mut deltas, number, delta)?;
    arrival(now, deltas)
}

// The delta of a heartbeat at a version, above the newest of an endpoint.
fn beat_at(alloc: Global, above: u32, at: u32) -> Result<Delta, Failure> {
    Delta::bare(alloc, generation(5), above, version(at)).ok_or(Failure::Lacking("a delta"))
}

/// The event of a heartbeat at a version, above the newest of an endpoint.
pub(crate) fn heartbeat(alloc: Global, number: u16, above: u32, at: u32) -> Result<Event, Failure> {
    brings_one(alloc, 2000, number, beat_at(alloc, above, at)?)
}

// The deltas of a heartbeat of each other endpoint.
fn beats_at(alloc: Global, owners: u16, above: u32, at: u32) -> Result<Vec<OwnerDelta>, Failure> {
    let mut deltas = Vec::new(alloc);
    for number in 1..owners {
        add_delta(&mut deltas, number, beat_at(alloc, above, at)?)?;
    }
    Ok(deltas)
}

// The event of a heartbeat of each other endpoint, `round` seconds after they joined.
fn round_of_beats(alloc: Global, owners: u16, round: u32) -> Result<Event, Failure> {
    let above = round.wrapping_add(17);
    let now = 1000 + u64::from(round) * 1000;
    arrival(now, beats_at(alloc, owners, above, above.wrapping_add(1))?)
}

/// The events of `count` heartbeats of each other of so many endpoints, a second apart, of which the first comes `first` seconds after
/// they joined.
pub(crate) fn rounds_of_beats(
    alloc: Global,
    owners: u16,
    first: u32,
    count: u32,
) -> Result<Vec<Event>, Failure> {
    let mut events = Vec::new(alloc);
    for round in first..first.wrapping_add(count) {
        events.push(round_of_beats(alloc, owners, round)?)?;
    }
    Ok(events)
}

// Endpoint 0, of which this is the first event.
fn first_step(alloc: Global, event: &Event) -> Result<Node, Failure> {
    let node = started(alloc, 0, 5)?;
    Ok(after(alloc, &node, event)?)
}

/// Endpoint 0, which has taken all that the others hold.
pub(crate) fn joined(alloc: Global, shape: Shape) -> Result<Node, Failure> {
    first_step(alloc, &others(alloc, shape)?)
}

/// The node after these events, one after the other.
pub(crate) fn after_all(alloc: Global, node: &Node, events: &[Event]) -> Result<Node, Failure> {
    let mut node = node.copy()?;
    for event in events {
        node = after(alloc, &node, event)?;
    }
    Ok(node)
}

/// Endpoint 0, which has taken all that the others hold, and then a thousand heartbeats of each.
pub(crate) fn heard(alloc: Global, shape: Shape) -> Result<Node, Failure> {
    let beats = rounds_of_beats(alloc, shape.owners, 1, 1000)?;
    let node = joined(alloc, shape)?;
    after_all(alloc, &node, &beats)
}

// The text of a state. It has no clause.
fn text_of(alloc: Global, text: &str) -> Result<StateText, Fault> {
    StateText::new(alloc, text)
}

/// The event that sets a key in the node's own entry.
pub(crate) fn set(alloc: Global, number: u8, text: &str) -> Result<Event, Fault> {
    let text = text_of(alloc, text)?;
    let key = key(number);
    Ok(Event::Set { key, text })
}

/// The event that sets a load in the node's own entry.
pub(crate) fn load(alloc: Global) -> Result<Event, Fault> {
    set(alloc, 3, "1048576")
}

/// The event that removes the load.
pub(crate) fn unload() -> Event {
    Event::Remove { key: key(3) }
}
