//! The tasks of a node that are measured, with their inputs and their results.

use crate::cases::{Case, Task};
use crate::claims::{claimed, joins, leaves, left};
use crate::histories::{beats, events, folded, receipts, recorded, stepped, unconfirmed};
use crate::links::{Side, answerer_part, equal_sides, equal_syn, handled, opener_part, received};
use crate::nodes::{
    after, after_all, heard, heartbeat, joined, load, rounds_of_beats, started, unload, whole,
};
use crate::scripts::{acted, actions_of, played, script_of};
use bytes::Bytes;
use cg_core::{Event, Node};
use cg_frames::encode;
use cg_history::{History, Receipt};
use cg_measure::{CaseName, Failure, Shape, add_message, add_ring, add_table};
use cg_messages::Message;
use cg_table::Table;
use cg_world::{Action, World};
use md5::{Digest, Md5};
use std::alloc::{AllocError, Global};

/// One task, with its input.
#[derive(Drop)]
pub(crate) enum Work {
    /// Copies a table.
    Copy(Table),
    /// One step of a node.
    Step(Node, Event),
    /// One step at which claims to tokens change.
    Claim(Node, Event),
    /// Steps of a node, one after the other.
    Further(Node, Vec<Event>),
    /// Both parts of an exchange, over links in memory.
    Links(Side, Side),
    /// A node handles a frame.
    Handle(Node, Bytes),
    /// Reads the one message of a link.
    Receive(Bytes),
    /// Steps of a node that starts, one after the other.
    Steps(Vec<Event>),
    /// The same as records of a history.
    Records(Vec<Event>),
    /// The same as records that are folded again and again.
    Folded(Vec<Event>),
    Confirms(History, Vec<Receipt>),
    Play(String),
    Act(Vec<Action>),
}

/// The result of one turn.
#[derive(Drop)]
pub(crate) enum Made {
    Table(Table),
    Node(Node),
    /// A node, whose ring is shown too.
    Claimed(Node),
    /// Two nodes, each with the bytes that it wrote.
    Linked((Node, Vec<u8>), (Node, Vec<u8>)),
    /// A node, and the frame that it answers.
    Handled(Node, Bytes),
    Message(Message),
    History(History),
    UnconfirmedReceipt(Option<usize>),
    Text(Vec<u8>),
    World(World),
}

fn linked(alloc: Global, opener: &Side, answerer: &Side) -> Result<Made, Failure> {
    let answerer = answerer_part(alloc, answerer)?;
    Ok(Made::Linked(opener_part(alloc, opener)?, answerer))
}

fn add_unconfirmed(
    alloc: Global,
    digest: &mut Md5,
    unconfirmed: Option<usize>,
) -> Result<(), Failure> {
    match unconfirmed {
        Some(place) => digest.update(format!(in alloc; "{place}\n")?.as_bytes()),
        None => digest.update(b"confirmed\n"),
    }
    Ok(())
}

fn add_part(alloc: Global, digest: &mut Md5, part: &(Node, Vec<u8>)) -> Result<(), Failure> {
    let (node, written) = part;
    add_table(alloc, digest, node.table())?;
    digest.update(written);
    Ok(())
}

fn add_claimed(alloc: Global, digest: &mut Md5, node: &Node) -> Result<(), Failure> {
    add_table(alloc, digest, node.table())?;
    Ok(add_ring(alloc, digest, node.ring())?)
}

// The tables of all nodes that run.
fn add_world(alloc: Global, digest: &mut Md5, world: &World) -> Result<(), Failure> {
    for endpoint in world.endpoints(alloc)? {
        if let Some(node) = world.node(endpoint) {
            add_table(alloc, digest, node.table())?;
        }
    }
    Ok(())
}

impl cg_measure::Work for Work {
    type Made = Made;

    fn turn(&self, alloc: Global) -> Result<Made, Failure> {
        match self {
            Work::Copy(table) => Ok(Made::Table(table.copy(alloc)?)),
            Work::Step(node, event) => Ok(Made::Node(after(alloc, node, event)?)),
            Work::Claim(node, event) => Ok(Made::Claimed(after(alloc, node, event)?)),
            Work::Further(node, events) => Ok(Made::Node(after_all(alloc, node, events)?)),
            Work::Links(opener, answerer) => linked(alloc, opener, answerer),
            Work::Handle(node, frame) => {
                let (node, answer) = handled(alloc, node, frame)?;
                Ok(Made::Handled(node, answer))
            }
            Work::Receive(frame) => Ok(Made::Message(received(alloc, frame)?)),
            Work::Steps(events) => Ok(Made::Node(stepped(alloc, events)?)),
            Work::Records(events) => Ok(Made::History(recorded(alloc, events)?)),
            Work::Folded(events) => Ok(Made::History(folded(alloc, events)?)),
            Work::Confirms(history, receipts) => Ok(Made::UnconfirmedReceipt(unconfirmed(
                history, receipts,
            ))),
            Work::Play(script) => Ok(Made::Text(played(alloc, script)?)),
            Work::Act(actions) => Ok(Made::World(acted(alloc, actions)?)),
        }
    }

    fn add(alloc: Global, digest: &mut Md5, made: &Made) -> Result<(), Failure> {
        match made {
            Made::Table(table) => add_table(alloc, digest, table),
            Made::Node(node) => add_table(alloc, digest, node.table()),
            Made::Claimed(node) => add_claimed(alloc, digest, node),
            Made::Linked(opener, answerer) => {
                add_part(alloc, digest, opener)?;
                add_part(alloc, digest, answerer)
            }
            Made::Handled(node, answer) => {
                add_table(alloc, digest, node.table())?;
                digest.update(answer);
                Ok(())
            }
            Made::Message(message) => add_message(alloc, digest, message),
            Made::History(history) => add_table(alloc, digest, history.node().table()),
            Made::UnconfirmedReceipt(unconfirmed) => add_unconfirmed(alloc, digest, *unconfirmed),
            Made::Text(text) => {
                digest.update(text);
                Ok(())
            }
            Made::World(world) => add_world(alloc, digest, world),
        }
    }
}

// A copy of the table of a node. It has no clause.
fn table_of(alloc: Global, node: &Node) -> Result<Table, AllocError> {
    node.table().copy(alloc)
}

fn copied(alloc: Global, shape: Shape) -> Result<Work, Failure> {
    let table = table_of(alloc, &joined(alloc, shape)?)?;
    Ok(Work::Copy(table))
}

fn step(alloc: Global, event: Event, shape: Shape) -> Result<Work, Failure> {
    Ok(Work::Step(joined(alloc, shape)?, event))
}

// A node that set a load, and the removal of it.
fn removal(alloc: Global, shape: Shape) -> Result<Work, Failure> {
    let node = after(alloc, &joined(alloc, shape)?, &load(alloc)?)?;
    Ok(Work::Step(node, unload()))
}

fn own_beats(alloc: Global, count: u32, shape: Shape) -> Result<Work, Failure> {
    let mut beats = Vec::new(alloc);
    for _ in 0..count {
        beats.push(Event::Beat)?;
    }
    Ok(Work::Further(joined(alloc, shape)?, beats))
}

fn beats_of_all(alloc: Global, count: u32, shape: Shape) -> Result<Work, Failure> {
    let beats = rounds_of_beats(alloc, shape.owners, 1001, count)?;
    Ok(Work::Further(heard(alloc, shape)?, beats))
}

fn links(alloc: Global, shape: Shape) -> Result<Work, Failure> {
    let (opener, answerer) = equal_sides(alloc, shape)?;
    Ok(Work::Links(opener, answerer))
}

fn handles(alloc: Global, shape: Shape) -> Result<Work, Failure> {
    let (node, frame) = equal_syn(alloc, shape)?;
    Ok(Work::Handle(node, frame))
}

fn receive(alloc: Global, shape: Shape) -> Result<Work, Failure> {
    let whole = Message::Ack(whole(alloc, shape)?);
    Ok(Work::Receive(encode(alloc, &whole)?))
}

fn confirms(alloc: Global, callers: u32, rise: u32) -> Result<Work, Failure> {
    let receipts = receipts(alloc, callers, rise)?;
    Ok(Work::Confirms(beats(alloc, callers)?, receipts))
}

// The work of a task, with tables of this shape.
fn work_of(alloc: Global, task: Task, shape: Shape) -> Result<Work, Failure> {
    match task {
        Task::Copied => copied(alloc, shape),
        Task::Heartbeat => step(alloc, heartbeat(alloc, 7, 18, 21)?, shape),
        Task::Beat => step(alloc, Event::Beat, shape),
        Task::OwnBeats(count) => own_beats(alloc, count, shape),
        Task::Set => step(alloc, load(alloc)?, shape),
        Task::Remove => removal(alloc, shape),
        Task::Joins => Ok(Work::Claim(started(alloc, 0, 5)?, joins(alloc)?)),
        Task::SetStatus => Ok(Work::Claim(claimed(alloc)?, leaves(alloc)?)),
        Task::TakesStatus => Ok(Work::Claim(claimed(alloc)?, left(alloc)?)),
        Task::Beats(count) => beats_of_all(alloc, count, shape),
        Task::Links => links(alloc, shape),
        Task::Handles => handles(alloc, shape),
        Task::Receive => receive(alloc, shape),
        Task::Steps(count) => Ok(Work::Steps(events(alloc, shape, count)?)),
        Task::Records(count) => Ok(Work::Records(events(alloc, shape, count)?)),
        Task::Folded(count) => Ok(Work::Folded(events(alloc, shape, count)?)),
        Task::Confirms { callers, rise } => confirms(alloc, callers, rise),
        Task::Play(nodes, rounds) => Ok(Work::Play(script_of(alloc, nodes, rounds)?)),
        Task::Act(nodes, rounds) => {
            let script = script_of(alloc, nodes, rounds)?;
            Ok(Work::Act(actions_of(alloc, &script)?))
        }
    }
}

/// A case made ready.
pub(crate) fn case_of(alloc: Global, case: Case) -> Result<(CaseName, Work), Failure> {
    let (work, on, tag, task, shape) = case;
    Ok((CaseName { work, on, tag }, work_of(alloc, task, shape)?))
}
