//! The worlds, nodes, histories and events that the cases begin with.

ghost use Rattle.std.specs.Prelude.{◌≡◌, [], IfOk};

use cg_core::{Event, Node};
use cg_entry::Delta;
use cg_history::History;
use cg_messages::{Ack2, Message, OwnerDelta};
use cg_sim::{Line, read_line};
use cg_testing::{A, endpoint, generation, key, settings, version};
use cg_types::{Fault, StateText};
use cg_world::{Action, World};
use std::alloc::Global;

/// The kinds of events.
#[derive(Clone, Copy)]
pub(crate) enum Kind {
    Beat,
    Set,
    Remove,
    Tick,
    Opening,
    Syn,
    Ack,
    Ack2,
}

// A script after which the node of 10.0.0.1:7000 has three owners, windows of two of them, and a ring. Of its messages,
// three are still to come to this node.
const SCRIPT: [&str; 29] = [
    "start 10.0.0.1:7000 9",
    "start 10.0.0.2:7000 5",
    "start 10.0.0.3:7000 7",
    "set 10.0.0.1:7000 1 NORMAL",
    "set 10.0.0.1:7000 2 00000000000000000000000000000010",
    "set 10.0.0.2:7000 1 NORMAL",
    "set 10.0.0.2:7000 2 00000000000000000000000000000020",
    "set 10.0.0.3:7000 1 NORMAL",
    "set 10.0.0.3:7000 2 00000000000000000000000000000030",
    "open 10.0.0.3:7000",
    "deliver 1 10.0.0.2:7000 1000",
    "deliver 2 10.0.0.3:7000 1000",
    "deliver 3 10.0.0.2:7000 1000",
    "open 10.0.0.1:7000",
    "deliver 4 10.0.0.2:7000 1000",
    "deliver 5 10.0.0.1:7000 1000",
    "deliver 6 10.0.0.2:7000 1000",
    "beat 10.0.0.2:7000",
    "open 10.0.0.1:7000",
    "deliver 7 10.0.0.2:7000 2000",
    "deliver 8 10.0.0.1:7000 2000",
    "deliver 9 10.0.0.2:7000 2000",
    "set 10.0.0.2:7000 3 x",
    "beat 10.0.0.1:7000",
    "open 10.0.0.1:7000",
    "deliver 10 10.0.0.2:7000 3000",
    "open 10.0.0.2:7000",
    "deliver 12 10.0.0.1:7000 3000",
    "deliver 13 10.0.0.2:7000 3000",
];

// The messages to come: a SYN, an ACK with one delta and one request, and an ACK2 with one delta.
const SYN: u64 = 12;

const ACK: u64 = 11;

const ACK2: u64 = 14;

// The ACKs that came before, with the entries of two owners, and with a beat of one.
const EARLIER: [(u64, u64); 2] = [(5, 1000), (8, 2000)];

// The time at which the messages come, in milliseconds.
const NOW: u64 = 3_000;

const WORDS: [u64; 4] = [7, 3, 5, 9];

// Reads a line. As `applied`, it has no clause.
fn read(alloc: Global, line: &str) -> Result<Line, Fault> {
    read_line(alloc, line.as_bytes())
}

/// Reads the action of a line.
pub(crate) fn action(alloc: Global, line: &str) -> Result<Action, Fault> {
    match read(alloc, line)? {
        Line::Act(action) => Ok(action),
        _ => Err(Fault::BadText),
    }
}

/// Returns the world after the script.
pub(crate) fn world(alloc: Global) -> Result<World, Fault> {
    let mut world = World::new(alloc, settings(alloc)?);
    for line in SCRIPT {
        let action = action(alloc, line)?;
        world.act(alloc, &action)?;
    }
    Ok(world)
}

/// Returns a node of a world.
pub(crate) fn node_in(world: &World) -> Result<Node, Fault> {
    let Some(node) = world.node(endpoint(A)) else {
        return Err(Fault::NoSuchNode);
    };
    Ok(node.copy()?)
}

// Returns the event of a message that comes at a time.
fn arriving(alloc: Global, world: &World, number: u64, now: u64) -> Result<Event, Fault> {
    let Some(message) = world.message(number) else {
        return Err(Fault::NoSuchMessage);
    };
    Ok(match message.copy(alloc)? {
        Message::Syn(m) => Event::Syn { m },
        Message::Ack(m) => Event::Ack { now, m },
        Message::Ack2(m) => Event::Ack2 { now, m },
    })
}

/// Returns a Set of a key, the number of which is given.
pub(crate) fn set(alloc: Global, number: u8, text: &str) -> Result<Event, Fault> {
    let text = StateText::new(alloc, text)?;
    Ok(Event::Set {
        key: key(number),
        text,
    })
}

/// A change of a key.
#[derive(Clone, Copy)]
pub(crate) enum Change {
    Set,
    Remove,
}

/// Returns a change of key 3: a Set to a text, or a Remove.
pub(crate) fn changing(alloc: Global, change: Change, text: &str) -> Result<Event, Fault> {
    match change {
        Change::Set => set(alloc, 3, text),
        Change::Remove => Ok(Event::Remove { key: key(3) }),
    }
}

/// Returns the event of a kind. The Set and the Remove are of the tokens, and the messages are those of a world that are
/// still to come.
pub(crate) fn event(alloc: Global, world: &World, kind: Kind) -> Result<Event, Fault> {
    match kind {
        Kind::Beat => Ok(Event::Beat),
        Kind::Set => set(alloc, 2, "00000000000000000000000000000040"),
        Kind::Remove => Ok(Event::Remove { key: key(2) }),
        Kind::Tick => Ok(Event::Tick {
            now: NOW,
            words: WORDS,
        }),
        Kind::Opening => Ok(Event::Opening),
        Kind::Syn => arriving(alloc, world, SYN, NOW),
        Kind::Ack => arriving(alloc, world, ACK, NOW),
        Kind::Ack2 => arriving(alloc, world, ACK2, NOW),
    }
}

// The greatest number of the other owners: over 32, so that their windows lie in two chunks.
const MANY: u16 = 34;

// The rounds after which the tail of the last owner's window is full.
const ROUNDS: u32 = 16;

// Returns the heartbeats of the owners from a number on in a round.
fn heartbeats(alloc: Global, from: u16, round: u32) -> Result<Vec<OwnerDelta>, Fault> {
    let mut deltas = Vec::new(alloc);
    for number in from..=MANY {
        let at = version(round.saturating_add(1));
        let Some(delta) = Delta::bare(alloc, generation(5), round, at) else {
            return Err(Fault::BadText);
        };
        deltas.push(OwnerDelta {
            endpoint: endpoint(number),
            delta,
        })?;
    }
    Ok(deltas)
}

// Returns the event of a round, each a second after the one before: in the first all other owners are heard, and then the
// last one alone.
fn heard(alloc: Global, round: u32) -> Result<Event, Fault> {
    let from = if round == 0 { 2 } else { MANY };
    let Some(m) = Ack2::new(heartbeats(alloc, from, round)?) else {
        return Err(Fault::BadText);
    };
    let now = u64::from(round) * 1000 + 1000;
    Ok(Event::Ack2 { now, m })
}

/// Returns a node of many owners, of which the last one's window has a full tail, and the event of its next heartbeat.
pub(crate) fn full_node(alloc: Global) -> Result<(Node, Event), Fault> {
    let mut node = Node::start(alloc, endpoint(A), generation(9), settings(alloc)?)?;
    for round in 0..ROUNDS {
        node.step(alloc, &heard(alloc, round)?)?;
    }
    Ok((node, heard(alloc, ROUNDS)?))
}

/// Returns the history of a node that started.
pub(crate) fn new_history(alloc: Global) -> Result<History, Fault>
    ensures { IfOk result (λ h. (h.records ≡ []) × (h.folded ≡ 0)) }
{
    let settings = settings(alloc)?;
    Ok(History::begin(alloc, endpoint(A), generation(9), settings)?)
}

/// Applies an event to a history. It has no clause, so who calls it again and again is proved without its records.
pub(crate) fn applied(
    alloc: Global,
    history: &mut History,
    caller: u32,
    event: Event,
) -> Result<(), Fault> {
    history.apply(alloc, caller, event)?;
    Ok(())
}

/// Returns a history of two records: the ACKs that came earlier in a world.
pub(crate) fn history(alloc: Global, world: &World) -> Result<History, Fault> {
    let mut history = new_history(alloc)?;
    for (number, now) in EARLIER {
        let event = arriving(alloc, world, number, now)?;
        applied(alloc, &mut history, 1, event)?;
    }
    Ok(history)
}
