//! Turns: a set, a restart and a join, and the rounds until each is at every node.

ghost use Rattle.std.specs.Prelude.{◌≢◌, ◌<◌};

use anyhow::{Result, bail};
use cg_core::{Event, Node};
use cg_entry::Entry;
use cg_fleet::{Chance, Fleet, all_have, hold_all, hold_equal};
use cg_types::{Endpoint, Fault, StateKey, StateText};
use rand_core::Rng;
use std::alloc::Global;

/// The rounds after which the program gives up.
pub(crate) const MOST_ROUNDS: u64 = 200;

// The key that is set.
const KEY: u8 = 3;

/// The rounds until each of a turn's changes was at every node, 0 of one that is not yet.
#[derive(Clone, Copy)]
pub(crate) struct Turn {
    pub set: u64,
    pub restart: u64,
    pub join: u64,
}

// The new entry of an owner, which spreads.
#[derive(Drop)]
struct Change {
    owner: Endpoint,
    entry: Entry,
}

// The changes of a turn.
#[derive(Drop)]
struct Changes {
    set: Change,
    restart: Change,
    join: Change,
}

// The own entry of the node of a place, as a change.
fn change_of(alloc: Global, nodes: &[Node], place: u16) -> Result<Change, Fault> {
    let Some(node) = nodes.get(usize::from(place)) else {
        return Err(Fault::NoSuchNode);
    };
    Ok(Change {
        owner: node.table().own(),
        entry: node.table().own_entry().copy(alloc)?,
    })
}

// Tests whether all nodes have a change.
fn have(nodes: &[Node], change: &Change) -> bool {
    all_have(nodes, change.owner, &change.entry)
}

// The round after which something was done: `before`, if it was by then, or this one, if it is now.
fn first(before: u64, round: u64, is_done: bool) -> u64 {
    if before == 0 && is_done {
        round
    } else {
        before
    }
}

// Two different numbers below `count`.
fn two_places<G: Rng + Drop>(chance: &mut Chance<G>, count: u16) -> (u16, u16)
    requires { 1 < count }
    ensures first { result.0 < count }
    ensures second { result.1 < count }
    ensures differ { result.0 ≢ result.1 }
{
    let first = chance.below(u64::from(count)) as u16;
    let second = chance.below(u64::from(count - 1)) as u16;
    if second < first {
        (first, second)
    } else {
        (first, second + 1)
    }
}

// The event that sets the key.
fn set(alloc: Global) -> Result<Event, Fault> {
    let Some(key) = StateKey::new(KEY) else {
        return Err(Fault::NoSuchKey);
    };
    Ok(Event::Set {
        key,
        text: StateText::new(alloc, "changed")?,
    })
}

// Has one node set a key, another restart and one more join.
fn changed<G: Rng + Drop>(
    alloc: Global,
    chance: &mut Chance<G>,
    fleet: &mut Fleet,
) -> Result<Changes, Fault> {
    let Ok(count) = u16::try_from(fleet.nodes().len()) else {
        return Err(Fault::TableFull);
    };
    if count < 2 {
        return Err(Fault::NoSuchNode);
    }
    let (setter, starter) = two_places(chance, count);
    fleet.step(alloc, setter, &set(alloc)?)?;
    fleet.restart(alloc, starter)?;
    fleet.join(alloc)?;
    Ok(Changes {
        set: change_of(alloc, fleet.nodes(), setter)?,
        restart: change_of(alloc, fleet.nodes(), starter)?,
        join: change_of(alloc, fleet.nodes(), count)?,
    })
}

// A turn after one more round.
fn after_round(turn: Turn, changes: &Changes, nodes: &[Node], round: u64) -> Turn {
    let is_whole = have(nodes, &changes.join) && hold_all(nodes);
    Turn {
        set: first(turn.set, round, have(nodes, &changes.set)),
        restart: first(turn.restart, round, have(nodes, &changes.restart)),
        join: first(turn.join, round, is_whole),
    }
}

/// Has one node of a fleet set a key, another restart and one more join. Then all do rounds until each of the three is at
/// every node; of the join, until each node holds every node, too.
pub(crate) fn taken<G: Rng + Drop>(
    alloc: Global,
    chance: &mut Chance<G>,
    fleet: &mut Fleet,
) -> Result<Turn> {
    let changes = changed(alloc, chance, fleet)?;
    let mut turn = Turn {
        set: 0,
        restart: 0,
        join: 0,
    };
    for round in 1..=MOST_ROUNDS {
        fleet.round(alloc, chance)?;
        turn = after_round(turn, &changes, fleet.nodes(), round);
        if turn.set > 0 && turn.restart > 0 && turn.join > 0 {
            return Ok(turn);
        }
    }
    bail!("a set, a restart and a join are not all at every node after {MOST_ROUNDS} rounds")
}

/// Has all nodes do rounds until each holds every node, and returns how many.
pub(crate) fn learn<G: Rng + Drop>(
    alloc: Global,
    chance: &mut Chance<G>,
    fleet: &mut Fleet,
) -> Result<u64> {
    for round in 1..=MOST_ROUNDS {
        fleet.round(alloc, chance)?;
        if hold_all(fleet.nodes()) {
            return Ok(round);
        }
    }
    bail!("not every node holds every node after {MOST_ROUNDS} rounds")
}

/// Has all nodes do rounds without beats until all hold the same, or for the most rounds, and returns how many.
pub(crate) fn settle<G: Rng + Drop>(
    alloc: Global,
    chance: &mut Chance<G>,
    fleet: &mut Fleet,
) -> Result<u64> {
    for round in 0..MOST_ROUNDS {
        if hold_equal(fleet.nodes()) {
            return Ok(round);
        }
        fleet.quiet_round(alloc, chance)?;
    }
    Ok(MOST_ROUNDS)
}
