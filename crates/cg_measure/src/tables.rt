//! Tables to measure with: endpoints whose entries have the same shape.

use crate::chance::Chance;
use crate::failure::Failure;
use cg_entry::{Delta, Entry, State};
use cg_table::Table;
use cg_testing::{endpoint, generation, key, version};
use cg_types::{Fault, StateText};
use std::alloc::Global;

/// The number of endpoints, of the states of an entry, and of the bytes of each state's text.
#[derive(Clone, Copy)]
pub struct Shape {
    pub owners: u16,
    pub states: u8,
    pub text: usize,
}

/// The contents of a table.
#[derive(Clone, Copy)]
pub enum Held {
    /// Endpoint 0 alone.
    Alone,
    /// All endpoints, as endpoint 0 holds them.
    Plain,
    /// The same, as endpoint 255 holds them.
    Other,
    /// As `Other`, with each heartbeat newer.
    Beats,
    /// As `Plain`, with the heartbeats of even numbers newer.
    EvenBeats,
    /// As `Other`, with the heartbeats of odd numbers newer.
    OddBeats,
    /// As `Other`, with the first state of each newer.
    FirstState,
}

/// All contents, in the order of their numbers.
pub const HELD: [Held; 7] = [
    Held::Alone,
    Held::Plain,
    Held::Other,
    Held::Beats,
    Held::EvenBeats,
    Held::OddBeats,
    Held::FirstState,
];

const HEARTBEAT: u32 = 18;

impl Held {
    fn own(self) -> u16 {
        match self {
            Held::Alone | Held::Plain | Held::EvenBeats => 0,
            Held::Other | Held::Beats | Held::OddBeats | Held::FirstState => 255,
        }
    }

    fn count(self, shape: Shape) -> u16 {
        match self {
            Held::Alone => 1,
            _ => shape.owners,
        }
    }

    fn heartbeat(self, number: u16) -> u32 {
        let newer = match self {
            Held::Beats => true,
            Held::EvenBeats => number % 2 == 0,
            Held::OddBeats => number % 2 == 1,
            Held::Alone | Held::Plain | Held::Other | Held::FirstState => false,
        };
        if newer { HEARTBEAT + 3 } else { HEARTBEAT }
    }

    fn version(self, number: u8) -> u32 {
        match self {
            Held::FirstState if number == 1 => HEARTBEAT + 1,
            _ => u32::from(number) + 1,
        }
    }
}

fn text(alloc: Global, chance: &mut Chance, length: usize) -> Result<StateText, Fault> {
    let mut text = String::with_capacity(alloc, length)?;
    for _ in 0..length {
        text.push(chance.printable())?;
    }
    StateText::new(alloc, &text)
}

// Makes the states of an endpoint.
fn states(alloc: Global, number: u16, held: Held, shape: Shape) -> Result<Vec<State>, Fault> {
    let mut chance = Chance::new(u64::from(number));
    let mut states = Vec::new(alloc);
    for state in 1..=shape.states {
        states.push(State {
            key: key(state),
            version: version(held.version(state)),
            text: Some(text(alloc, &mut chance, shape.text)?),
        })?;
    }
    Ok(states)
}

// Makes the whole entry of an endpoint.
fn whole(alloc: Global, number: u16, held: Held, shape: Shape) -> Result<Delta, Failure> {
    let states = states(alloc, number, held, shape)?;
    let heartbeat = version(held.heartbeat(number));
    Delta::new(generation(5), 0, heartbeat, states).ok_or(Failure::Lacking("a whole delta"))
}

fn entry(alloc: Global, whole: Option<&Delta>) -> Result<Entry, Failure> {
    let whole = whole.ok_or(Failure::Lacking("a delta of the own endpoint"))?;
    Entry::of_delta(alloc, whole)?.ok_or(Failure::Lacking("an entry"))
}

// Returns the table with a delta of an endpoint taken.
fn with(alloc: Global, table: &Table, number: u16, delta: &Delta) -> Result<Table, Fault> {
    let (after, _) = table.put_delta(alloc, endpoint(number), delta)?;
    Ok(after)
}

/// Makes the table of an endpoint that takes these deltas, each of the endpoint whose number is its place.
pub fn table_of(alloc: Global, own: u16, deltas: &[Delta]) -> Result<Table, Failure> {
    let entry = entry(alloc, deltas.get(usize::from(own)))?;
    let mut table = Table::new(alloc, endpoint(own), entry)?;
    let mut number: u16 = 0;
    for delta in deltas {
        table = with(alloc, &table, number, delta)?;
        number = number.wrapping_add(1);
    }
    Ok(table)
}

/// Makes the table with these contents, and entries of this shape.
pub fn table(alloc: Global, held: Held, shape: Shape) -> Result<Table, Failure> {
    let mut deltas = Vec::new(alloc);
    for number in 0..held.count(shape) {
        deltas.push(whole(alloc, number, held, shape)?)?;
    }
    table_of(alloc, held.own(), &deltas)
}
