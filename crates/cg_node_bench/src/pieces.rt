//! A table whose states came one by one, each in a message of its own.

use cg_entry::{Delta, State};
use cg_exchange::take_ack2;
use cg_frames::{decode, encode};
use cg_measure::{Failure, Held, Shape, table};
use cg_messages::{Ack2, Message, OwnerDelta};
use cg_table::Table;
use cg_testing::{endpoint, generation, state, version};
use std::alloc::Global;

const TEXT: &str = "0123456789012345678901234567890123456789012345678901234567890123";

const ALONE: Shape = Shape {
    owners: 1,
    states: 1,
    text: 64,
};

fn states_of_one(alloc: Global, number: u8) -> Result<Vec<State>, Failure> {
    let state = state(alloc, number, u32::from(number) + 1, TEXT)?;
    let mut states = Vec::new(alloc);
    states.push(state)?;
    Ok(states)
}

// A delta that brings one state, newer than those that came before.
fn piece(alloc: Global, number: u8) -> Result<Delta, Failure> {
    let states = states_of_one(alloc, number)?;
    let above = if number == 1 { 0 } else { u32::from(number) };
    Delta::new(generation(5), above, version(1), states).ok_or(Failure::Lacking("a delta"))
}

// The message of an owner's state, as it is read from a frame.
fn message(alloc: Global, owner: u16, number: u8) -> Result<Message, Failure> {
    let mut deltas = Vec::new(alloc);
    deltas.push(OwnerDelta {
        endpoint: endpoint(owner),
        delta: piece(alloc, number)?,
    })?;
    let ack2 = Ack2::new(deltas).ok_or(Failure::Lacking("an ACK2"))?;
    let frame = encode(alloc, &Message::Ack2(ack2))?;
    match decode(alloc, frame.as_slice())? {
        Some((message, _)) => Ok(message),
        None => Err(Failure::Lacking("a whole frame")),
    }
}

// The table after an owner's state came.
fn with(alloc: Global, held: &Table, owner: u16, number: u8) -> Result<Table, Failure> {
    match message(alloc, owner, number)? {
        Message::Ack2(ack2) => {
            let (after, _) = take_ack2(alloc, held, &ack2)?;
            Ok(after)
        }
        Message::Syn(_) | Message::Ack(_) => Err(Failure::Lacking("an ACK2")),
    }
}

// The table after this state of each owner came.
fn with_each(alloc: Global, held: Table, owners: u16, number: u8) -> Result<Table, Failure> {
    let mut after = held;
    for owner in 1..owners {
        after = with(alloc, &after, owner, number)?;
    }
    Ok(after)
}

/// The table of so many endpoints, of each of which but the own one sixteen states came so.
pub(crate) fn in_pieces(alloc: Global, owners: u16) -> Result<Table, Failure> {
    let mut after = table(alloc, Held::Alone, ALONE)?;
    for number in 1..=16 {
        after = with_each(alloc, after, owners, number)?;
    }
    Ok(after)
}
