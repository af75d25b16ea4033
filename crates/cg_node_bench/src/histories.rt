//! Stored histories: records made, beside the steps of the node alone, and receipts confirmed.

use crate::nodes::{after, begun, heartbeat, others, started};
use cg_core::{Event, Node, Reply};
use cg_history::{History, Receipt};
use cg_measure::{Failure, Shape};
use cg_testing::version;
use cg_types::Fault;
use std::alloc::{AllocError, Global};
use std::hint::black_box;

// The next heartbeat: those of the 255 other endpoints come in turn, again and again.
fn next(alloc: Global, number: u32) -> Result<Event, Failure> {
    let above = 18 + number / 255;
    heartbeat(alloc, 1 + (number % 255) as u16, above, above + 1)
}

/// The event of all that the others hold, and then `count` heartbeats.
pub(crate) fn events(alloc: Global, shape: Shape, count: u32) -> Result<Vec<Event>, Failure> {
    let mut events = Vec::new(alloc);
    events.push(others(alloc, shape)?)?;
    for number in 0..count {
        events.push(next(alloc, number)?)?;
    }
    Ok(events)
}

/// The node after these events, of which each is copied first.
pub(crate) fn stepped(alloc: Global, events: &[Event]) -> Result<Node, Failure> {
    let mut node = started(alloc, 0, 5)?;
    for event in events {
        let event = event.copy(alloc)?;
        node = after(alloc, &node, &event)?;
    }
    Ok(node)
}

// One more record, of whose receipt nothing is kept.
fn apply(alloc: Global, history: &mut History, caller: u32, event: Event) -> Result<(), Fault> {
    black_box(history.apply(alloc, caller, event)?);
    Ok(())
}

/// The history of these events, of which each is copied first.
pub(crate) fn recorded(alloc: Global, events: &[Event]) -> Result<History, Failure> {
    let mut history = begun(alloc)?;
    for event in events {
        apply(alloc, &mut history, 1, event.copy(alloc)?)?;
    }
    Ok(history)
}

/// The same history, of which a hundred records are folded whenever two hundred are kept.
pub(crate) fn folded(alloc: Global, events: &[Event]) -> Result<History, Failure> {
    let mut history = begun(alloc)?;
    for event in events {
        apply(alloc, &mut history, 1, event.copy(alloc)?)?;
        fold_from(alloc, &mut history, 200)?;
    }
    Ok(history)
}

// Folds all records but the last hundred if `full` are kept.
fn fold_from(alloc: Global, history: &mut History, full: usize) -> Result<(), AllocError> {
    let count = history.records().len();
    if count < full {
        return Ok(());
    }
    history.fold_front(alloc, count.saturating_sub(100))
}

// Applies the event of all that the others hold.
fn apply_others(alloc: Global, history: &mut History, shape: Shape) -> Result<(), Failure> {
    let others = others(alloc, shape)?;
    Ok(apply(alloc, history, 1, others)?)
}

// Applies the next heartbeat, and folds all records but the last hundred if `full` are kept.
fn apply_next(
    alloc: Global,
    history: &mut History,
    number: u32,
    full: usize,
) -> Result<(), Failure> {
    let heartbeat = next(alloc, number)?;
    apply(alloc, history, 1, heartbeat)?;
    Ok(fold_from(alloc, history, full)?)
}

/// The history of `count` heartbeats at a whole table, whose events are handed to it and not copied. All records but
/// the last hundred are folded whenever `full` are kept.
pub(crate) fn kept(
    alloc: Global,
    shape: Shape,
    count: u32,
    full: usize,
) -> Result<History, Failure> {
    let mut history = begun(alloc)?;
    apply_others(alloc, &mut history, shape)?;
    for number in 0..count {
        apply_next(alloc, &mut history, number, full)?;
    }
    Ok(history)
}

/// The numbers of folded records and of those that are kept. It has no clause, so who calls it is proved without the
/// replay of a history.
pub(crate) fn counts(history: &History) -> (u64, usize) {
    (history.folded(), history.records().len())
}

// The number of records that are confirmed.
const RECEIPTS: u32 = 100_000;

/// The history of a hundred thousand beats of `callers` callers, who beat in turn.
pub(crate) fn beats(alloc: Global, callers: u32) -> Result<History, Failure> {
    let mut history = begun(alloc)?;
    for number in 1..=RECEIPTS {
        let caller = number.checked_rem(callers).unwrap_or(0);
        apply(alloc, &mut history, caller, Event::Beat)?;
    }
    Ok(history)
}

// The receipt of a beat; the first beat has version 2.
fn receipt(number: u32, callers: u32) -> Receipt {
    Receipt {
        caller: number.checked_rem(callers).unwrap_or(0),
        number: u64::from(number),
        event: Event::Beat,
        reply: Reply::Done(version(number.wrapping_add(1))),
    }
}

// Adds the receipts whose numbers rise by `rise` from the first.
fn add_receipts(
    receipts: &mut Vec<Receipt>,
    first: u32,
    callers: u32,
    rise: u32,
) -> Result<(), AllocError> {
    let mut number = first;
    for _ in 0..RECEIPTS.checked_div(rise).unwrap_or(0) {
        receipts.push(receipt(number, callers))?;
        number = number.wrapping_add(rise);
    }
    Ok(())
}

/// The receipts of all beats, in runs whose numbers rise by `rise`.
pub(crate) fn receipts(alloc: Global, callers: u32, rise: u32) -> Result<Vec<Receipt>, AllocError> {
    let mut receipts = Vec::new(alloc);
    for first in 1..=rise {
        add_receipts(&mut receipts, first, callers, rise)?;
    }
    Ok(receipts)
}

/// The place of the first receipt that is not confirmed, if there is one.
pub(crate) fn unconfirmed(history: &History, receipts: &[Receipt]) -> Option<usize> {
    match history.confirms(receipts) {
        Ok(()) => None,
        Err(unconfirmed) => Some(unconfirmed.place),
    }
}
