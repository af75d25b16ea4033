//! Histories whose first records are folded: their base, the numbers that go on, and the receipts that they confirm.
//!
//! A is 10.0.0.1:7000 at generation 9. It sets key 1 to NORMAL for caller 1, which is record 1 and version 2, and beats
//! from then on.

use crate::histories::{applied, begun, fold};
use cg_core::{Event, Reply};
use cg_history::{History, Receipt};
use cg_testing::{A, expect_eq, key, version};
use cg_types::StateText;
use std::alloc::Global;
use std::test::Fail;

fn set(alloc: Global) -> Result<Event, Fail> {
    Ok(Event::Set {
        key: key(1),
        text: StateText::new(alloc, "NORMAL")?,
    })
}

// The history of three events.
fn three_events(alloc: Global) -> Result<History, Fail> {
    let mut history = begun(alloc, A, 9)?;
    applied(alloc, &mut history, 1, set(alloc)?)?;
    applied(alloc, &mut history, 1, Event::Beat)?;
    applied(alloc, &mut history, 1, Event::Beat)?;
    Ok(history)
}

// The same, and one fold after the other.
fn folded(alloc: Global, folds: &[usize]) -> Result<History, Fail> {
    let mut history = three_events(alloc)?;
    for n in folds {
        fold(alloc, &mut history, *n)?;
    }
    Ok(history)
}

// ---- the base and the numbers

// The newest version of the own entry at the base, the number of folded records, that of the kept ones, and the newest
// version of the own entry at the node.
type Shown = (u32, u64, usize, u32);

fn shown(history: &History) -> Shown {
    (
        history.base().table().own_entry().newest().get(),
        history.folded(),
        history.records().len(),
        history.node().table().own_entry().newest().get(),
    )
}

// The same, and the number of the next receipt.
fn numbered(alloc: Global, folds: &[usize]) -> Result<(Shown, u64), Fail> {
    let mut history = folded(alloc, folds)?;
    let shown = shown(&history);
    let next = applied(alloc, &mut history, 1, Event::Beat)?;
    Ok((shown, next.number))
}

const FOLDS: [(&[usize], Shown); 7] = [
    (&[], (1, 0, 3, 4)),
    (&[0], (1, 0, 3, 4)),
    (&[1], (2, 1, 2, 4)),
    (&[2], (3, 2, 1, 4)),
    (&[3], (4, 3, 0, 4)),
    // one fold after the other is both in one
    (&[1, 1], (3, 2, 1, 4)),
    (&[2, 1], (4, 3, 0, 4)),
];

#[test]
fn folds_keep_numbers(rt: HostRuntime) -> Result<(), Fail> {
    for (place, (folds, due)) in FOLDS.into_iter().enumerate() {
        let numbered = numbered(rt.alloc(), folds)?;
        expect_eq!(numbered, (due, 4), "row {place}")?;
    }
    Ok(())
}

// ---- receipts

// A receipt of a number, as it was made; one of another number is the last one's with that number.
fn receipt(alloc: Global, number: u64) -> Result<Receipt, Fail> {
    let at = if number == 2 { 3 } else { 4 };
    if number == 1 {
        return Ok(Receipt {
            caller: 1,
            number,
            event: set(alloc)?,
            reply: Reply::Done(version(2)),
        });
    }
    Ok(Receipt {
        caller: 1,
        number,
        event: Event::Beat,
        reply: Reply::Done(version(at)),
    })
}

fn receipts_of(alloc: Global, numbers: &[u64]) -> Result<Vec<Receipt>, Fail> {
    let mut receipts = Vec::new(alloc);
    for number in numbers {
        receipts.push(receipt(alloc, *number)?)?;
    }
    Ok(receipts)
}

// The place and the number of the fault of the first of these receipts that is not confirmed after a fold of two.
fn unconfirmed(alloc: Global, numbers: &[u64]) -> Result<Option<(usize, u8)>, Fail> {
    let receipts = receipts_of(alloc, numbers)?;
    let history = folded(alloc, &[2])?;
    match history.confirms(&receipts) {
        Ok(()) => Ok(None),
        Err(unconfirmed) => Ok(Some((unconfirmed.place, unconfirmed.fault.number()))),
    }
}

const UNCONFIRMED: [(&[u64], Option<(usize, u8)>); 7] = [
    (&[3], None),
    // folded: 18
    (&[1], Some((0, 18))),
    (&[2], Some((0, 18))),
    (&[3, 1], Some((1, 18))),
    // strangers: 16
    (&[0], Some((0, 16))),
    (&[7], Some((0, 16))),
    (&[3, 3], Some((1, 16))),
];

#[test]
fn folded_receipts_are_told_from_strangers(rt: HostRuntime) -> Result<(), Fail> {
    for (place, (numbers, due)) in UNCONFIRMED.into_iter().enumerate() {
        let unconfirmed = unconfirmed(rt.alloc(), numbers)?;
        expect_eq!(unconfirmed, due, "row {place}")?;
    }
    Ok(())
}
