//! The channel of rounds in one thread: rounds taken in their order, one handed back, and room for 16.

use crate::numbered::{round, shown};
use cg_testing::expect_eq;
use cg_workers::laws::room_has_its_value;
use cg_workers::{ROOM, rounds};
use std::alloc::Global;
use std::sync::Wait;
use std::test::Fail;

// The rounds taken of two and at the channel's end, and `true` if both were put in.
fn two_taken<R: Wait>(rt: &R, alloc: Global) -> Result<([(u64, u16); 3], bool), Fail> {
    let (first, second) = (round(alloc, 5)?, round(alloc, 9)?);
    let (mut putting, mut taking) = rounds(alloc)?;
    let is_first = putting.put(rt, first).is_ok();
    let is_second = putting.put(rt, second).is_ok();
    putting.end(rt);
    let one = shown(taking.take(rt));
    let other = shown(taking.take(rt));
    let none = shown(taking.take(rt));
    let taken = taking.leave();
    putting.compare(taken);
    Ok(([one, other, none], is_first && is_second))
}

#[test]
fn rounds_are_taken_in_their_order(rt: HostRuntime) -> Result<(), Fail> {
    let taken = two_taken(&rt, rt.alloc())?;
    expect_eq!(taken, ([(5, 5), (9, 9), (0, 0)], true))
}

// The round that is handed back if it is put in after the taker left.
fn handed_back<R: Wait>(rt: &R, alloc: Global) -> Result<(u64, u16), Fail> {
    let late = round(alloc, 7)?;
    let (mut putting, taking) = rounds(alloc)?;
    let taken = taking.leave();
    let back = putting.put(rt, late).err();
    putting.compare(taken);
    Ok(shown(back))
}

#[test]
fn a_round_that_nobody_takes_is_handed_back(rt: HostRuntime) -> Result<(), Fail> {
    let back = handed_back(&rt, rt.alloc())?;
    expect_eq!(back, (7, 7))
}

// The number of rounds, of `count`, that went in before any was taken, and of those that came out in their order.
fn held<R: Wait>(rt: &R, alloc: Global, count: u16) -> Result<(u16, u16), Fail> {
    let (mut putting, mut taking) = rounds(alloc)?;
    let mut put = 0u16;
    for number in 1..=count {
        let next = round(alloc, number)?;
        if putting.put(rt, next).is_ok() {
            put = put.saturating_add(1);
        }
    }
    let mut taken = 0u16;
    for number in 1..=count {
        if shown(taking.take(rt)) == (u64::from(number), number) {
            taken = taken.saturating_add(1);
        }
    }
    Ok((put, taken))
}

#[test]
fn sixteen_rounds_wait_for_nobody(rt: HostRuntime) -> Result<(), Fail> {
    room_has_its_value();
    let counts = held(&rt, rt.alloc(), 16)?;
    expect_eq!(counts, (16, 16))?;
    expect_eq!(ROOM, 16)
}
