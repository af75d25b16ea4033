//! Rounds that one thread puts in and another takes: all of them, and until the taker leaves.

use crate::numbered::{round, shown};
use cg_testing::{expect, expect_eq};
use cg_workers::{Putting, Taking, rounds};
use std::alloc::Global;
use std::sync::Wait;
use std::test::Fail;
use std::thread::{Threads, join};

// Puts in the rounds of the numbers from 1 on, and reports that no more come.
fn put_all<R: Wait>(rt: &R, alloc: Global, putting: Putting, count: u16) -> Result<u16, Fail> {
    let mut putting = putting;
    let mut put = 0u16;
    for number in 1..=count {
        let next = round(alloc, number)?;
        if putting.put(rt, next).is_ok() {
            put = put.saturating_add(1);
        }
    }
    putting.end(rt);
    Ok(put)
}

// Takes at most `most` rounds, and counts those that come in their order.
fn take_all<R: Wait>(rt: &R, taking: Taking, most: u16) -> u16 {
    let mut taking = taking;
    let mut taken = 0u16;
    for number in 1..=most {
        if shown(taking.take(rt)) == (u64::from(number), number) {
            taken = taken.saturating_add(1);
        }
    }
    taken
}

// The number of rounds that one thread put in, and of those that another took in their order.
fn relayed<R: Threads + Wait + Sync>(
    rt: &R,
    alloc: Global,
    count: u16,
    most: u16,
) -> Result<(u16, u16), Fail> {
    let (putting, taking) = rounds(alloc)?;
    let (put, taken) = join(
        rt,
        move || -> Result<u16, Fail> { put_all(rt, alloc, putting, count) },
        move || -> u16 { take_all(rt, taking, most) },
    );
    Ok((put?, taken))
}

#[test]
fn all_rounds_reach_another_thread(rt: HostRuntime) -> Result<(), Fail> {
    let all = relayed(&rt, rt.alloc(), 1000, 1000)?;
    expect_eq!(all, (1000, 1000))?;
    let fewer = relayed(&rt, rt.alloc(), 40, 50)?;
    expect_eq!(fewer, (40, 40))
}

#[test]
fn rounds_are_handed_back_once_the_taker_left(rt: HostRuntime) -> Result<(), Fail> {
    let (put, taken) = relayed(&rt, rt.alloc(), 1000, 100)?;
    expect_eq!(taken, 100)?;
    expect!(put < 1000)
}
