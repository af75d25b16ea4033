//! Copies of actions, the node that a start starts, and the fault that reports want of memory.
//!
//! Each call is tried once, with ample memory.

use crate::scripts::{deliver, local, set_status, start};
use cg_testing::{A, B, endpoint, expect_eq, key};
use cg_types::Fault;
use cg_world::{Action, LocalEvent, is_out_of_memory};
use std::alloc::Global;
use std::test::Fail;

// Tests whether the copy of an action is shown as the action is.
fn is_copied(alloc: Global, action: Action) -> Result<bool, Fail> {
    let copy = action.copy()?;
    Ok(format!(in alloc; "{copy:?}")? == format!(in alloc; "{action:?}")?)
}

#[test]
fn actions_are_copied(rt: HostRuntime) -> Result<(), Fail> {
    let tick = LocalEvent::Tick {
        now: 5,
        words: [7, 3, 5, 9],
    };
    let copied = [
        is_copied(rt.alloc(), local(A, tick))?,
        is_copied(rt.alloc(), start(A, 9))?,
        is_copied(rt.alloc(), deliver(3, A, 5))?,
        is_copied(rt.alloc(), local(A, LocalEvent::Beat))?,
        is_copied(rt.alloc(), local(A, LocalEvent::Opening))?,
        is_copied(rt.alloc(), local(A, LocalEvent::Remove(key(1))))?,
        is_copied(rt.alloc(), set_status(rt.alloc(), A)?)?,
    ];
    expect_eq!(copied, [true; 7])
}

#[test]
fn a_start_starts_its_own_node() -> Result<(), Fail> {
    let by_start = (
        start(A, 9).starts(endpoint(A)),
        start(A, 9).starts(endpoint(B)),
    );
    let by_others = (
        local(A, LocalEvent::Opening).starts(endpoint(A)),
        deliver(1, A, 5).starts(endpoint(A)),
    );
    expect_eq!((by_start, by_others), ((true, false), (false, false)))
}

#[test]
fn want_of_memory_is_told() -> Result<(), Fail> {
    let (none, short) = (Err(Fault::NotRising), Err(Fault::OutOfMemory));
    expect_eq!(
        (is_out_of_memory(&none), is_out_of_memory(&short)),
        (false, true)
    )
}
