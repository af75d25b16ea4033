//! Keys that are removed in a world: what is told, what is refused, and the tombstone at the node that takes it.
//!
//! A is at generation 9, and B at 5. A sets key 2 to a token, version 2, and key 1 to NORMAL, version 3, and removes key
//! 1, version 4.

use crate::scripts::{act_all, answers, deliver, local, remove, set, set_status, start, world_of};
use cg_core::{Node, Reply};
use cg_messages::Message;
use cg_testing::{A, B, endpoint, expect_eq, key};
use cg_types::Fault;
use cg_world::{LocalEvent, Shown, World, equal_digests};
use std::alloc::Global;
use std::test::Fail;

const TOKEN: &str = "0cc175b9c0f1b6a831c399e269772661";

// The version that an action was given, 0 if it was given none, or the fault by which it was refused.
fn told(answer: &Result<Shown, Fault>) -> Result<u32, Fault> {
    let shown = match answer {
        Ok(shown) => shown,
        Err(fault) => return Err(*fault),
    };
    match &shown.reply {
        Some(Reply::Done(version)) => Ok(version.get()),
        _ => Ok(0),
    }
}

fn expect_told(
    answers: &[Result<Shown, Fault>],
    due: [Result<u32, Fault>; 11],
) -> Result<(), Fail> {
    expect_eq!(answers.len(), due.len())?;
    for (answer, due) in answers.iter().zip(due) {
        expect_eq!(told(answer), due)?;
    }
    Ok(())
}

// The empty text can be removed; a restart leaves nothing that could be.
#[test]
fn a_removal_is_told_or_refused(rt: HostRuntime) -> Result<(), Fail> {
    let tokens = set(rt.alloc(), A, 2, TOKEN)?;
    let status = set_status(rt.alloc(), A)?;
    let empty = set(rt.alloc(), A, 1, "")?;
    let actions = [
        start(A, 9),
        remove(A, 1),
        tokens,
        status,
        remove(A, 1),
        remove(A, 1),
        remove(B, 1),
        empty,
        remove(A, 1),
        start(A, 10),
        remove(A, 2),
    ];
    let answers = answers(rt.alloc(), &actions)?;
    let due = [
        Ok(0),
        Err(Fault::NoSuchKey),
        Ok(2),
        Ok(3),
        Ok(4),
        Err(Fault::NoSuchKey),
        Err(Fault::NoSuchNode),
        Ok(5),
        Ok(6),
        Ok(0),
        Err(Fault::NoSuchKey),
    ];
    expect_told(&answers, due)
}

// A world in which B holds what A set.
fn settled(alloc: Global) -> Result<World, Fail> {
    let tokens = set(alloc, A, 2, TOKEN)?;
    let status = set_status(alloc, A)?;
    let actions = [
        start(A, 9),
        start(B, 5),
        tokens,
        status,
        local(A, LocalEvent::Opening),
        deliver(1, B, 1000),
        deliver(2, A, 1000),
        deliver(3, B, 1000),
    ];
    world_of(alloc, &actions)
}

// Of A's entry at a node: the newest version, that of key 1 with `true` if it has a text, and the positions of the ring.
type Held = (u32, Option<(u32, bool)>, usize);

fn held(node: &Node) -> Option<Held> {
    let entry = node.table().get(endpoint(A))?;
    let status = match entry.state(key(1)) {
        Some((text, version)) => Some((version.get(), text.is_some())),
        None => None,
    };
    Some((entry.newest().get(), status, node.ring().positions().len()))
}

// What B holds of A, and whether A and B have equal digests.
fn seen(world: &World) -> (Option<Held>, Result<bool, Fault>) {
    let of_b = match world.node(endpoint(B)) {
        Some(node) => held(node),
        None => None,
    };
    (of_b, equal_digests(world, endpoint(A), endpoint(B)))
}

// Of the one delta of an ACK2: the version that it is above, and the number of its states.
fn sent(world: &World, number: u64) -> Option<(u32, usize)> {
    let Message::Ack2(ack2) = world.message(number)? else {
        return None;
    };
    match ack2.deltas().first() {
        Some(owned) => Some((owned.delta.above(), owned.delta.count())),
        None => None,
    }
}

// What is seen before the removal, after it, and once B took the tombstone; and the delta that had it.
type Removed = (
    [(Option<Held>, Result<bool, Fault>); 3],
    Option<(u32, usize)>,
);

fn removed(alloc: Global) -> Result<Removed, Fail> {
    let mut world = settled(alloc)?;
    let first = seen(&world);
    act_all(alloc, &mut world, &[remove(A, 1)])?;
    let second = seen(&world);
    let exchange = [
        local(A, LocalEvent::Opening),
        deliver(4, B, 2000),
        deliver(5, A, 2000),
        deliver(6, B, 2000),
    ];
    act_all(alloc, &mut world, &exchange)?;
    Ok(([first, second, seen(&world)], sent(&world, 6)))
}

#[test]
fn a_tombstone_goes_to_another_node(rt: HostRuntime) -> Result<(), Fail> {
    let text = Some((3, Some((3, true)), 1));
    let tombstone = Some((4, Some((4, false)), 0));
    let due = [(text, Ok(true)), (text, Ok(false)), (tombstone, Ok(true))];
    expect_eq!(removed(rt.alloc())?, (due, Some((3, 1))))
}
