//! The messages, nodes, merged tables and compared digests of a world, and runs that memory may end.

use crate::scripts::{act_all, answers, deliver, local, start, three_nodes};
use cg_messages::Message;
use cg_table::Table;
use cg_testing::{A, B, C, endpoint, expect, expect_eq, settings};
use cg_types::{Endpoint, Fault};
use cg_world::{Action, LocalEvent, Shown, World, equal_digests, merge_is_join};
use std::alloc::Global;
use std::test::Fail;

// The number of deltas in an ACK or ACK2, by the message's number, and the version that the first of them is above.
fn sent_above(world: &World, number: u64) -> Option<(usize, Option<u32>)> {
    let deltas = match world.message(number)? {
        Message::Syn(_) => return None,
        Message::Ack(ack) => ack.deltas(),
        Message::Ack2(ack2) => ack2.deltas(),
    };
    let above = match deltas.first() {
        Some(delta) => Some(delta.delta.above()),
        None => None,
    };
    Some((deltas.len(), above))
}

// The number of messages that were sent, and for each of four numbers `true` if a message has it.
fn messages(world: &World) -> (u64, [bool; 4]) {
    let are_there = [
        world.message(0).is_some(),
        world.message(1).is_some(),
        world.message(7).is_some(),
        world.message(8).is_some(),
    ];
    (world.message_count(), are_there)
}

// Tests whether these three nodes run and no others.
fn are_running(alloc: Global, world: &World) -> Result<bool, Fail> {
    let endpoints = world.endpoints(alloc)?;
    Ok(endpoints.as_slice() == [endpoint(A), endpoint(B), endpoint(C)].as_slice())
}

#[test]
fn what_was_sent_and_who_runs(rt: HostRuntime) -> Result<(), Fail> {
    let world = three_nodes(rt.alloc())?;
    let running = are_running(rt.alloc(), &world)?;
    let above = [
        sent_above(&world, 5),
        sent_above(&world, 6),
        sent_above(&world, 7),
    ];
    expect_eq!(
        (
            messages(&world),
            above,
            (world.settings().cluster().name(), running)
        ),
        (
            (7, [false, true, true, false]),
            [Some((1, Some(2))), Some((0, None)), Some((0, None))],
            ("c1", true)
        )
    )
}

// B restarts, and older messages come to it once more: the first of them is a gap.
#[test]
fn what_is_shown_is_copied(rt: HostRuntime) -> Result<(), Fail> {
    let mut world = three_nodes(rt.alloc())?;
    let actions = [
        start(B, 6),
        deliver(5, B, 3000),
        deliver(3, B, 3000),
        deliver(5, B, 3100),
        deliver(3, B, 3200),
    ];
    expect!(act_all(rt.alloc(), &mut world, &actions)?)
}

// The newest version that a table holds of an endpoint.
fn newest(table: &Table, of: u16) -> Option<u32> {
    Some(table.get(endpoint(of))?.newest().get())
}

// The owner of the merge of three tables, and the newest versions that it holds of the three.
fn merged(alloc: Global, world: &World) -> Result<(Endpoint, [Option<u32>; 3]), Fault> {
    let table = merge_is_join(alloc, world, endpoint(A), endpoint(B), endpoint(C))?;
    let held = [newest(&table, A), newest(&table, B), newest(&table, C)];
    Ok((table.own(), held))
}

// Comparisons of the digests of two nodes, of a node with itself, and with a node that does not run.
fn compared(world: &World) -> [Result<bool, Fault>; 3] {
    [
        equal_digests(world, endpoint(A), endpoint(B)),
        equal_digests(world, endpoint(A), endpoint(A)),
        equal_digests(world, endpoint(A), endpoint(4)),
    ]
}

#[test]
fn tables_merged_and_digests_compared(rt: HostRuntime) -> Result<(), Fail> {
    let world = three_nodes(rt.alloc())?;
    expect_eq!(
        (merged(rt.alloc(), &world), compared(&world)),
        (
            Ok((endpoint(A), [Some(3), Some(1), Some(1)])),
            [Ok(false), Ok(true), Err(Fault::NoSuchNode)]
        )
    )
}

// The number of nodes, of three, that run.
fn running(world: &World) -> usize {
    [A, B, C]
        .iter()
        .filter(|node| world.node(endpoint(**node)).is_some())
        .count()
}

// Tests whether `starts` starts were done, or memory ended their run and the nodes that started before run.
fn is_kept(world: &World, answers: &[Result<Shown, Fault>], starts: usize) -> bool {
    let done = answers.iter().filter(|answer| answer.is_ok()).count();
    let whole = done == starts || matches!(answers.last(), Some(Err(Fault::OutOfMemory)));
    whole && running(world) == done
}

fn is_kept_by_run(alloc: Global, starts: &[Action]) -> Result<bool, Fail> {
    let (world, answers) = World::run(alloc, settings(alloc)?, starts)?;
    Ok(is_kept(&world, &answers, starts.len()))
}

// A list with room for the answers is at hand, so memory can't take the world away.
fn is_kept_by_run_in(alloc: Global, starts: &[Action]) -> Result<bool, Fail> {
    let set_to = settings(alloc)?;
    let room = Vec::with_capacity(alloc, starts.len())?;
    let (world, answers) = World::run_in(alloc, set_to, starts, room);
    Ok(is_kept(&world, &answers, starts.len()))
}

#[test]
fn a_run_keeps_what_was_done(rt: HostRuntime) -> Result<(), Fail> {
    expect!(is_kept_by_run(rt.alloc(), &[])?)?;
    let starts = [start(A, 9), start(B, 5), start(C, 4)];
    let kept = (
        is_kept_by_run(rt.alloc(), &starts)?,
        is_kept_by_run_in(rt.alloc(), &starts)?,
    );
    expect_eq!(kept, (true, true))
}

// The number of the message that an action sent, or the fault by which it was refused.
fn sent_by(answer: &Result<Shown, Fault>) -> Result<Option<u64>, Fault> {
    match answer {
        Ok(shown) => Ok(shown.sent),
        Err(fault) => Err(*fault),
    }
}

fn expect_sent(
    answers: &[Result<Shown, Fault>],
    due: [Result<Option<u64>, Fault>; 6],
) -> Result<(), Fail> {
    expect_eq!(answers.len(), due.len())?;
    for (answer, due) in answers.iter().zip(due) {
        expect_eq!(sent_by(answer), due)?;
    }
    Ok(())
}

#[test]
fn a_run_tells_what_each_action_sent(rt: HostRuntime) -> Result<(), Fail> {
    let actions = [
        start(A, 9),
        local(A, LocalEvent::Opening),
        start(A, 9),
        start(B, 5),
        deliver(1, B, 1000),
        deliver(99, B, 1000),
    ];
    let answers = answers(rt.alloc(), &actions)?;
    let due = [
        Ok(None),
        Ok(Some(1)),
        Err(Fault::NotRising),
        Ok(None),
        Ok(Some(2)),
        Err(Fault::NoSuchMessage),
    ];
    expect_sent(&answers, due)
}
