//! Whole exchanges in a world: both nodes have to run, actions in between are kept, starts in between are found.

ghost use Rattle.std.specs.Prelude.{◌≡◌, IsTrue};
ghost use Rattle.std.specs.List.{list_any};
ghost use Rattle.cg_world.specs.World.{starts};
ghost use Rattle.cg_world.specs.Exchange.{NeverStarts};

use crate::scripts::{deliver, held_by, local, start, world_of};
use cg_testing::{A, B, endpoint, expect_eq};
use cg_types::{Endpoint, Fault};
use cg_world::{Action, LocalEvent, World, exchange_reaches_join};
use std::alloc::Global;
use std::test::Fail;

type Held = Option<(u32, u32)>;

// The entries of A and of B that A and B hold, and the number of messages that were sent.
type AllHeld = ([Held; 2], [Held; 2], u64);

fn all_held(world: &World) -> AllHeld {
    (
        [held_by(world, A, A), held_by(world, A, B)],
        [held_by(world, B, A), held_by(world, B, B)],
        world.message_count(),
    )
}

// Tests whether one of the actions starts the node of an endpoint.
fn any_starts(actions: &[Action], endpoint: Endpoint) -> bool
    ensures { result ≡ list_any (starts endpoint) actions.now }
{
    actions.iter().any(|action| action.starts(endpoint))
}

// Tests whether none of the actions starts one of two nodes.
fn starts_neither(actions: &[Action], one: Endpoint, other: Endpoint) -> bool
    ensures { IsTrue result → NeverStarts one actions.now × NeverStarts other actions.now }
{
    !any_starts(actions, one) && !any_starts(actions, other)
}

// The entries held after an exchange of A and B, with lists of actions before each message is handed over; `None` if
// these start one of the two.
fn exchanged(
    alloc: Global,
    world: World,
    first: &[Action],
    second: &[Action],
    third: &[Action],
) -> Result<Option<AllHeld>, Fault> {
    let (opener, answerer) = (endpoint(A), endpoint(B));
    if starts_neither(first, opener, answerer)
        && starts_neither(second, opener, answerer)
        && starts_neither(third, opener, answerer)
    {
        let between = [first, second, third];
        let after = exchange_reaches_join(alloc, world, opener, answerer, 1000, between)?;
        return Ok(Some(all_held(&after)));
    }
    Ok(None)
}

// A has started at 9, and B at 5.
fn two_nodes(alloc: Global) -> Result<World, Fail> {
    world_of(alloc, &[start(A, 9), start(B, 5)])
}

// Undisturbed, they end equal.
#[test]
fn both_have_to_run(rt: HostRuntime) -> Result<(), Fail> {
    let alone = world_of(rt.alloc(), &[start(A, 9)])?;
    let fault = exchanged(rt.alloc(), alone, &[], &[], &[]);
    let both = two_nodes(rt.alloc())?;
    let held = exchanged(rt.alloc(), both, &[], &[], &[]);
    let equal = [Some((9, 1)), Some((5, 1))];
    expect_eq!(
        (fault, held),
        (Err(Fault::NoSuchNode), Ok(Some((equal, equal, 3))))
    )
}

// A beats before the SYN is handed over, B before the ACK, and a message that was never sent is delivered to B, in
// vain.
#[test]
fn what_is_done_in_between_is_kept(rt: HostRuntime) -> Result<(), Fail> {
    let both = two_nodes(rt.alloc())?;
    let first = [local(A, LocalEvent::Beat), deliver(99, B, 1000)];
    let second = [local(B, LocalEvent::Beat)];
    let held = exchanged(rt.alloc(), both, &first, &second, &[]);
    let opener = [Some((9, 2)), Some((5, 1))];
    let answerer = [Some((9, 2)), Some((5, 2))];
    expect_eq!(held, Ok(Some((opener, answerer, 3))))
}

// A start between the messages is seen before anything is done.
#[test]
fn a_start_in_between_is_found(rt: HostRuntime) -> Result<(), Fail> {
    let both = two_nodes(rt.alloc())?;
    let third = [local(A, LocalEvent::Beat), start(B, 6)];
    let none = exchanged(rt.alloc(), both, &[], &[], &third);
    expect_eq!(none, Ok(None))
}
