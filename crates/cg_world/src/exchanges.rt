//! A whole exchange between two nodes of a world, as a call.

ghost use Rattle.std.specs.Prelude.{◌≡◌, IfOk, IfErr, OnOk, map};
ghost use Rattle.cg_types.specs.declared.fault.Fault.TheVariants as faults;
ghost use Rattle.cg_types.specs.Answer.{Answers};
ghost use Rattle.cg_world.specs.World as spec;
ghost use Rattle.cg_world.specs.World.{run_from};
ghost use Rattle.cg_places.specs.Exchange.{after_last_delivery};
ghost use Rattle.cg_world.specs.Exchange.{by_nodes, exchange_among, exchanging, JoinsBoth, StartsNeither};

use crate::action::{Action, LocalEvent};
use crate::world::{World, is_out_of_memory};
use cg_types::{Endpoint, Fault};
use std::alloc::Global;

// Does an action. A refused one changes nothing, but OutOfMemory ends the call.
fn act(alloc: Global, world: &mut World, action: &Action) -> Result<(), Fault>
    ensures ok { OnOk result (world.new ≡ spec.act world.old action.now) }
    ensures err { IfErr result (λ f. f ≡ faults.OutOfMemory) }
{
    let answer = world.act(alloc, action);
    if is_out_of_memory(&answer) {
        return Err(Fault::OutOfMemory);
    }
    Ok(())
}

// Does each of a list of actions.
fn act_all(alloc: Global, world: &mut World, actions: &[Action]) -> Result<(), Fault>
    ensures ok { OnOk result (world.new ≡ run_from world.old actions.now) }
    ensures err { IfErr result (λ f. f ≡ faults.OutOfMemory) }
{
    for action in actions {
        act(alloc, world, action)?;
    }
    Ok(())
}

// Hands the message that was sent last to a node, after some actions.
fn hand_last(
    alloc: Global,
    world: &mut World,
    between: &[Action],
    to: Endpoint,
    now: u64,
) -> Result<(), Fault>
    ensures ok { OnOk result (world.new ≡ after_last_delivery by_nodes world.old between.now to now) }
    ensures err { IfErr result (λ f. f ≡ faults.OutOfMemory) }
{
    let number = world.message_count();
    act_all(alloc, world, between)?;
    act(alloc, world, &Action::Deliver { number, to, now })
}

/// Runs a whole exchange between two nodes of a world, after which both hold what the two held, or later entries.
///
/// The steps are these:
/// - the opener's opening, and the first list of actions;
/// - its SYN handed to the answerer, and the second list;
/// - the ACK handed to the opener, and the third list;
/// - the ACK2 handed to the answerer.
///
/// Each message is handed over at the time `now`. An action of the lists that is refused changes nothing. None of them
/// may start one of the two (`Action::starts`).
///
/// In the world that is returned, both hold what the opener held when it opened and the answerer when it answered, or
/// later entries. With three empty lists both hold the same. `NoSuchNode` if one of the two does not run, before
/// anything is done; else at most `OutOfMemory`.
pub fn exchange_reaches_join(
    alloc: Global,
    mut world: World,
    opener: Endpoint,
    answerer: Endpoint,
    now: u64,
    between: [&[Action]; 3],
) -> Result<World, Fault>
    requires { StartsNeither (exchange_among opener answerer now (map (λ list. list.now) between)) }
    ensures due { Answers (λ w. w)
        (exchanging world (exchange_among opener answerer now (map (λ list. list.now) between.entry))) result }
    ensures join { IfOk result (λ w. JoinsBoth world
        (exchange_among opener answerer now (map (λ list. list.now) between.entry))) }
{
    let (Some(_), Some(_)) = (world.node(opener), world.node(answerer)) else {
        return Err(Fault::NoSuchNode);
    };
    let [first, second, third] = between;
    let opening = Action::Local(opener, LocalEvent::Opening);
    act(alloc, &mut world, &opening)?;
    hand_last(alloc, &mut world, first, answerer, now)?;
    hand_last(alloc, &mut world, second, opener, now)?;
    hand_last(alloc, &mut world, third, answerer, now)?;
    Ok(world)
}
