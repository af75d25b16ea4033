//! Sample lists of actions, and the entries that nodes hold after them.

use cg_core::Node;
use cg_testing::{A, B, C, endpoint, generation, key, settings};
use cg_types::{Fault, StateText};
use cg_world::{Action, LocalEvent, Shown, World};
use std::alloc::{AllocError, Global};
use std::test::Fail;

pub fn start(node: u16, number: u32) -> Action {
    Action::Start(endpoint(node), generation(number))
}

pub fn set(alloc: Global, node: u16, number: u8, text: &str) -> Result<Action, Fail> {
    let text = StateText::new(alloc, text)?;
    let key = key(number);
    Ok(Action::Local(endpoint(node), LocalEvent::Set { key, text }))
}

pub fn set_status(alloc: Global, node: u16) -> Result<Action, Fail> {
    set(alloc, node, 1, "NORMAL")
}

pub fn remove(node: u16, number: u8) -> Action {
    Action::Local(endpoint(node), LocalEvent::Remove(key(number)))
}

pub fn local(node: u16, event: LocalEvent) -> Action {
    Action::Local(endpoint(node), event)
}

pub fn deliver(number: u64, to: u16, now: u64) -> Action {
    let to = endpoint(to);
    Action::Deliver { number, to, now }
}

// Tests whether the result of an action equals its copy, and is empty if and only if the action is a start.
fn is_copied(alloc: Global, action: &Action, shown: &Shown) -> Result<bool, AllocError> {
    let copy = shown.copy(alloc)?;
    let nothing = Shown {
        reply: None,
        sent: None,
    };
    Ok(copy == *shown && (copy == nothing) == matches!(action, Action::Start(..)))
}

// Does all of these actions, of which none is refused; returns `true` if their results are copied.
pub fn act_all(alloc: Global, world: &mut World, actions: &[Action]) -> Result<bool, Fault> {
    let mut copied = true;
    for action in actions {
        let shown = world.act(alloc, action)?;
        let same = is_copied(alloc, action, &shown)?;
        copied = copied && same;
    }
    Ok(copied)
}

// The world after these actions.
pub fn world_of(alloc: Global, actions: &[Action]) -> Result<World, Fail> {
    let mut world = World::new(alloc, settings(alloc)?);
    act_all(alloc, &mut world, actions)?;
    Ok(world)
}

// A, with a status, and B start, and exchange what they hold. A beats, and B opens and is answered by message 5. C starts,
// and is handed twice what B answered A.
pub fn three_nodes(alloc: Global) -> Result<World, Fail> {
    let status = set_status(alloc, A)?;
    let actions = [
        start(A, 9),
        status,
        start(B, 5),
        local(A, LocalEvent::Opening),
        deliver(1, B, 1000),
        deliver(2, A, 1000),
        deliver(3, B, 1000),
        local(A, LocalEvent::Beat),
        local(B, LocalEvent::Opening),
        deliver(4, A, 2000),
        start(C, 4),
        deliver(2, C, 1500),
        deliver(2, C, 1600),
    ];
    world_of(alloc, &actions)
}

/// The answers to actions from the empty world. It has no clause, so who calls it is proved without what a run says.
pub fn answers(alloc: Global, actions: &[Action]) -> Result<Vec<Result<Shown, Fault>>, Fail> {
    let (_world, answers) = World::run(alloc, settings(alloc)?, actions)?;
    Ok(answers)
}

// The generation and the newest version that a node holds of an endpoint.
fn held(node: &Node, of: u16) -> Option<(u32, u32)> {
    let entry = node.table().get(endpoint(of))?;
    Some((entry.generation().get(), entry.newest().get()))
}

pub fn held_by(world: &World, node: u16, of: u16) -> Option<(u32, u32)> {
    held(world.node(endpoint(node))?, of)
}
