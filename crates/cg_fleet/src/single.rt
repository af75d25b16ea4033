//! A step and a restart of one node among all.

ghost use Rattle.std.specs.Prelude.{◌≡◌, ◌<◌, length, IfOk, OnOk, OnErr};
ghost use Rattle.cg_fleet.specs.Starting.{Restarts, Steps};

use crate::samples::started;
use cg_core::{Event, Node, Reply, Settings};
use cg_testing::generation;
use cg_types::Fault;
use std::alloc::Global;

/// Has the node of a place take the step of an event.
pub(crate) fn step_at(
    alloc: Global,
    nodes: &mut [Node],
    place: usize,
    event: &Event,
) -> Result<Reply, Fault>
    requires { place < length nodes.old }
    ensures stepped { IfOk result (λ reply. Steps place event.now nodes.old reply nodes.new) }
    ensures err { OnErr result (nodes.new ≡ nodes.old) }
{
    let (after, reply) = nodes[place].stepped(alloc, event)?;
    nodes[place] = after;
    Ok(reply)
}

/// Starts the node of a place in its next generation.
pub(crate) fn restart_at(
    alloc: Global,
    nodes: &mut [Node],
    place: u16,
    settings: &Settings,
) -> Result<(), Fault>
    requires { place < length nodes.old }
    ensures restarted { OnOk result (Restarts settings.now place nodes.old nodes.new) }
    ensures err { OnErr result (nodes.new ≡ nodes.old) }
{
    let at = usize::from(place);
    let last = nodes[at].table().own_entry().generation();
    let node = started(alloc, place, generation(last.get() + 1), settings)?;
    nodes[at] = node;
    Ok(())
}
