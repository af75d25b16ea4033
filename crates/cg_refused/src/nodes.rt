//! The step of a node at each kind of event.

use crate::answers::Answer;
use crate::samples::{Kind, event, full_node, node_in, world};
use crate::texts::add_node;
use crate::trials::{Outcome, Seen, Trial, compared, tried};
use cg_core::{Event, Node};
use cg_types::Fault;
use std::alloc::Global;

// A node, and an event that it is to do.
#[derive(Drop)]
struct Stepping {
    node: Node,
    event: Event,
}

impl Trial for Stepping {
    ghost parts = { λ _. 0 };

    fn call(&mut self, alloc: Global) -> Result<Answer, Fault> {
        match self.node.step(alloc, &self.event) {
            Ok(reply) => Ok(Answer::Replied(reply)),
            Err(fault) => Err(fault),
        }
    }

    fn show(&mut self, _alloc: Global, text: &mut String) -> Result<(), Fault> {
        Ok(add_node(text, &self.node)?)
    }
}

fn seen(alloc: Global, kind: Kind) -> Result<Seen, Fault> {
    let world = world(alloc)?;
    let node = node_in(&world)?;
    let event = event(alloc, &world, kind)?;
    tried(alloc, &mut Stepping { node, event })
}

/// Has a node do an event of a kind.
pub(crate) fn step(alloc: Global, kind: Kind) -> Result<Outcome, Fault> {
    let due = seen(alloc, kind)?.of_twin()?;
    compared(alloc, &due, seen(alloc, kind)?)
}

fn seen_full(alloc: Global) -> Result<Seen, Fault> {
    let (node, event) = full_node(alloc)?;
    tried(alloc, &mut Stepping { node, event })
}

/// Has a node of many owners take a heartbeat of the last one, whose window has a full tail.
pub(crate) fn step_full(alloc: Global) -> Result<Outcome, Fault> {
    let due = seen_full(alloc)?.of_twin()?;
    compared(alloc, &due, seen_full(alloc)?)
}
