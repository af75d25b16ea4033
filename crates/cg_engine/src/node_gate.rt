//! The gate over one node.

ghost use Rattle.std.specs.Prelude.{◌≡◌, Option, None, Ok, IfOk};
ghost use Rattle.cg_types.specs.Answer.{IsRefusal};
ghost use Rattle.cg_core.specs.Step.{node_step};

use crate::gate::Gate;
use cg_core::{Event, Node, Reply};
use cg_types::Fault;
use std::alloc::Global;

/// One node, and the reply of the last event that it did.
#[derive(Drop)]
pub struct NodeGate {
    node: Node,
    last: Option<Reply>,
}

impl NodeGate {
    ghost use Rattle.cg_engine.specs.NodeGate.{node_of, last_of};

    /// Makes the gate over a node, which did no event yet.
    pub fn new(node: Node) -> NodeGate
        ensures node { node_of result ≡ node }
        ensures last { last_of result ≡ None }
    {
        NodeGate { node, last: None }
    }

    /// The node in its present state.
    pub fn node(&self) -> &Node
        ensures { result.now ≡ node_of self.now }
    {
        &self.node
    }

    /// Returns the node in its present state.
    pub fn into_node(self) -> Node
        ensures { result ≡ node_of self }
    {
        self.node
    }
}

/// An event is one step of the node. If it is refused, as the step is, the node and the last reply stay the same.
impl Gate for NodeGate {
    ghost use Rattle.cg_engine.specs.NodeGate.{node_of, last_of};

    ghost does = { λ s event reply t. node_step (node_of s) event ≡ Ok (node_of t, reply) };

    ghost refuses = { λ s event fault. IsRefusal fault (node_step (node_of s) event) };

    ghost stays = { λ s t. (node_of t ≡ node_of s) × (last_of t ≡ last_of s) };

    ghost last = { last_of };

    fn event(&mut self, alloc: Global, event: Event) -> Result<(), Fault> {
        match self.node.step(alloc, &event) {
            Ok(reply) => {
                self.last = Some(reply);
                Ok(())
            }
            Err(fault) => Err(fault),
        }
    }

    fn reply(&self) -> Option<&Reply> {
        self.last.as_ref()
    }
}
