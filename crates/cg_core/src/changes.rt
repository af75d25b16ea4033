//! The puts of a step.

ghost use Rattle.std.specs.Prelude.{◌≡◌, IfOk};
ghost use Rattle.cg_types.specs.Answer.{Answers};
ghost use Rattle.cg_types.specs.Rising.{Rises};
ghost use Rattle.cg_table.specs.Puts.{rows_at};
ghost use Rattle.cg_core.specs.Changes as spec;
ghost use Rattle.cg_core.specs.Changes.{step_with_puts};

use crate::event::Event;
use crate::node::Node;
use crate::outcomes::Outcomes;
use crate::reply::Reply;
use cg_silence::was_taken;
use cg_table::{Puts, Table};
use cg_types::{Endpoint, Fault, Shows};
use std::alloc::{AllocError, Global};

// The owners of the deltas that were taken.
fn taken_owners(alloc: Global, outcomes: &Outcomes) -> Result<Vec<Endpoint>, AllocError>
    ensures { IfOk result (λ v. v.items ≡ spec.taken_owners outcomes.now) }
{
    let outcomes = outcomes.as_slice();
    outcomes
        .iter()
        .filter(|outcome| was_taken(outcome))
        .map(|outcome| outcome.endpoint)
        .collect(alloc)
}

// The owners whose entry a step changed, by its reply.
fn changed_owners(alloc: Global, own: Endpoint, reply: &Reply) -> Result<Vec<Endpoint>, AllocError>
    ensures { IfOk result (λ v. v.items ≡ spec.changed_owners own reply.now) }
{
    match reply {
        Reply::Done(_) => Vec::from_slice(alloc, &[own]),
        Reply::Round { .. } => Vec::from_slice(alloc, &[own]),
        Reply::Sent(_) => Ok(Vec::new(alloc)),
        Reply::Both { outcomes, .. } => taken_owners(alloc, outcomes),
        Reply::Took(outcomes) => taken_owners(alloc, outcomes),
    }
}

// The rows of these owners in the table after a step.
fn changed_rows(
    alloc: Global,
    own: Endpoint,
    after: &Table,
    reply: &Reply,
) -> Result<Puts, AllocError>
    requires { Rises (spec.changed_owners own reply.now) }
    ensures { IfOk result (λ p. p ≡ rows_at after.now.entries (spec.changed_owners own reply.now)) }
{
    let owners = changed_owners(alloc, own, reply)?;
    Puts::of_owners(alloc, after, &owners)
}

impl Node {
    /// Returns the node after an event, its reply, and the puts of the step. These are the owners whose entry it
    /// changed, rising, each with its whole new entry, which is the new table's. The call finds them by the reply, not
    /// by a walk over the tables. The refusals are those of `stepped`.
    pub fn stepped_with_puts(
        &self,
        alloc: Global,
        event: &Event,
    ) -> Result<(Node, Reply, Puts), Fault>
        ensures { Answers (λ x. x) (step_with_puts self.now event.now) result }
    {
        let (node, reply) = self.stepped(alloc, event)?;
        event.show();
        let puts = changed_rows(alloc, self.table().own(), node.table(), &reply)?;
        Ok((node, reply, puts))
    }
}
