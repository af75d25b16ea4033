//! Nodes whose owners claim tokens, and the events that change the claims.

use crate::nodes::{add_delta, after, brings_one, set, started};
use cg_core::{Event, Node};
use cg_measure::{Failure, claiming, leaving, tokens_text};
use cg_messages::{Ack, OwnerDelta};
use cg_types::{STATUS_KEY, TOKENS_KEY};
use std::alloc::Global;

// The deltas of all others, each with sixteen tokens.
fn claims_of_others(alloc: Global) -> Result<Vec<OwnerDelta>, Failure> {
    let mut deltas = Vec::new(alloc);
    for number in 1..256u16 {
        add_delta(&mut deltas, number, claiming(alloc, number)?)?;
    }
    Ok(deltas)
}

/// The event of an ACK that brings 255 owners, each of whom claims sixteen tokens.
pub(crate) fn joins(alloc: Global) -> Result<Event, Failure> {
    let claims = claims_of_others(alloc)?;
    let m = Ack::new(Vec::new(alloc), claims).ok_or(Failure::Lacking("an ACK"))?;
    Ok(Event::Ack { now: 1000, m })
}

// Endpoint 0, which claims sixteen tokens, and holds no others.
fn claimant(alloc: Global) -> Result<Node, Failure> {
    let tokens = set(alloc, TOKENS_KEY, &tokens_text(alloc, 0)?)?;
    let status = set(alloc, STATUS_KEY, "NORMAL")?;
    let node = after(alloc, &started(alloc, 0, 5)?, &tokens)?;
    Ok(after(alloc, &node, &status)?)
}

/// Endpoint 0, in whose table all 256 owners claim sixteen tokens each.
pub(crate) fn claimed(alloc: Global) -> Result<Node, Failure> {
    let joins = joins(alloc)?;
    let node = claimant(alloc)?;
    Ok(after(alloc, &node, &joins)?)
}

/// The event that sets the own `STATUS` to `LEFT`.
pub(crate) fn leaves(alloc: Global) -> Result<Event, Failure> {
    Ok(set(alloc, STATUS_KEY, "LEFT")?)
}

/// The event that brings the `STATUS` `LEFT` of one of the others.
pub(crate) fn left(alloc: Global) -> Result<Event, Failure> {
    brings_one(alloc, 2000, 7, leaving(alloc)?)
}
