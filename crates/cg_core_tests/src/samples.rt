//! Nodes and events that the tests share. The cluster is c1.

use cg_core::{Event, Node, Reply};
use cg_entry::Digest;
use cg_messages::{Ack, Ack2, OwnerDelta, Request, Syn};
use cg_testing::{A, B, bare_delta, endpoint, generation, key, settings, version};
use cg_types::{Cluster, Endpoint, Fault, StateText};
use std::alloc::Global;
use std::test::Fail;

/// A node that starts in a generation.
pub(crate) fn node(alloc: Global, own: u16, at: u32) -> Result<Node, Fail> {
    Ok(Node::start(alloc, endpoint(own), generation(at), settings(alloc)?)?)
}

/// Does an event at a node. It has no clause, so who calls it is proved without all that an event may do.
pub(crate) fn step(alloc: Global, node: &mut Node, event: &Event) -> Result<(), Fail> {
    node.step(alloc, event)?;
    Ok(())
}

/// A node that starts in a generation, and then does an event.
pub(crate) fn node_after(alloc: Global, own: u16, at: u32, event: &Event) -> Result<Node, Fail> {
    let mut node = node(alloc, own, at)?;
    step(alloc, &mut node, event)?;
    Ok(node)
}

/// The node after an event, and the reply. As `step`, it has no clause.
pub(crate) fn stepped(alloc: Global, node: &Node, event: &Event) -> Result<(Node, Reply), Fault> {
    node.stepped(alloc, event)
}

/// The event that sets a key to a text.
pub(crate) fn set_event(alloc: Global, number: u8, text: &str) -> Result<Event, Fail> {
    let text = StateText::new(alloc, text)?;
    Ok(Event::Set {
        key: key(number),
        text,
    })
}

/// The event of A's SYN at generation 9, of a cluster.
pub(crate) fn syn_event(alloc: Global, name: &str) -> Result<Event, Fail> {
    let digest = Digest {
        endpoint: endpoint(A),
        generation: generation(9),
        newest: version(1),
    };
    let digests = vec![in alloc; digest]?;
    let m = Syn::new(Cluster::new(alloc, name)?, digests).ok_or("a SYN")?;
    Ok(Event::Syn { m })
}

/// A delta about an endpoint, with no states, of a generation, above a version, with a heartbeat version.
pub(crate) fn about(alloc: Global, owner: u16, of: (u32, u32, u32)) -> Result<OwnerDelta, Fail> {
    let delta = bare_delta(alloc, of)?;
    Ok(OwnerDelta {
        endpoint: endpoint(owner),
        delta,
    })
}

/// The event of an ACK that requests A's entry of generation 9, above 0, and sends B's of generation 5.
pub(crate) fn ack_event(alloc: Global, now: u64) -> Result<Event, Fail> {
    let request = Request::new(endpoint(A), generation(9), 0).ok_or("a request")?;
    let deltas = vec![in alloc; about(alloc, B, (5, 0, 1))?]?;
    let m = Ack::new(vec![in alloc; request]?, deltas).ok_or("an ACK")?;
    Ok(Event::Ack { now, m })
}

/// The event of an ACK2 with deltas that rise, at a time.
pub(crate) fn ack2_of(now: u64, deltas: Vec<OwnerDelta>) -> Result<Event, Fail> {
    let m = Ack2::new(deltas).ok_or("an ACK2")?;
    Ok(Event::Ack2 { now, m })
}

/// The event of an ACK2 with one delta, at a time.
pub(crate) fn ack2_event(alloc: Global, now: u64, delta: OwnerDelta) -> Result<Event, Fail> {
    ack2_of(now, vec![in alloc; delta]?)
}

/// The event of an ACK2 with one delta that has no states.
pub(crate) fn comes(
    alloc: Global,
    now: u64,
    owner: u16,
    of: (u32, u32, u32),
) -> Result<Event, Fail> {
    ack2_event(alloc, now, about(alloc, owner, of)?)
}

/// The generation and the newest version that a node holds of an endpoint.
pub(crate) fn held(node: &Node, owner: u16) -> Option<(u32, u32)> {
    match node.table().get(endpoint(owner)) {
        Some(entry) => Some((entry.generation().get(), entry.newest().get())),
        None => None,
    }
}

/// The fault with which an event is refused, if that leaves the table unchanged.
pub(crate) fn refusal(
    alloc: Global,
    node: &mut Node,
    event: &Event,
) -> Result<Option<Fault>, Fail> {
    let before = node.table().copy(alloc)?;
    let fault = node.step(alloc, event).err();
    let is_same = node.table().same_entries(&before);
    Ok(if is_same { fault } else { None })
}
