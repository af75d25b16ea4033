//! A node's start, a gap after a restart, the node before a step, own deltas, other clusters, full tables.

use crate::samples::{
    about, ack2_event, ack2_of, comes, held, node, node_after, refusal, set_event, stepped,
    syn_event,
};
use cg_core::{Event, Node, Reply};
use cg_entry::Took;
use cg_messages::OwnerDelta;
use cg_silence::Verdict;
use cg_testing::{A, B, C, delta, endpoint, expect_eq, key, state};
use cg_types::{Endpoint, Fault, MEMBER_LIMIT};
use std::alloc::Global;
use std::test::Fail;

// The own endpoint, the number of owners, the cluster's name, the number of positions, and the verdict of itself.
fn outlook(node: &Node) -> (Endpoint, usize, &str, usize, Verdict) {
    let own = node.table().own();
    let owners = node.table().owners().len();
    let cluster = node.settings().cluster().name();
    let positions = node.ring().positions().len();
    (own, owners, cluster, positions, node.verdict(own, 5))
}

// The node after an event.
fn after(alloc: Global, node: &Node, event: &Event) -> Result<Node, Fail> {
    let (after, _reply) = stepped(alloc, node, event)?;
    Ok(after)
}

fn expect_start(node: &Node) -> Result<(), Fail> {
    let outlook = outlook(node);
    expect_eq!(outlook, (endpoint(A), 1, "c1", 0, Verdict::Unheard))
}

fn expect_beat(alloc: Global, node: &Node) -> Result<(), Fail> {
    let after = after(alloc, node, &Event::Beat)?;
    expect_eq!(
        (held(node, A), held(&after, A)),
        (Some((9, 1)), Some((9, 2)))
    )
}

#[test]
fn a_node_that_starts(rt: HostRuntime) -> Result<(), Fail> {
    let node = node(rt.alloc(), A, 9)?.copy()?;
    expect_start(&node)?;
    expect_beat(rt.alloc(), &node)
}

// The version of a key in a node's own entry.
fn own_version(node: &Node, number: u8) -> Option<u32> {
    let Some((_text, version)) = node.table().own_entry().get(key(number)) else {
        return None;
    };
    Some(version.get())
}

// The version of A's key 3 before an event, and after it.
fn own_versions(alloc: Global, event: &Event) -> Result<(Option<u32>, Option<u32>), Fail> {
    let node = node(alloc, A, 9)?;
    let after = after(alloc, &node, event)?;
    Ok((own_version(&node, 3), own_version(&after, 3)))
}

#[test]
fn a_set_leaves_the_node_before_it(rt: HostRuntime) -> Result<(), Fail> {
    let event = set_event(rt.alloc(), 3, "x")?;
    let versions = own_versions(rt.alloc(), &event)?;
    expect_eq!(versions, (None, Some(2)))
}

// The outcome of the only delta of an ACK2.
fn took(reply: &Reply) -> Option<Took> {
    let Reply::Took(outcomes) = reply else {
        return None;
    };
    match outcomes.as_slice() {
        [outcome] => Some(outcome.took),
        _ => None,
    }
}

// The outcome of an ACK2's only delta; of its owner, the generation and newest version that the node then holds and the
// verdict at 10,000; and the number of owners.
type Seen = (Option<Took>, Option<(u32, u32)>, Verdict, usize);

fn seen(alloc: Global, node: &Node, event: &Event, owner: u16) -> Result<Seen, Fault> {
    let (after, reply) = stepped(alloc, node, event)?;
    let verdict = after.verdict(endpoint(owner), 10000);
    let owners = after.table().owners().len();
    Ok((took(&reply), held(&after, owner), verdict, owners))
}

// The same at B, which started in a generation.
fn seen_at_b(alloc: Global, at: u32, event: &Event, owner: u16) -> Result<Seen, Fail> {
    let node = node(alloc, B, at)?;
    Ok(seen(alloc, &node, event, owner)?)
}

// A's delta of generation 9, above 2: heartbeat 5, and a key at 4.
fn partial(alloc: Global) -> Result<OwnerDelta, Fail> {
    let states = vec![in alloc; state(alloc, 2, 4, "x")?]?;
    let delta = delta((9, 2, 5), states)?;
    Ok(OwnerDelta {
        endpoint: endpoint(A),
        delta,
    })
}

#[test]
fn gap_after_restart(rt: HostRuntime) -> Result<(), Fail> {
    let event = ack2_event(rt.alloc(), 10000, partial(rt.alloc())?)?;
    let seen = seen_at_b(rt.alloc(), 6, &event, A)?;
    expect_eq!(seen, (Some(Took::Gap), None, Verdict::Unheard, 1))
}

#[test]
fn own_delta(rt: HostRuntime) -> Result<(), Fail> {
    let event = comes(rt.alloc(), 10000, B, (6, 0, 4))?;
    let seen = seen_at_b(rt.alloc(), 5, &event, B)?;
    expect_eq!(seen, (Some(Took::Own), Some((5, 1)), Verdict::Unheard, 1))
}

// At B: the last arrivals of A before an event, and of A and B after it.
type Arrivals = (Option<u64>, Option<u64>, Option<u64>);

fn arrivals(alloc: Global, event: &Event) -> Result<Arrivals, Fail> {
    let node = node(alloc, B, 5)?;
    let after = after(alloc, &node, event)?;
    Ok((
        node.last_arrival(endpoint(A)),
        after.last_arrival(endpoint(A)),
        after.last_arrival(endpoint(B)),
    ))
}

#[test]
fn a_taken_delta_is_the_last_arrival(rt: HostRuntime) -> Result<(), Fail> {
    let event = comes(rt.alloc(), 10000, A, (9, 0, 1))?;
    let arrivals = arrivals(rt.alloc(), &event)?;
    expect_eq!(arrivals, (None, Some(10000), None))
}

// ---- refused events

// The fault with which B refuses an event, if that leaves the table unchanged.
fn refusal_by_b(alloc: Global, event: &Event) -> Result<Option<Fault>, Fail> {
    refusal(alloc, &mut node(alloc, B, 5)?, event)
}

#[test]
fn another_cluster_changes_nothing(rt: HostRuntime) -> Result<(), Fail> {
    let event = syn_event(rt.alloc(), "c2")?;
    let fault = refusal_by_b(rt.alloc(), &event)?;
    expect_eq!(fault, Some(Fault::OtherCluster))
}

// The event that hands a node whole deltas about 511 endpoints, from the third on.
fn crowd(alloc: Global) -> Result<Event, Fail> {
    let mut deltas = Vec::new(alloc);
    for number in C..514 {
        deltas.push(about(alloc, number, (4, 0, 1))?)?;
    }
    ack2_of(10000, deltas)
}

// B, which holds as many endpoints as a table may hold.
fn full(alloc: Global) -> Result<Node, Fail> {
    let event = crowd(alloc)?;
    node_after(alloc, B, 5, &event)
}

// The fault with which the full B refuses an event, if that leaves the table unchanged, and then the number of owners
// and the verdict of A at 20,000.
fn refusal_when_full(
    alloc: Global,
    event: &Event,
) -> Result<(Option<Fault>, usize, Verdict), Fail> {
    let mut node = full(alloc)?;
    let fault = refusal(alloc, &mut node, event)?;
    let owners = node.table().owners().len();
    Ok((fault, owners, node.verdict(endpoint(A), 20000)))
}

#[test]
fn table_full(rt: HostRuntime) -> Result<(), Fail> {
    let event = comes(rt.alloc(), 20000, A, (9, 0, 1))?;
    let seen = refusal_when_full(rt.alloc(), &event)?;
    expect_eq!(
        seen,
        (Some(Fault::TableFull), MEMBER_LIMIT, Verdict::Unheard)
    )
}
