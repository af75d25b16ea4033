//! Arrivals and verdicts of endpoints by the messages that a node is handed.

use crate::samples::{ack_event, comes, node, node_after, step};
use cg_core::Node;
use cg_silence::Verdict;
use cg_testing::{A, B, C, endpoint, expect_eq};
use std::alloc::Global;
use std::test::Fail;

// One gap of 2,000 is kept of B, so B is silent 36,843 after the last arrival.
#[test]
fn an_ack_is_an_arrival(rt: HostRuntime) -> Result<(), Fail> {
    let event = ack_event(rt.alloc(), 10000)?;
    let node = node_after(rt.alloc(), A, 9, &event)?;
    let verdicts = [10000, 46842, 46843].map(|now| node.verdict(endpoint(B), now));
    expect_eq!(verdicts, [Verdict::Alive, Verdict::Alive, Verdict::Silent])
}

// Hands a node a delta with no states, in an ACK2, at a time.
fn hear(
    alloc: Global,
    node: &mut Node,
    now: u64,
    owner: u16,
    of: (u32, u32, u32),
) -> Result<(), Fail> {
    let event = comes(alloc, now, owner, of)?;
    step(alloc, node, &event)
}

// A, which hears of C at 0, and of B at 50,000.
fn hearer(alloc: Global) -> Result<Node, Fail> {
    let mut node = node(alloc, A, 9)?;
    hear(alloc, &mut node, 0, C, (4, 0, 1))?;
    hear(alloc, &mut node, 50000, B, (5, 0, 1))?;
    Ok(node)
}

#[test]
fn itself_one_alive_and_one_silent(rt: HostRuntime) -> Result<(), Fail> {
    let node = hearer(rt.alloc())?;
    let verdicts = [A, B, C].map(|owner| node.verdict(endpoint(owner), 50001));
    expect_eq!(
        verdicts,
        [Verdict::Unheard, Verdict::Alive, Verdict::Silent]
    )
}
