//! The ring of a node, after sets of its own keys and after messages.

use crate::samples::{about, ack2_of, node, set_event, step};
use cg_core::{Event, Node};
use cg_messages::OwnerDelta;
use cg_testing::{A, B, C, delta, endpoint, expect_eq, state};
use std::alloc::Global;
use std::test::Fail;

/// A text of tokens.
pub(crate) const AT_20: &str = "00000000000000000000000000000020";

/// A text of tokens.
pub(crate) const AT_50: &str = "00000000000000000000000000000050";

/// A text of tokens.
pub(crate) const AT_20_AND_50: &str =
    "00000000000000000000000000000020,00000000000000000000000000000050";

// A token, and the last byte of the address of the endpoint that has it.
type Place = (u128, u8);

// The first three positions of a node's ring, and zeros for no position.
fn places(node: &Node) -> [Place; 3] {
    let mut places = [(0, 0); 3];
    for (place, (token, endpoint)) in places.iter_mut().zip(node.ring().positions()) {
        *place = (token.number(), endpoint.address()[3]);
    }
    places
}

// An owner's delta of a generation, above a version, which gives the keys 1 and 2 these texts at the next version.
fn claims(
    alloc: Global,
    owner: u16,
    (at, above): (u32, u32),
    (status, tokens): (&str, &str),
) -> Result<OwnerDelta, Fail> {
    let next = above.saturating_add(1);
    let states = vec![in alloc;
        state(alloc, 1, next, status)?,
        state(alloc, 2, next, tokens)?,
    ]?;
    let delta = delta((at, above, next), states)?;
    Ok(OwnerDelta {
        endpoint: endpoint(owner),
        delta,
    })
}

// The places after an event.
fn places_after(alloc: Global, node: &mut Node, event: &Event) -> Result<[Place; 3], Fail> {
    step(alloc, node, event)?;
    Ok(places(node))
}

// Takes these deltas, which rise.
fn take(alloc: Global, node: &mut Node, deltas: Vec<OwnerDelta>) -> Result<[Place; 3], Fail> {
    places_after(alloc, node, &ack2_of(1, deltas)?)
}

// Takes C's delta with these claims.
fn take_claims(
    alloc: Global,
    node: &mut Node,
    of: (u32, u32),
    texts: (&str, &str),
) -> Result<[Place; 3], Fail> {
    let delta = claims(alloc, C, of, texts)?;
    let deltas = vec![in alloc; delta]?;
    take(alloc, node, deltas)
}

// Sets a key, and then beats.
fn set_and_beat(
    alloc: Global,
    node: &mut Node,
    number: u8,
    text: &str,
) -> Result<[[Place; 3]; 2], Fail> {
    let set = places_after(alloc, node, &set_event(alloc, number, text)?)?;
    Ok([set, places_after(alloc, node, &Event::Beat)?])
}

// B in generation 5, which holds C in generation 4 with a claim to 50.
fn beside_a_claimant(alloc: Global) -> Result<Node, Fail> {
    let mut node = node(alloc, B, 5)?;
    take_claims(alloc, &mut node, (4, 0), ("NORMAL", AT_50))?;
    Ok(node)
}

// Expects these places after a set, and after the beat behind it.
fn expect_set(
    alloc: Global,
    node: &mut Node,
    (number, text): (u8, &str),
    wanted: [Place; 3],
) -> Result<(), Fail> {
    let places = set_and_beat(alloc, node, number, text)?;
    expect_eq!(places, [wanted, wanted], "{number} {text}")
}

#[test]
fn a_ring_follows_the_own_status(rt: HostRuntime) -> Result<(), Fail> {
    let mut node = beside_a_claimant(rt.alloc())?;
    let other = [(0x50, 3), (0, 0), (0, 0)];
    let own = [(0x20, 2), (0x50, 2), (0, 0)];
    for (number, text, wanted) in [
        (2, AT_20_AND_50, other),
        (1, "NORMAL", own),
        (3, "x", own),
        (1, "LEFT", other),
        (1, "NORMAL,x", own),
        (2, AT_20, [(0x20, 2), (0x50, 3), (0, 0)]),
    ] {
        expect_set(rt.alloc(), &mut node, (number, text), wanted)?;
    }
    Ok(())
}

// An owner, and the texts of its keys 1 and 2 in a delta; none if the delta has no states.
type Sent = (u16, Option<(&'static str, &'static str)>);

// Puts an owner's delta of generation 5, above a version, at the end of a list.
fn put(
    alloc: Global,
    deltas: &mut Vec<OwnerDelta>,
    above: u32,
    (owner, texts): Sent,
) -> Result<(), Fail> {
    let delta = match texts {
        Some(texts) => claims(alloc, owner, (5, above), texts)?,
        None => about(alloc, owner, (5, above, above.saturating_add(1)))?,
    };
    deltas.push(delta)?;
    Ok(())
}

// The deltas of some owners.
fn sent(alloc: Global, above: u32, owners: &[Sent]) -> Result<Vec<OwnerDelta>, Fail> {
    let mut deltas = Vec::new(alloc);
    for owner in owners {
        put(alloc, &mut deltas, above, *owner)?;
    }
    Ok(deltas)
}

// Expects these places after the deltas of some owners.
fn expect_sent(
    alloc: Global,
    node: &mut Node,
    (above, owners): (u32, &[Sent]),
    wanted: [Place; 3],
) -> Result<(), Fail> {
    let deltas = sent(alloc, above, owners)?;
    let places = take(alloc, node, deltas)?;
    expect_eq!(places, wanted)
}

// Five owners, of which 2 and 4 claim tokens.
const FIVE_OWNERS: [Sent; 5] = [
    (2, Some(("NORMAL", AT_20))),
    (3, None),
    (4, Some(("NORMAL", AT_50))),
    (5, Some(("BOOT", AT_20))),
    (6, None),
];

// Of these owners, 2 leaves the token that 4 takes, in one message in which 3 beats.
const ONE_TAKES_WHAT_ANOTHER_LEAVES: [Sent; 3] = [
    (2, Some(("LEFT", AT_20))),
    (3, None),
    (4, Some(("NORMAL", AT_20))),
];

#[test]
fn a_ring_follows_the_deltas_of_a_message(rt: HostRuntime) -> Result<(), Fail> {
    let mut node = node(rt.alloc(), A, 9)?;
    let held = [(0x20, 2), (0x50, 4), (0, 0)];
    expect_sent(rt.alloc(), &mut node, (0, &FIVE_OWNERS), held)?;
    let taken = [(0x20, 4), (0, 0), (0, 0)];
    expect_sent(
        rt.alloc(),
        &mut node,
        (1, &ONE_TAKES_WHAT_ANOTHER_LEAVES),
        taken,
    )
}

// Expects these places after C claims the token 50 with a status, at the start of a generation.
fn expect_after_claim(
    alloc: Global,
    node: &mut Node,
    (at, status): (u32, &str),
    wanted: [Place; 3],
) -> Result<(), Fail> {
    let places = take_claims(alloc, node, (at, 0), (status, AT_50))?;
    expect_eq!(places, wanted, "{status}")
}

// An owner that starts again with the same tokens has them in its new generation.
#[test]
fn a_claimant_restarts(rt: HostRuntime) -> Result<(), Fail> {
    let mut node = beside_a_claimant(rt.alloc())?;
    for (at, text, wanted) in [
        (5, "NORMAL", [(0x50, 3), (0, 0), (0, 0)]),
        (6, "LEFT", [(0, 0); 3]),
    ] {
        expect_after_claim(rt.alloc(), &mut node, (at, text), wanted)?;
    }
    Ok(())
}
