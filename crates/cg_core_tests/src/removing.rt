//! A node that removes the texts of its own keys.

use crate::samples::{held, node, refusal, set_event, step};
use cg_core::{Event, Node, Reply};
use cg_testing::{A, expect_eq, key};
use cg_types::Fault;
use std::alloc::Global;
use std::test::Fail;

const TOKEN: &str = "0cc175b9c0f1b6a831c399e269772661";

fn set(alloc: Global, node: &mut Node, number: u8, text: &str) -> Result<(), Fail> {
    let event = set_event(alloc, number, text)?;
    step(alloc, node, &event)
}

// A at generation 9, which claims a token: key 2 at version 2, key 1 at 3.
fn claimant(alloc: Global) -> Result<Node, Fail> {
    let mut node = node(alloc, A, 9)?;
    set(alloc, &mut node, 2, TOKEN)?;
    set(alloc, &mut node, 1, "NORMAL")?;
    Ok(node)
}

// The same node after the removal of key 1.
fn with_key_1_removed(alloc: Global) -> Result<Node, Fail> {
    let mut node = claimant(alloc)?;
    step(alloc, &mut node, &Event::Remove { key: key(1) })?;
    Ok(node)
}

// The version that an event is given, or 0; then A's newest version, and the number of positions of the ring.
fn done(alloc: Global, node: &mut Node, event: &Event) -> Result<(u32, u32, usize), Fail> {
    let given = match node.step(alloc, event)? {
        Reply::Done(version) => version.get(),
        _ => 0,
    };
    let newest = match held(node, A) {
        Some((_, newest)) => newest,
        None => 0,
    };
    Ok((given, newest, node.ring().positions().len()))
}

fn expect_removed(alloc: Global, node: &mut Node) -> Result<(), Fail> {
    let removed = done(alloc, node, &Event::Remove { key: key(1) })?;
    expect_eq!(removed, (4, 4, 0))
}

fn expect_set_again(alloc: Global, node: &mut Node) -> Result<(), Fail> {
    let set = set_event(alloc, 1, "NORMAL")?;
    let set_again = done(alloc, node, &set)?;
    expect_eq!(set_again, (5, 5, 1))
}

#[test]
fn a_removed_status_claims_no_token(rt: HostRuntime) -> Result<(), Fail> {
    let mut node = claimant(rt.alloc())?;
    expect_removed(rt.alloc(), &mut node)?;
    expect_set_again(rt.alloc(), &mut node)
}

// The fault with which a node without key 1 refuses the removal of a key, if that leaves the table unchanged.
fn refused(alloc: Global, number: u8) -> Result<Option<Fault>, Fail> {
    let event = Event::Remove { key: key(number) };
    refusal(alloc, &mut with_key_1_removed(alloc)?, &event)
}

#[test]
fn only_a_key_with_a_text_is_removed(rt: HostRuntime) -> Result<(), Fail> {
    for (number, fault) in [
        (1, Some(Fault::NoSuchKey)),
        (2, None),
        (3, Some(Fault::NoSuchKey)),
    ] {
        let seen = refused(rt.alloc(), number)?;
        expect_eq!(seen, fault, "{number}")?;
    }
    Ok(())
}
