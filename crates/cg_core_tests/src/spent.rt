//! A node whose own entry has the last version: it refuses changes, and still opens exchanges.

use crate::samples::{node, refusal, set_event};
use cg_core::{Event, Node, Reply};
use cg_entry::{Delta, Entry};
use cg_messages::Message;
use cg_testing::{A, bare_entry, delta, expect, expect_eq, key, state};
use cg_types::Fault;
use std::alloc::Global;
use std::test::Fail;

// A at generation 9 with this own entry.
fn with_own(alloc: Global, entry: Entry) -> Result<Node, Fail> {
    Ok(node(alloc, A, 9)?.with_own(alloc, entry)?)
}

fn spent(alloc: Global) -> Result<Node, Fail> {
    let last = bare_entry(alloc, 9, 2147483647)?;
    with_own(alloc, last)
}

// The fault with which a spent node refuses an event, if that leaves the table unchanged.
fn refusal_of_spent(alloc: Global, event: &Event) -> Result<Option<Fault>, Fail> {
    refusal(alloc, &mut spent(alloc)?, event)
}

fn expect_spent(alloc: Global, event: &Event) -> Result<(), Fail> {
    let fault = refusal_of_spent(alloc, event)?;
    expect_eq!(fault, Some(Fault::VersionsSpent))
}

#[test]
fn a_spent_node_keeps_its_table(rt: HostRuntime) -> Result<(), Fail> {
    let tick = Event::Tick {
        now: 5,
        words: [7, 3, 5, 9],
    };
    let set = set_event(rt.alloc(), 3, "x")?;
    for event in [&Event::Beat, &set, &tick] {
        expect_spent(rt.alloc(), event)?;
    }
    Ok(())
}

// That a key has no text is told before that no version is left.
#[test]
fn a_spent_node_has_no_text_to_remove(rt: HostRuntime) -> Result<(), Fail> {
    let fault = refusal_of_spent(rt.alloc(), &Event::Remove { key: key(3) })?;
    expect_eq!(fault, Some(Fault::NoSuchKey))
}

// The whole delta of an entry with the last version, whose key 3 has a text.
fn whole_with_key_3(alloc: Global) -> Result<Delta, Fail> {
    let states = vec![in alloc; state(alloc, 3, 2, "x")?]?;
    delta((9, 0, 2147483647), states)
}

// A spent node whose key 3 has a text.
fn spent_with_key_3(alloc: Global) -> Result<Node, Fail> {
    let whole = whole_with_key_3(alloc)?;
    let entry = Entry::of_delta(alloc, &whole)?.ok_or("an entry")?;
    with_own(alloc, entry)
}

#[test]
fn a_spent_node_keeps_its_text(rt: HostRuntime) -> Result<(), Fail> {
    let mut node = spent_with_key_3(rt.alloc())?;
    let fault = refusal(rt.alloc(), &mut node, &Event::Remove { key: key(3) })?;
    expect_eq!(fault, Some(Fault::VersionsSpent))
}

// The reply of a spent node that opens an exchange.
fn opening(alloc: Global) -> Result<Reply, Fail> {
    let mut node = spent(alloc)?;
    Ok(node.step(alloc, &Event::Opening)?)
}

#[test]
fn a_spent_node_still_opens(rt: HostRuntime) -> Result<(), Fail> {
    let reply = opening(rt.alloc())?;
    expect!(matches!(reply, Reply::Sent(Message::Syn(_))))
}
