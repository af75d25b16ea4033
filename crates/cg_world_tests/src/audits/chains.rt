//! Audits of chains of up to 300 endpoints: a SYN is handled once it was sent.
//!
//! Each endpoint opens at generation 9, and all but the last are handed the SYN of the next one.

use crate::audits::made::said;
use crate::histories::{applied, begun};
use cg_audit::{LifeItem, Lives, audit, endpoints_differ};
use cg_core::{Event, Reply};
use cg_history::{History, Receipt};
use cg_messages::{Message, Syn};
use cg_testing::{endpoint, expect_eq, generation};
use std::alloc::Global;
use std::test::Fail;

fn syn_in(reply: Reply) -> Option<Syn> {
    match reply {
        Reply::Sent(Message::Syn(m)) => Some(m),
        _ => None,
    }
}

// An endpoint that has opened, and its SYN.
fn opened(alloc: Global, own: u16) -> Result<(History, Syn), Fail> {
    let mut history = begun(alloc, own, 9)?;
    let Receipt { reply, .. } = applied(alloc, &mut history, 0, Event::Opening)?;
    let m = syn_in(reply).ok_or("a SYN")?;
    Ok((history, m))
}

// An endpoint that opens, and then is handed a SYN, if there is one; and the event that hands its own one over.
fn linked(alloc: Global, own: u16, handed: Option<Event>) -> Result<(Lives, Event), Fail> {
    let (mut history, m) = opened(alloc, own)?;
    if let Some(syn) = handed {
        applied(alloc, &mut history, 0, syn)?;
    }
    Ok((Lives::of(alloc, history)?, Event::Syn { m }))
}

// The last endpoint comes first.
fn chain(alloc: Global, count: u16) -> Result<Vec<Lives>, Fail> {
    let mut all = Vec::new(alloc);
    let mut handed = None;
    for own in (1..=count).rev() {
        let (lives, syn) = linked(alloc, own, handed)?;
        handed = Some(syn);
        all.push(lives)?;
    }
    Ok(all)
}

// The audits of a chain of two, and of it without the last one.
fn two_said(alloc: Global) -> Result<(String, String), Fail> {
    let all = chain(alloc, 2)?;
    let Some((_, rest)) = all.split_first() else {
        return Err(Fail::from("two"));
    };
    Ok((said(alloc, &all)?, said(alloc, rest)?))
}

// The number of items in the order of a chain, its fifth item and its last.
fn order(alloc: Global, count: u16) -> Result<(usize, Option<LifeItem>, Option<LifeItem>), Fail> {
    let all = chain(alloc, count)?;
    if !endpoints_differ(&all) {
        return Err(Fail::from("twice"));
    }
    let Ok(order) = audit(alloc, &all) else {
        return Err(Fail::from("no order"));
    };
    let items = order.items.as_slice();
    Ok((items.len(), items.get(4).copied(), items.last().copied()))
}

fn item(own: u16, number: u64) -> Option<LifeItem> {
    Some(LifeItem {
        endpoint: endpoint(own),
        generation: generation(9),
        number,
    })
}

#[test]
fn a_syn_is_handled_once_it_was_sent(rt: HostRuntime) -> Result<(), Fail> {
    let (whole, rest) = two_said(rt.alloc())?;
    expect_eq!(whole.as_str(), "run 1/9/0 1/9/1 2/9/0 2/9/1 1/9/2")?;
    expect_eq!(rest.as_str(), "stuck 1/9/2")?;
    // more endpoints than a table holds: a start and an opening of each, and 299 SYNs
    let many = order(rt.alloc(), 300)?;
    expect_eq!(many, (899, item(1, 2), item(299, 2)))
}
