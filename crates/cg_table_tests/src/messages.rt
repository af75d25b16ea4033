//! Messages made, copied and compared, and lists that no message takes.

use crate::samples::{ack_of, ack2_of, below, syn_of};
use cg_exchange::{Message, Request};
use cg_messages::{Ack, Ack2, Kind, Syn};
use cg_testing::{A, B, C, cluster, endpoint, expect_eq, generation};
use cg_types::{MEMBER_LIMIT, NUMBER_LIMIT};
use std::alloc::{AllocError, Global};
use std::test::Fail;

#[test]
fn a_request_has_its_parts() -> Result<(), Fail> {
    let (owner, at) = (endpoint(A), generation(9));
    let request = Request::new(owner, at, 2).ok_or("a request")?;
    let parts = (request.endpoint(), request.generation(), request.version());
    expect_eq!(parts, (owner, at, 2))?;
    expect_eq!(Request::new(owner, at, NUMBER_LIMIT), None)
}

#[test]
fn messages_of_empty_lists(rt: HostRuntime) -> Result<(), Fail> {
    let syn = Syn::of_parts(cluster(rt.alloc())?, Vec::new(rt.alloc()));
    expect_eq!((syn.digests().len(), syn.cluster().name()), (0, "c1"))?;
    let ack = Ack::of_parts(Vec::new(rt.alloc()), Vec::new(rt.alloc()));
    expect_eq!((ack.requests().len(), ack.deltas().len()), (0, 0))?;
    expect_eq!(Ack2::of_parts(Vec::new(rt.alloc())).deltas().len(), 0)
}

// ---- the lists that a message takes

// Tests whether digests of these owners may be in a SYN, which then has them, and the cluster's name.
fn syn_takes(alloc: Global, owners: &[u16]) -> Result<bool, Fail> {
    Ok(match syn_of(alloc, ("c1", 1), owners, (9, 1))? {
        Some(syn) => syn.digests().len() == owners.len() && syn.cluster().name() == "c1",
        None => false,
    })
}

// Tests whether requests of these owners and deltas of those may be in an ACK.
fn ack_takes(alloc: Global, asked: &[u16], sent: &[u16]) -> Result<bool, Fail> {
    let ack = ack_of(alloc, (asked, (9, 0)), (sent, (9, 0, 1)))?;
    Ok(ack.is_some())
}

// Tests whether a list of these owners may be in a SYN, in an ACK as requests, as deltas and as both, and in an ACK2.
fn takers(alloc: Global, owners: &[u16]) -> Result<[bool; 5], Fail> {
    let syn = syn_takes(alloc, owners)?;
    let asked = ack_takes(alloc, owners, &[])?;
    let sent = ack_takes(alloc, &[], owners)?;
    let both = ack_takes(alloc, owners, owners)?;
    let ack2 = ack2_of(alloc, owners, (9, 0, 1))?;
    Ok([syn, asked, sent, both, ack2.is_some()])
}

#[test]
fn lists_are_few(rt: HostRuntime) -> Result<(), Fail> {
    for (count, few) in [(0, true), (512, true), (513, false)] {
        let owners = below(rt.alloc(), count)?;
        expect_eq!(takers(rt.alloc(), &owners)?, [few; 5])?;
    }
    expect_eq!(MEMBER_LIMIT, 512)
}

#[test]
fn lists_rise(rt: HostRuntime) -> Result<(), Fail> {
    for (owners, rise) in [([A, B], true), ([A, A], false), ([B, A], false)] {
        expect_eq!(takers(rt.alloc(), &owners)?, [rise; 5])?;
    }
    Ok(())
}

// ---- equality and copies

// A message's kind, a SYN's cluster, the owners in its first list and in its second, and its deltas. The second list is
// the only one of an ACK2. Of a delta: the generation, the version that it is above, and the heartbeat version.
type Told = (
    Kind,
    (&'static str, u8),
    &'static [u16],
    &'static [u16],
    (u32, u32, u32),
);

fn message(alloc: Global, told: Told) -> Result<Message, Fail> {
    let (kind, cluster, first, second, of) = told;
    Ok(match kind {
        Kind::Syn => Message::Syn(syn_of(alloc, cluster, first, (9, 1))?.ok_or("a SYN")?),
        Kind::Ack => {
            let ack = ack_of(alloc, (first, (9, 0)), (second, of))?;
            Message::Ack(ack.ok_or("an ACK")?)
        }
        Kind::Ack2 => Message::Ack2(ack2_of(alloc, second, of)?.ok_or("an ACK2")?),
    })
}

// Messages, no two of them the same.
fn all() -> [Told; 16] {
    let (none, whole) = (("", 0), (9, 0, 1));
    [
        (Kind::Syn, ("c1", 1), &[A, B], &[], whole),
        (Kind::Syn, ("c2", 1), &[A, B], &[], whole),
        (Kind::Syn, ("c1", 2), &[A, B], &[], whole),
        (Kind::Syn, ("c1", 1), &[A], &[], whole),
        (Kind::Ack, none, &[A, B], &[A, B, C], whole),
        (Kind::Ack, none, &[A], &[A, B, C], whole),
        (Kind::Ack, none, &[A, B], &[A, B], whole),
        (Kind::Ack, none, &[], &[A, B, C], whole),
        (Kind::Ack2, none, &[], &[A, B, C], whole),
        (Kind::Ack2, none, &[], &[A, B], whole),
        (Kind::Ack2, none, &[], &[], whole),
        (Kind::Ack2, none, &[], &[A], (9, 2, 4)),
        (Kind::Ack2, none, &[], &[B], (9, 2, 4)),
        (Kind::Ack2, none, &[], &[A], (8, 2, 4)),
        (Kind::Ack2, none, &[], &[A], (9, 1, 4)),
        (Kind::Ack2, none, &[], &[A], (9, 2, 5)),
    ]
}

fn are_equal(alloc: Global, one: Told, other: Told) -> Result<bool, Fail> {
    let one = message(alloc, one)?;
    Ok(one == message(alloc, other)?)
}

#[test]
fn messages_differ_by_kind_and_what_they_carry(rt: HostRuntime) -> Result<(), Fail> {
    let all = all();
    for (i, one) in all.iter().enumerate() {
        for (j, other) in all.iter().enumerate() {
            expect_eq!(are_equal(rt.alloc(), *one, *other)?, i == j, "{i} and {j}")?;
        }
    }
    Ok(())
}

// Tests whether a message equals its copy, the copy of its contents, and its copy if it is borrowed.
fn copies_equal(alloc: Global, message: &Message) -> Result<[bool; 3], AllocError> {
    let part = match message {
        Message::Syn(syn) => syn.copy(alloc)? == *syn,
        Message::Ack(ack) => ack.copy(alloc)? == *ack,
        Message::Ack2(ack2) => ack2.copy(alloc)? == *ack2,
    };
    let whole = message.copy(alloc)? == *message;
    Ok([whole, part, message.borrowed().copy(alloc)? == *message])
}

#[test]
fn messages_equal_their_copies(rt: HostRuntime) -> Result<(), Fail> {
    for told in all() {
        let message = message(rt.alloc(), told)?;
        let equal = copies_equal(rt.alloc(), &message)?;
        expect_eq!((message.kind(), equal), (told.0, [true; 3]))?;
    }
    Ok(())
}

#[test]
fn names_of_kinds() -> Result<(), Fail> {
    let names = (Kind::Syn.name(), Kind::Ack.name(), Kind::Ack2.name());
    expect_eq!(names, ("syn", "ack", "ack2"))
}
