//! Rounds that are sent: peers dialed, numbers returned, exchanges broken, and the end of the sender's work.

use crate::samples::{ACK, SYN, Standing, owners, started};
use cg_core::Peers;
use cg_engine::{NodeGate, expected_syn};
use cg_frames::decode;
use cg_messages::Syn;
use cg_testing::{A, B, endpoint, expect, expect_eq};
use cg_types::{Endpoint, Fault};
use cg_workers::{Dial, Round, reach, rounds, sender};
use std::alloc::Global;
use std::sync::Wait;
use std::test::Fail;

// A dialer that reaches one peer, of which these bytes are read, and no other. It keeps the endpoints that it was to
// reach.
#[derive(Drop)]
struct Book {
    alloc: Global,
    reached: Endpoint,
    bytes: &'static [u8],
    dialed: Vec<Endpoint>,
}

impl Dial for Book {
    type Reader = &'static [u8];

    type Writer = Vec<u8>;

    fn dial(&mut self, peer: Endpoint) -> Result<(&'static [u8], Vec<u8>), Fault> {
        if self.dialed.push(peer).is_err() {
            return Err(Fault::OutOfMemory);
        }
        if peer == self.reached {
            Ok((self.bytes, Vec::new(self.alloc)))
        } else {
            Err(Fault::ReadFault)
        }
    }
}

// A's SYN.
fn opening(alloc: Global) -> Result<Syn, Fail> {
    let (message, _size) = decode(alloc, SYN)?.ok_or("a whole frame")?;
    Ok(expected_syn(message)?)
}

// A round of this number, for the endpoints of these.
fn round(alloc: Global, number: u64, peers: &[u16]) -> Result<Round, Fail> {
    let mut endpoints = Vec::new(alloc);
    for peer in peers {
        endpoints.push(endpoint(*peer))?;
    }
    Ok(Round {
        peers: Peers::of(endpoints),
        syn: opening(alloc)?,
        number,
    })
}

// The numbers that A returns for two rounds, the peers that it dialed, the number of owners that it holds at the end,
// and `true` if both rounds were put in.
type Came = (Vec<u64>, Vec<Endpoint>, usize, bool);

// The outcome of two rounds at a gate that reaches B alone: the numbers, the peers dialed, and `true` if both were put
// in.
fn sent_from<R: Wait>(
    rt: &R,
    alloc: Global,
    gate: &mut NodeGate,
    two: (Round, Round),
    bytes: &'static [u8],
) -> Result<(Vec<u64>, Vec<Endpoint>, bool), Fail> {
    let (first, second) = two;
    let (mut putting, mut taking) = rounds(alloc)?;
    let is_first = putting.put(rt, first).is_ok();
    let is_second = putting.put(rt, second).is_ok();
    putting.end(rt);
    let mut dialer = Book {
        alloc,
        reached: endpoint(B),
        bytes,
        dialed: Vec::new(alloc),
    };
    let numbers = sender(rt, alloc, gate, &mut dialer, &Standing(1000), &mut taking);
    let Book { dialed, .. } = dialer;
    Ok((numbers, dialed, is_first && is_second))
}

// The same of a round of number 5 for these peers, and one of number 9 for those, at A.
fn sent<R: Wait>(
    rt: &R,
    alloc: Global,
    these: &[u16],
    those: &[u16],
    bytes: &'static [u8],
) -> Result<Came, Fail> {
    let two = (round(alloc, 5, these)?, round(alloc, 9, those)?);
    let mut gate = started(alloc, A, 9)?;
    let (numbers, dialed, are_put) = sent_from(rt, alloc, &mut gate, two, bytes)?;
    Ok((numbers, dialed, owners(&gate), are_put))
}

// Tests whether these were dialed, in this order.
fn are(dialed: &[Endpoint], due: &[u16]) -> bool {
    dialed.len() == due.len()
        && dialed
            .iter()
            .zip(due.iter())
            .all(|(one, other)| *one == endpoint(*other))
}

#[test]
fn each_peer_is_dialed_and_each_number_answered(rt: HostRuntime) -> Result<(), Fail> {
    let (numbers, dialed, held, put) = sent(&rt, rt.alloc(), &[3, B], &[B], ACK)?;
    expect!(put && numbers.as_slice() == [5, 9].as_slice())?;
    expect!(are(&dialed, &[3, B, B]))?;
    expect_eq!(held, 2)
}

#[test]
fn a_round_counts_where_no_peer_is_reached(rt: HostRuntime) -> Result<(), Fail> {
    let (numbers, dialed, held, put) = sent(&rt, rt.alloc(), &[3, 4], &[], ACK)?;
    expect!(put && numbers.as_slice() == [5, 9].as_slice())?;
    expect!(are(&dialed, &[3, 4]))?;
    expect_eq!(held, 1)
}

#[test]
fn a_broken_exchange_ends_itself_alone(rt: HostRuntime) -> Result<(), Fail> {
    let (numbers, dialed, held, put) = sent(
        &rt,
        rt.alloc(),
        &[B, 3],
        &[4],
        b"\x00\x00\x00\x01\xff",
    )?;
    expect!(put && numbers.as_slice() == [5, 9].as_slice())?;
    expect!(are(&dialed, &[B, 3, 4]))?;
    expect_eq!(held, 1)
}

// The number of rounds that A takes if there are none and nobody can put any in any more, and the number of rounds for
// which it made room.
fn taken<R: Wait>(rt: &R, alloc: Global) -> Result<(usize, usize), Fail> {
    let mut gate = started(alloc, A, 9)?;
    let mut dialer = Book {
        alloc,
        reached: endpoint(B),
        bytes: ACK,
        dialed: Vec::new(alloc),
    };
    let (putting, mut taking) = rounds(alloc)?;
    drop(putting);
    let numbers = sender(
        rt,
        alloc,
        &mut gate,
        &mut dialer,
        &Standing(1000),
        &mut taking,
    );
    Ok((numbers.len(), numbers.capacity()))
}

#[test]
fn it_ends_where_nobody_puts_any_in(rt: HostRuntime) -> Result<(), Fail> {
    let (taken, room) = taken(&rt, rt.alloc())?;
    expect!(taken == 0 && room >= 1_000_000, "{room}")
}

// The fault that breaks off an exchange of A with a peer of which these bytes are read, if one does, and the number of
// owners that A holds then.
fn reached(alloc: Global, peer: u16, bytes: &'static [u8]) -> Result<(Option<Fault>, usize), Fail> {
    let mut gate = started(alloc, A, 9)?;
    let mut dialer = Book {
        alloc,
        reached: endpoint(B),
        bytes,
        dialed: Vec::new(alloc),
    };
    let syn = opening(alloc)?;
    let broken = reach(
        alloc,
        &mut gate,
        &mut dialer,
        &Standing(1000),
        &syn,
        endpoint(peer),
    );
    Ok((broken, owners(&gate)))
}

#[test]
fn a_peer_tells_what_broke_its_exchange_off(rt: HostRuntime) -> Result<(), Fail> {
    let alloc = rt.alloc();
    let cut = ACK.get(..9).ok_or("nine bytes")?;
    expect_eq!(reached(alloc, B, ACK)?, (None, 2))?;
    expect_eq!(reached(alloc, B, cut)?, (Some(Fault::Truncated), 1))?;
    expect_eq!(reached(alloc, 3, ACK)?, (None, 1))
}
