//! An exchange that brings a tombstone, the same bytes in layouts that have none, and a removal that a gate refuses.

use crate::samples::{initiate_over, joined, respond_over, started, step};
use cg_core::{Event, Node};
use cg_engine::{Broken, Ended, Gate, NodeGate, answer_frame, expected_syn};
use cg_exchange::syn;
use cg_frames::decode;
use cg_messages::{Ack2, OwnerDelta};
use cg_testing::{A, B, delta, endpoint, expect, expect_eq, key, state};
use cg_types::{Cause, Fault, StateText};
use std::alloc::Global;
use std::test::Fail;

// The token of the key a.
const TOKEN: &str = "0cc175b9c0f1b6a831c399e269772661";

// A's SYN at version 4.
const SYN_AT_4: &[u8] =
    b"\0\0\0\x16\x03\x01\x02c1\x01\0\x01\x0a\0\0\x01\x1b\x58\0\0\0\x09\0\0\0\x04";

// The ACK of an endpoint that holds A at version 3 and brings nothing, and that of B.
const ACK_AT_3: &[u8] = b"\0\0\0\x14\x03\x02\0\x01\x0a\0\0\x01\x1b\x58\0\0\0\x09\0\0\0\x03\0\0";

const ACK_OF_B: &[u8] =
    b"\0\0\0\x27\x03\x02\0\x01\x0a\0\0\x01\x1b\x58\0\0\0\x09\0\0\0\x03\0\x01\x0a\0\0\x02\x1b\x58\0\0\0\x05\0\0\0\0\0\0\0\x01\0";

// The ACK2 that brings the tombstone of A's key 1, in layout 3 and in the older layouts.
const ACK2_OF_A: &[u8] =
    b"\0\0\0\x1e\x03\x03\0\x01\x0a\0\0\x01\x1b\x58\0\0\0\x09\0\0\0\x03\0\0\0\x01\x01\x01\0\0\0\x04\xff\xff";

const ACK2_IN_LAYOUT_1: &[u8] =
    b"\0\0\0\x1e\x01\x03\0\x01\x0a\0\0\x01\x1b\x58\0\0\0\x09\0\0\0\x03\0\0\0\x01\x01\x01\0\0\0\x04\xff\xff";

const ACK2_IN_LAYOUT_2: &[u8] =
    b"\0\0\0\x1e\x02\x03\0\x01\x0a\0\0\x01\x1b\x58\0\0\0\x09\0\0\0\x03\0\0\0\x01\x01\x01\0\0\0\x04\xff\xff";

// SYNs with a digest of A at version 2 and at 3, and one of nothing.
const SYN_AT_2: &[u8] =
    b"\0\0\0\x16\x03\x01\x02c1\x01\0\x01\x0a\0\0\x01\x1b\x58\0\0\0\x09\0\0\0\x02";

const SYN_AT_3: &[u8] =
    b"\0\0\0\x16\x03\x01\x02c1\x01\0\x01\x0a\0\0\x01\x1b\x58\0\0\0\x09\0\0\0\x03";

const SYN_OF_NOBODY: &[u8] = b"\0\0\0\x08\x03\x01\x02c1\x01\0\0";

// A's answers: the last state that was set, the tombstone, and all that is held, before and after the removal.
const LAST_OF_A: &[u8] =
    b"\0\0\0\x26\x03\x02\0\0\0\x01\x0a\0\0\x01\x1b\x58\0\0\0\x09\0\0\0\x02\0\0\0\x01\x01\x01\0\0\0\x03\0\x06NORMAL";

const TOMBSTONE_OF_A: &[u8] =
    b"\0\0\0\x20\x03\x02\0\0\0\x01\x0a\0\0\x01\x1b\x58\0\0\0\x09\0\0\0\x03\0\0\0\x01\x01\x01\0\0\0\x04\xff\xff";

const WHOLE_A: &[u8] =
    b"\0\0\0\x4d\x03\x02\0\0\0\x01\x0a\0\0\x01\x1b\x58\0\0\0\x09\0\0\0\0\0\0\0\x01\x02\x01\0\0\0\x03\0\x06NORMAL\x02\0\0\0\x02\0\x200cc175b9c0f1b6a831c399e269772661";

const WHOLE_A_REMOVED: &[u8] =
    b"\0\0\0\x47\x03\x02\0\0\0\x01\x0a\0\0\x01\x1b\x58\0\0\0\x09\0\0\0\0\0\0\0\x01\x02\x01\0\0\0\x04\xff\xff\x02\0\0\0\x02\0\x200cc175b9c0f1b6a831c399e269772661";

// Sets a key of a node to a text.
fn set(alloc: Global, node: &mut Node, number: u8, text: &str) -> Result<(), Fail> {
    let event = Event::Set {
        key: key(number),
        text: StateText::new(alloc, text)?,
    };
    step(alloc, node, event)
}

// A in generation 9, which sets key 2 (version 2) and key 1 (3).
fn with_two_keys(alloc: Global) -> Result<Node, Fail> {
    let mut node = started(alloc, A, 9)?;
    set(alloc, &mut node, 2, TOKEN)?;
    set(alloc, &mut node, 1, "NORMAL")?;
    Ok(node)
}

// The same, which then removes key 1 (4).
fn with_key_1_removed(alloc: Global) -> Result<Node, Fail> {
    let mut node = with_two_keys(alloc)?;
    step(alloc, &mut node, Event::Remove { key: key(1) })?;
    Ok(node)
}

// Returns `true` if a node's answer to the frame of a SYN is this frame, in a buffer that had other bytes.
fn is_answered(alloc: Global, node: &Node, frame: &[u8], answer: &[u8]) -> Result<bool, Fail> {
    let (message, _size) = decode(alloc, frame)?.ok_or("a whole frame")?;
    let syn = expected_syn(message)?;
    let buffer = Vec::from_slice(alloc, TOKEN.as_bytes())?;
    let written = answer_frame(alloc, node.table(), syn.cluster(), &syn, buffer)?;
    Ok(written.as_slice() == answer)
}

// Expects that a node answers the frame of each of two SYNs with the frame beside it.
fn expect_answers(alloc: Global, node: &Node, rows: [(&[u8], &[u8]); 2]) -> Result<(), Fail> {
    for (frame, answer) in rows {
        expect!(is_answered(alloc, node, frame, answer)?)?;
    }
    Ok(())
}

#[test]
fn answers_are_written_from_tables(rt: HostRuntime) -> Result<(), Fail> {
    let alloc = rt.alloc();
    let of_whole = [(SYN_AT_2, LAST_OF_A), (SYN_OF_NOBODY, WHOLE_A)];
    expect_answers(alloc, &with_two_keys(alloc)?, of_whole)?;
    let of_removed = [(SYN_AT_3, TOMBSTONE_OF_A), (SYN_OF_NOBODY, WHOLE_A_REMOVED)];
    expect_answers(alloc, &with_key_1_removed(alloc)?, of_removed)
}

// The end of an exchange that A opens, and the bytes that it writes.
fn opened(alloc: Global) -> Result<(Result<Ended, Broken>, Vec<u8>), Fail> {
    let node = with_key_1_removed(alloc)?;
    let first = syn(alloc, node.table(), node.settings().cluster())?;
    let mut gate = NodeGate::new(node);
    let (ended, _reader, writer) = initiate_over(
        alloc,
        &mut gate,
        1000,
        &first,
        ACK_AT_3,
        Vec::new(alloc),
    );
    Ok((ended, writer.into_link()))
}

// Its end, and `true` if its bytes are A's SYN and the ACK2 with the tombstone.
fn opened_with_tombstone(alloc: Global) -> Result<(Result<Ended, Broken>, bool), Fail> {
    let (ended, written) = opened(alloc)?;
    let due = joined(alloc, &[SYN_AT_4, ACK2_OF_A])?;
    Ok((ended, written.as_slice() == due.as_slice()))
}

#[test]
fn a_tombstone_is_written(rt: HostRuntime) -> Result<(), Fail> {
    let seen = opened_with_tombstone(rt.alloc())?;
    expect_eq!(seen, (Ok(Ended::Whole), true))
}

// A as it was at version 3.
fn before_the_removal(alloc: Global) -> Result<Ack2, Fail> {
    let mut states = Vec::new(alloc);
    states.push(state(alloc, 1, 3, "NORMAL")?)?;
    states.push(state(alloc, 2, 2, TOKEN)?)?;
    let mut deltas = Vec::new(alloc);
    deltas.push(OwnerDelta {
        endpoint: endpoint(A),
        delta: delta((9, 0, 1), states)?,
    })?;
    Ok(Ack2::new(deltas).ok_or("an ACK2")?)
}

// B in generation 5, which holds A at version 3.
fn holder(alloc: Global) -> Result<Node, Fail> {
    let mut node = started(alloc, B, 5)?;
    let m = before_the_removal(alloc)?;
    step(alloc, &mut node, Event::Ack2 { now: 500, m })?;
    Ok(node)
}

// What a node holds of A: the newest version, that of key 1 with a test that it has a text, and the number of tokens
// in its ring.
type Shown = (u32, Option<(u32, bool)>, usize);

fn shown(node: &Node) -> Option<Shown> {
    let entry = node.table().get(endpoint(A))?;
    let first = match entry.state(key(1)) {
        Some((text, version)) => Some((version.get(), text.is_some())),
        None => None,
    };
    Some((entry.newest().get(), first, node.ring().positions().len()))
}

// The end of an exchange that B answers, in which A sends this ACK2, what B then holds, and a test that it wrote its
// ACK.
fn answered(
    alloc: Global,
    ack2: &[u8],
) -> Result<(Result<Ended, Broken>, Option<Shown>, bool), Fail> {
    let input = joined(alloc, &[SYN_AT_4, ack2])?;
    let mut gate = NodeGate::new(holder(alloc)?);
    let (ended, _reader, writer) = respond_over(
        alloc,
        &mut gate,
        1000,
        input.as_slice(),
        Vec::new(alloc),
    );
    let written = writer.into_link();
    Ok((ended, shown(gate.node()), written.as_slice() == ACK_OF_B))
}

#[test]
fn a_tombstone_is_taken(rt: HostRuntime) -> Result<(), Fail> {
    let seen = answered(rt.alloc(), ACK2_OF_A)?;
    let held = Some((4, Some((4, false)), 0));
    expect_eq!(seen, (Ok(Ended::Whole), held, true))
}

#[test]
fn older_layouts_have_no_tombstone(rt: HostRuntime) -> Result<(), Fail> {
    let fault = Fault::BadFrame {
        place: 32,
        cause: Cause::Text,
    };
    let held = Some((3, Some((3, true)), 1));
    for frame in [ACK2_IN_LAYOUT_1, ACK2_IN_LAYOUT_2] {
        let seen = answered(rt.alloc(), frame)?;
        expect_eq!(seen, (Err(Broken { done: 1, fault }), held, true))?;
    }
    Ok(())
}

// The fault with which a gate refuses the same removal once more, and what its node then holds of A.
fn removed_again(alloc: Global) -> Result<(Option<Fault>, Option<Shown>), Fail> {
    let mut gate = NodeGate::new(with_key_1_removed(alloc)?);
    let fault = gate.event(alloc, Event::Remove { key: key(1) }).err();
    Ok((fault, shown(gate.node())))
}

#[test]
fn a_gate_refuses_a_removal_of_no_text(rt: HostRuntime) -> Result<(), Fail> {
    let again = removed_again(rt.alloc())?;
    let held = Some((4, Some((4, false)), 0));
    expect_eq!(again, (Some(Fault::NoSuchKey), held))
}
