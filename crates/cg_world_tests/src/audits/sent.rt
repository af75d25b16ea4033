//! Messages that are found, and not found, among those that were sent.
//!
//! They are ACK2s about A, 10.0.0.1:7000, or B, 10.0.0.2:7000, with one delta that has a heartbeat alone.

use cg_audit::SentMessages;
use cg_messages::{Ack2, Message, OwnerDelta};
use cg_testing::{A, B, bare_delta, endpoint, expect_eq};
use std::alloc::{AllocError, Global};
use std::test::Fail;

fn ack2(alloc: Global, about: u16, heartbeat: u32) -> Result<Message, Fail> {
    let mut deltas = Vec::new(alloc);
    deltas.push(OwnerDelta {
        endpoint: endpoint(about),
        delta: bare_delta(alloc, (1, 0, heartbeat))?,
    })?;
    Ok(Message::Ack2(Ack2::new(deltas).ok_or("an ACK2")?))
}

// Messages about A at 1, B at 1, A at 2, and A at 1 once more.
fn ack2s(alloc: Global) -> Result<Vec<Message>, Fail> {
    let mut messages = Vec::new(alloc);
    for (about, heartbeat) in [(A, 1), (B, 1), (A, 2), (A, 1)] {
        messages.push(ack2(alloc, about, heartbeat)?)?;
    }
    Ok(messages)
}

// For each of three messages `true` if it is found after two were sent, in their order.
fn found_of(
    alloc: Global,
    room: usize,
    [first, second]: [&Message; 2],
    asked: [&Message; 3],
) -> Result<[bool; 3], AllocError> {
    let sent = SentMessages::none(alloc, room)?;
    let sent = sent.with(first.borrowed())?;
    let sent = sent.with(second.borrowed())?;
    Ok(asked.map(|message: &Message| sent.contains(message.borrowed())))
}

// The same of an equal of the first that was sent, of the second, and of one that was not sent.
fn found(alloc: Global, room: usize) -> Result<[bool; 3], Fail> {
    let messages = ack2s(alloc)?;
    let [first, second, third, equal] = messages.as_slice() else {
        return Err(Fail::new("four messages"));
    };
    Ok(found_of(alloc, room, [first, second], [equal, second, third])?)
}

#[test]
fn messages_are_found_by_what_they_say(rt: HostRuntime) -> Result<(), Fail> {
    for room in [8, 0] {
        let found = found(rt.alloc(), room)?;
        expect_eq!(found, [true, true, false], "room {room}")?;
    }
    Ok(())
}
