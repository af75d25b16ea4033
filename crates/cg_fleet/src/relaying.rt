//! Exchanges of which messages are lost.

ghost use Rattle.std.specs.Prelude.{◌≡◌, Some, Ok, IfOk};
ghost use Rattle.cg_types.specs.Answer.{Answers};
ghost use Rattle.cg_messages.specs.Borrowed.{borrowed_message};
ghost use Rattle.cg_core.specs.Borrowed.{arrival_of};
ghost use Rattle.cg_core.specs.Step.{node_step};
ghost use Rattle.cg_fleet.specs.Relay.{relayed, exchanged};

use crate::carrying::carry;
use cg_core::{BorrowedEvent, Node, Reply};
use cg_messages::{BorrowedMessage, Message};
use cg_types::Fault;
use std::alloc::Global;

/// The number of messages of an exchange.
pub const WHOLE: u8 = 3;

/// The bytes that each side of an exchange sent, those of a lost message too.
#[derive(Clone, Copy, Debug, PartialEq, Eq)]
pub struct Sent {
    /// The bytes of the side that sent the first message.
    pub first: u64,
    /// The bytes of the other side.
    pub other: u64,
}

// Hands a message to a node, which takes the step of its arrival.
fn hand(alloc: Global, now: u64, node: &mut Node, message: &Message) -> Result<Reply, Fault>
    ensures { Answers (λ reply. (node.new, reply)) (node_step node.old (arrival_of now message.now)) result }
{
    let event = BorrowedEvent::arriving(message.borrowed(), now);
    let (after, reply) = node.stepped_borrowed(alloc, event)?;
    *node = after;
    Ok(reply)
}

/// Sends a message from one node to another, the answer back, and so on. The first `arrive` messages arrive; the one after
/// them is sent, and no node handles it.
///
/// Each message passes through its frame, whose bytes are counted for the node that sends it. A refusal of a node ends the
/// exchange; what was done before stays.
#[tactic(auto, using(crate::proofs::RelayLemmas::relayed_lost, crate::proofs::RelayLemmas::relayed_last, crate::proofs::RelayLemmas::relayed_more))]
pub fn relay(
    alloc: Global,
    now: u64,
    message: BorrowedMessage<'_>,
    from: &mut Node,
    to: &mut Node,
    arrive: u8,
) -> Result<Sent, Fault>
    ensures { IfOk result (λ sent. relayed now arrive (Some (borrowed_message message.entry)) from.old to.old
        ≡ Ok (exchanged from.new to.new sent)) }
{
    let (message, length) = carry(alloc, message)?;
    let first = length as u64;
    if arrive == 0 {
        return Ok(Sent { first, other: 0 });
    }
    let reply = hand(alloc, now, to, &message)?;
    let Some(answer) = reply.message() else {
        return Ok(Sent { first, other: 0 });
    };
    let back = relay(alloc, now, answer, to, from, arrive - 1)?;
    Ok(Sent {
        first: first.saturating_add(back.other),
        other: back.first,
    })
}
