//! The weight of a record in memory.

ghost use Rattle.std.specs.Prelude.{◌≡◌, ◌-◌, ◌+◌, ◌*◌, ◌^◌, min};
ghost use Rattle.cg_core.specs.Sending.{message_of};
ghost use Rattle.cg_write_ahead.specs.Weights.{members_in, members_sent, weight_of_both};
ghost use Rattle.cg_messages.specs.Borrowed.{borrowed_message};

use crate::limits::MEMBER_WEIGHT;
use cg_core::Reply;
use cg_messages::BorrowedMessage;

// Returns the number of members that a message names, up to the greatest number.
fn members_in(message: BorrowedMessage<'_>) -> u64
    ensures { result ≡ min (members_in (borrowed_message message.entry)) (2 ^ 64 - 1) }
{
    match message {
        BorrowedMessage::Syn(m) => m.digests().len() as u64,
        BorrowedMessage::Ack(m) => (m.requests().len() as u64).saturating_add(
            m.deltas().len() as u64,
        ),
        BorrowedMessage::Ack2(m) => m.deltas().len() as u64,
    }
}

fn members_sent(reply: &Reply) -> u64
    ensures { result ≡ min (members_sent (message_of reply.now)) (2 ^ 64 - 1) }
{
    match reply.message() {
        Some(message) => members_in(message),
        None => 0,
    }
}

/// Returns a weight more by that of a record with a line of this length and this reply, up to the greatest number.
pub(crate) fn with_record(weight: u64, line: usize, reply: &Reply) -> u64
    ensures { result ≡ min (weight + line + MEMBER_WEIGHT * members_sent (message_of reply.now)) (2 ^ 64 - 1) }
{
    let members = MEMBER_WEIGHT.saturating_mul(members_sent(reply));
    weight.saturating_add(line as u64).saturating_add(members)
}
