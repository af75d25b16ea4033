//! Comparison of two messages that are passed by reference.

ghost use Rattle.std.specs.Prelude.{◌≡◌, ◌↔◌, IsTrue};
ghost use Rattle.cg_messages.specs.Borrowed.{borrowed_message};

use cg_messages::{Ack, Ack2, BorrowedMessage, Syn};

fn same_syn(one: &Syn, other: &Syn) -> bool
    ensures { IsTrue result ↔ (one.now ≡ other.now) }
{
    *one == *other
}

fn same_ack(one: &Ack, other: &Ack) -> bool
    ensures { IsTrue result ↔ (one.now ≡ other.now) }
{
    *one == *other
}

fn same_ack2(one: &Ack2, other: &Ack2) -> bool
    ensures { IsTrue result ↔ (one.now ≡ other.now) }
{
    *one == *other
}

/// Returns `true` if both messages are of one kind and equal.
pub(crate) fn is_same(one: BorrowedMessage<'_>, other: BorrowedMessage<'_>) -> bool
    ensures { IsTrue result ↔ (borrowed_message one.entry ≡ borrowed_message other.entry) }
{
    match (one, other) {
        (BorrowedMessage::Syn(ours), BorrowedMessage::Syn(theirs)) => same_syn(ours, theirs),
        (BorrowedMessage::Ack(ours), BorrowedMessage::Ack(theirs)) => same_ack(ours, theirs),
        (BorrowedMessage::Ack2(ours), BorrowedMessage::Ack2(theirs)) => same_ack2(ours, theirs),
        _ => false,
    }
}
