//! Lengths of the spellings of messages. None of this takes memory.

ghost use Rattle.std.specs.Prelude.{◌≡◌, ◌<◌, ◌+◌, ◌^◌, length};
ghost use Rattle.cg_messages.specs.declared.message.Message.TheVariants as messages;
ghost use Rattle.cg_messages.specs.Borrowed.{borrowed_message};
ghost use Rattle.cg_frames.specs.Spelling as spec;

use cg_entry::Digest;
use cg_messages::{Ack, Ack2, BorrowedMessage, OwnerDelta, Request, Syn};

/// The length of a digest, and that of a request.
pub(crate) const MEMBER_LENGTH: usize = 14;

/// The least length of a delta: its length without its states.
pub(crate) const DELTA_LEAST: usize = 19;

/// The least length of a state: its length without its text.
pub(crate) const STATE_LEAST: usize = 7;

fn digests_length(digests: &[Digest]) -> usize
    requires { length (spec.members spec.digest digests.now) < 2 ^ 32 }
    ensures { result ≡ length (spec.members spec.digest digests.now) }
{
    2 + MEMBER_LENGTH * digests.len()
}

fn requests_length(requests: &[Request]) -> usize
    requires { length (spec.members spec.request requests.now) < 2 ^ 32 }
    ensures { result ≡ length (spec.members spec.request requests.now) }
{
    2 + MEMBER_LENGTH * requests.len()
}

fn delta_length(delta: &OwnerDelta) -> usize
    requires { length (spec.delta delta.now) < 2 ^ 32 }
    ensures { result ≡ length (spec.delta delta.now) }
{
    DELTA_LEAST + STATE_LEAST * delta.delta.count() + delta.delta.text_bytes()
}

fn deltas_length(deltas: &[OwnerDelta]) -> usize
    requires { length (spec.members spec.delta deltas.now) < 2 ^ 32 }
    ensures { result ≡ length (spec.members spec.delta deltas.now) }
{
    let mut length = 2;
    for delta in deltas {
        length += delta_length(delta);
    }
    length
}

fn syn_length(syn: &Syn) -> usize
    requires { length (spec.message (messages.Syn syn.now)) < 2 ^ 32 }
    ensures { result ≡ length (spec.message (messages.Syn syn.now)) }
{
    3 + syn.cluster().name().len() + digests_length(syn.digests())
}

fn ack_length(ack: &Ack) -> usize
    requires { length (spec.message (messages.Ack ack.now)) < 2 ^ 32 }
    ensures { result ≡ length (spec.message (messages.Ack ack.now)) }
{
    1 + requests_length(ack.requests()) + deltas_length(ack.deltas())
}

fn ack2_length(ack2: &Ack2) -> usize
    requires { length (spec.message (messages.Ack2 ack2.now)) < 2 ^ 32 }
    ensures { result ≡ length (spec.message (messages.Ack2 ack2.now)) }
{
    1 + deltas_length(ack2.deltas())
}

/// The length of the message with its kind: a byte may come before it.
pub(crate) fn message_length(message: BorrowedMessage<'_>) -> usize
    requires { 1 + length (spec.message (borrowed_message message)) < 2 ^ 32 }
    ensures value { result ≡ length (spec.message (borrowed_message message.entry)) }
    ensures short { 1 + result < 2 ^ 32 }
{
    match message {
        BorrowedMessage::Syn(syn) => syn_length(syn),
        BorrowedMessage::Ack(ack) => ack_length(ack),
        BorrowedMessage::Ack2(ack2) => ack2_length(ack2),
    }
}
