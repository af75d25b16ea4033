//! The expected kind of message.

ghost use Rattle.std.specs.Prelude.{◌≡◌};
ghost use Rattle.cg_engine.specs.Expected as spec;

use cg_messages::{Ack, Ack2, Message, Syn};
use cg_types::{Cause, Fault};

/// The fault of a message of another kind than the expected one: its offset is that of the kind, after the length and
/// the layout.
pub const UNEXPECTED: Fault = Fault::BadFrame {
    place: 5,
    cause: Cause::Unexpected,
};

/// Returns the SYN of a message; the fault `UNEXPECTED` if it is of another kind.
pub fn expected_syn(message: Message) -> Result<Syn, Fault>
    ensures { result ≡ spec.expected_syn message }
{
    match message {
        Message::Syn(syn) => Ok(syn),
        Message::Ack(_) | Message::Ack2(_) => Err(UNEXPECTED),
    }
}

/// Returns the ACK of a message; the fault `UNEXPECTED` if it is of another kind.
pub fn expected_ack(message: Message) -> Result<Ack, Fault>
    ensures { result ≡ spec.expected_ack message }
{
    match message {
        Message::Ack(ack) => Ok(ack),
        Message::Syn(_) | Message::Ack2(_) => Err(UNEXPECTED),
    }
}

/// Returns the ACK2 of a message; the fault `UNEXPECTED` if it is of another kind.
pub fn expected_ack2(message: Message) -> Result<Ack2, Fault>
    ensures { result ≡ spec.expected_ack2 message }
{
    match message {
        Message::Ack2(ack2) => Ok(ack2),
        Message::Syn(_) | Message::Ack(_) => Err(UNEXPECTED),
    }
}
