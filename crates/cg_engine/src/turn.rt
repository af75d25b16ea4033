//! One turn of an exchange: a message is read, its event is done, and the message of the reply is written.

ghost use Rattle.std.specs.Prelude.{◌≡◌, IfSome};
ghost use Rattle.cg_links.specs.Counted.{link_of};
ghost use Rattle.cg_engine.specs.Sent.{Sends};
ghost use Rattle.cg_engine.specs.Events as spec;
ghost use Rattle.cg_engine.specs.Events.{written_for};
ghost use Rattle.cg_engine.specs.Turns.{TakesEvent};

use crate::expected::{expected_ack, expected_ack2, expected_syn};
use crate::gate::Gate;
use crate::receiving::receive;
use crate::sending::send;
use cg_core::{Event, Reply};
use cg_links::Counted;
use cg_messages::{BorrowedMessage, Kind, Message};
use cg_types::Fault;
use std::alloc::Global;
use std::io::{Read, Write};

// Makes the event of a message of the expected kind, which comes at a time.
fn expected_event(kind: Kind, now: u64, message: Message) -> Result<Event, Fault>
    ensures { result ≡ spec.expected_event kind now message }
{
    match kind {
        Kind::Syn => match expected_syn(message) {
            Ok(m) => Ok(Event::Syn { m }),
            Err(fault) => Err(fault),
        },
        Kind::Ack => match expected_ack(message) {
            Ok(m) => Ok(Event::Ack { now, m }),
            Err(fault) => Err(fault),
        },
        Kind::Ack2 => match expected_ack2(message) {
            Ok(m) => Ok(Event::Ack2 { now, m }),
            Err(fault) => Err(fault),
        },
    }
}

/// Reads the expected message, and does its event at this time. `false` if the input ends before it.
pub(crate) fn take_event<G: Gate, R: Read>(
    alloc: Global,
    gate: &mut G,
    kind: Kind,
    now: u64,
    reader: &mut Counted<R>,
) -> Result<bool, Fault>
    ensures { TakesEvent G.does G.refuses G.stays G.last kind now (R.remaining (link_of reader.old))
        (R.remaining (link_of reader.new)) reader.old reader.new gate.old gate.new result }
{
    let message = match receive(alloc, reader) {
        Ok(Some(message)) => message,
        Ok(None) => return Ok(false),
        Err(fault) => return Err(fault),
    };
    let event = match expected_event(kind, now, message) {
        Ok(event) => event,
        Err(fault) => return Err(fault),
    };
    match gate.event(alloc, event) {
        Ok(()) => Ok(true),
        Err(fault) => Err(fault),
    }
}

// Writes the message that a reply holds, if it holds one.
fn send_reply<W: Write>(alloc: Global, writer: &mut Counted<W>, reply: &Reply) -> Result<(), Fault>
    ensures { Sends (W.contents (link_of writer.old)) (W.contents (link_of writer.new)) writer.old writer.new
        (written_for reply.now) result }
{
    match reply {
        Reply::Sent(message) => send(alloc, writer, message.borrowed()),
        Reply::Round { syn, .. } => send(alloc, writer, BorrowedMessage::Syn(syn)),
        Reply::Both { ack2, .. } => send(alloc, writer, BorrowedMessage::Ack2(ack2)),
        Reply::Done(_) | Reply::Took(_) => Ok(()),
    }
}

/// Writes the message that the last reply holds, if it holds one.
pub(crate) fn send_last<G: Gate, W: Write>(
    alloc: Global,
    gate: &G,
    writer: &mut Counted<W>,
) -> Result<(), Fault>
    ensures { IfSome (G.last gate.now) (λ r. Sends (W.contents (link_of writer.old)) (W.contents (link_of writer.new))
        writer.old writer.new (written_for r) result) }
{
    match gate.reply() {
        Some(reply) => send_reply(alloc, writer, reply),
        None => Ok(()),
    }
}
