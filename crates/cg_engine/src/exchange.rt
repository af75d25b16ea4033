//! Whole exchanges, of which one side begins and the other answers.

ghost use Rattle.std.specs.Prelude.{◌≡◌, [], ◌∷◌, length, ◌<◌, ◌^◌};
ghost use Rattle.cg_messages.specs.declared.message.Message.TheVariants as messages;
ghost use Rattle.cg_frames.specs.declared.layout.TheConstants.{WRITTEN};
ghost use Rattle.cg_frames.specs.Spelling.{frame};
ghost use Rattle.cg_links.specs.Counted.{link_of, failed_of, idle_of};
ghost use Rattle.cg_messages.specs.declared.kind.Kind.TheVariants as message_kinds;
ghost use Rattle.cg_engine.specs.Exchanged.{Exchanges};

use crate::gate::Gate;
use crate::sending::send;
use crate::turn::{send_last, take_event};
use cg_links::Counted;
use cg_messages::{BorrowedMessage, Kind, Syn};
use cg_types::Fault;
use std::alloc::Global;
use std::io::{Read, Write};
use thiserror::Error;

/// The end of an exchange.
#[derive(Clone, Copy, Debug, PartialEq, Eq)]
pub enum Ended {
    /// Each message came, and its event was done.
    Whole,
    /// The input ended where a message would begin, after this number of events.
    Closed(u32),
}

/// An exchange that broke off: the number of events done before, and the fault.
#[derive(Clone, Copy, Debug, PartialEq, Eq, Error)]
#[error("the exchange broke off after {done} events: {fault}")]
pub struct Broken {
    /// The number of events done.
    pub done: u32,
    /// The fault that broke it off.
    pub fault: Fault,
}

// Takes turns: reads a message of each of these kinds, does its event, and writes the message of its reply.
fn take_turns<G: Gate, R: Read, W: Write>(
    alloc: Global,
    gate: &mut G,
    kinds: &[Kind],
    now: u64,
    reader: &mut Counted<R>,
    writer: &mut Counted<W>,
) -> Result<Ended, Broken>
    requires { length kinds.now < 2 ^ 32 }
    ensures { Exchanges G.does G.refuses G.stays kinds.now now []
        (R.remaining (link_of reader.old)) (R.remaining (link_of reader.new))
        (W.contents (link_of writer.old)) (W.contents (link_of writer.new))
        reader.old reader.new writer.old writer.new gate.old gate.new result }
{
    let mut done: u32 = 0;
    for kind in kinds {
        match take_event(alloc, gate, *kind, now, reader) {
            Ok(true) => done += 1,
            Ok(false) => return Ok(Ended::Closed(done)),
            Err(fault) => return Err(Broken { done, fault }),
        }
        if let Err(fault) = send_last(alloc, gate, writer) {
            return Err(Broken { done, fault });
        }
    }
    Ok(Ended::Whole)
}

/// Answers an exchange that another side begins: reads a SYN, does its event, writes the ACK, reads an ACK2, and does
/// its event.
///
/// `now` is the time of these events, in milliseconds of the gate's clock. `Closed` if the input ends where a message
/// would begin. The bytes written are a prefix of the expected messages, and each message is flushed. No byte after the
/// last message is read.
///
/// The exchange is broken off by a refusal of the gate (`VersionsSpent`, `TableFull`, `OtherCluster`) and by
/// `OutOfMemory`, `Truncated`, `ReadFault`, `WriteFault` and `BadFrame` (at 5, Unexpected, if the message is of another
/// kind).
pub fn respond<G: Gate, R: Read, W: Write>(
    alloc: Global,
    gate: &mut G,
    now: u64,
    reader: &mut Counted<R>,
    writer: &mut Counted<W>,
) -> Result<Ended, Broken>
    requires read { failed_of reader.old ≡ 0 }
    requires written { failed_of writer.old ≡ 0 }
    requires taken { idle_of writer.old ≡ 0 }
    ensures { Exchanges G.does G.refuses G.stays (message_kinds.Syn ∷ (message_kinds.Ack2 ∷ [])) now []
        (R.remaining (link_of reader.old)) (R.remaining (link_of reader.new))
        (W.contents (link_of writer.old)) (W.contents (link_of writer.new))
        reader.old reader.new writer.old writer.new gate.old gate.new result }
{
    take_turns(alloc, gate, &[Kind::Syn, Kind::Ack2], now, reader, writer)
}

/// Begins an exchange: writes the SYN, reads an ACK, does its event, and writes the ACK2. The rest is as in `respond`.
pub fn initiate<G: Gate, R: Read, W: Write>(
    alloc: Global,
    gate: &mut G,
    now: u64,
    syn: &Syn,
    reader: &mut Counted<R>,
    writer: &mut Counted<W>,
) -> Result<Ended, Broken>
    requires read { failed_of reader.old ≡ 0 }
    requires written { failed_of writer.old ≡ 0 }
    requires taken { idle_of writer.old ≡ 0 }
    ensures { Exchanges G.does G.refuses G.stays (message_kinds.Ack ∷ []) now (frame WRITTEN (messages.Syn syn.now))
        (R.remaining (link_of reader.old)) (R.remaining (link_of reader.new))
        (W.contents (link_of writer.old)) (W.contents (link_of writer.new))
        reader.old reader.new writer.old writer.new gate.old gate.new result }
{
    if let Err(fault) = send(alloc, writer, BorrowedMessage::Syn(syn)) {
        return Err(Broken { done: 0, fault });
    }
    take_turns(alloc, gate, &[Kind::Ack], now, reader, writer)
}
