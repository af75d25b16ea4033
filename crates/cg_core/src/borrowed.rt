//! Borrowed events. With them a node does an event whose text or message somebody else keeps, without a copy.

ghost use Rattle.std.specs.Prelude.{◌≡◌};
ghost use Rattle.cg_messages.specs.Borrowed.{borrowed_message};
ghost use Rattle.cg_core.specs.Borrowed.{arrival_of, borrowed_event};

use crate::event::Event;
use cg_messages::{Ack, Ack2, BorrowedMessage, Syn};
use cg_types::{StateKey, StateText};

/// A borrowed event of any kind: those of `Event`, with the same fields.
#[derive(Clone, Copy, Debug)]
pub enum BorrowedEvent<'a> {
    Beat,
    Set {
        key: &'a StateKey,
        text: &'a StateText,
    },
    Remove {
        key: &'a StateKey,
    },
    Tick {
        now: u64,
        words: [u64; 4],
    },
    Opening,
    Syn {
        m: &'a Syn,
    },
    Ack {
        now: u64,
        m: &'a Ack,
    },
    Ack2 {
        now: u64,
        m: &'a Ack2,
    },
}

impl<'a> BorrowedEvent<'a> {
    /// The event of a message that comes at `now`, in milliseconds of the clock of the events.
    pub fn arriving(message: BorrowedMessage<'a>, now: u64) -> BorrowedEvent<'a>
        ensures { borrowed_event result ≡ arrival_of now (borrowed_message message.entry) }
    {
        match message {
            BorrowedMessage::Syn(m) => BorrowedEvent::Syn { m },
            BorrowedMessage::Ack(m) => BorrowedEvent::Ack { now, m },
            BorrowedMessage::Ack2(m) => BorrowedEvent::Ack2 { now, m },
        }
    }
}

impl Event {
    /// The event, borrowed.
    pub fn borrowed(&self) -> BorrowedEvent<'_>
        ensures { borrowed_event result ≡ self.now }
    {
        match self {
            Event::Beat => BorrowedEvent::Beat,
            Event::Set { key, text } => BorrowedEvent::Set { key, text },
            Event::Remove { key } => BorrowedEvent::Remove { key },
            Event::Tick { now, words } => BorrowedEvent::Tick {
                now: *now,
                words: *words,
            },
            Event::Opening => BorrowedEvent::Opening,
            Event::Syn { m } => BorrowedEvent::Syn { m },
            Event::Ack { now, m } => BorrowedEvent::Ack { now: *now, m },
            Event::Ack2 { now, m } => BorrowedEvent::Ack2 { now: *now, m },
        }
    }
}
