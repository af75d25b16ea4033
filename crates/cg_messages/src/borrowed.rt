//! Borrowed messages. With them a message that is held in another form, as a node's reply, can be written without a
//! copy.

ghost use Rattle.std.specs.Prelude.{◌≡◌, IfOk};
ghost use Rattle.cg_messages.specs.Borrowed.{borrowed_message};

use crate::ack::Ack;
use crate::ack2::Ack2;
use crate::message::Message;
use crate::opening::Syn;
use cg_types::Shows;
use std::alloc::{AllocError, Global};

/// A borrowed message of any kind.
#[derive(Clone, Copy, Debug)]
pub enum BorrowedMessage<'a> {
    Syn(&'a Syn),
    Ack(&'a Ack),
    Ack2(&'a Ack2),
}

impl Shows for BorrowedMessage<'_> {
    ghost use Rattle.cg_messages.specs.Borrowed.{borrowed_message};
    ghost use Rattle.cg_messages.specs.Messages.{IsMessage};

    ghost Shown = { λ m. IsMessage (borrowed_message m) };

    #[inline(always)]
    fn show(&self) {
        match self {
            BorrowedMessage::Syn(syn) => syn.show(),
            BorrowedMessage::Ack(ack) => ack.show(),
            BorrowedMessage::Ack2(ack2) => ack2.show(),
        }
    }
}

impl BorrowedMessage<'_> {
    /// Copies the message, which shares its texts. `AllocError` if there is no memory for its lists.
    pub fn copy(self, alloc: Global) -> Result<Message, AllocError>
        ensures { IfOk result (λ m. m ≡ borrowed_message self.entry) }
    {
        Ok(match self {
            BorrowedMessage::Syn(syn) => Message::Syn(syn.copy(alloc)?),
            BorrowedMessage::Ack(ack) => Message::Ack(ack.copy(alloc)?),
            BorrowedMessage::Ack2(ack2) => Message::Ack2(ack2.copy(alloc)?),
        })
    }
}

impl Message {
    /// The message, borrowed.
    pub fn borrowed(&self) -> BorrowedMessage<'_>
        ensures { borrowed_message result ≡ self.now }
    {
        match self {
            Message::Syn(syn) => BorrowedMessage::Syn(syn),
            Message::Ack(ack) => BorrowedMessage::Ack(ack),
            Message::Ack2(ack2) => BorrowedMessage::Ack2(ack2),
        }
    }
}
