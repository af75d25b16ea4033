//! Messages of every kind.

ghost use Rattle.std.specs.Prelude.{◌≡◌, ◌↔◌, IsTrue, IfOk};
ghost use Rattle.cg_messages.specs.Kind.{kind_of};

use crate::ack::Ack;
use crate::ack2::Ack2;
use crate::kind::Kind;
use crate::opening::Syn;
use std::alloc::{AllocError, Global};

/// A message that one member sends another in an exchange.
#[derive(Debug, Drop)]
pub enum Message {
    Syn(Syn),
    Ack(Ack),
    Ack2(Ack2),
}

impl PartialEq for Message {
    ghost use Rattle.cg_messages.specs.MessageCode.{message_code};
    ghost use Rattle.cg_types.specs.Equality.{same_by, same_by-partial};

    ghost eq = { same_by message_code };

    ghost laws = { same_by-partial message_code };

    /// Returns `true` if both are of one kind and the same.
    fn eq(&self, other: &Message) -> bool
        ensures { IsTrue result ↔ (self.now ≡ other.now) }
    {
        match (self, other) {
            (Message::Syn(ours), Message::Syn(theirs)) => ours == theirs,
            (Message::Ack(ours), Message::Ack(theirs)) => ours == theirs,
            (Message::Ack2(ours), Message::Ack2(theirs)) => ours == theirs,
            _ => false,
        }
    }
}

impl Eq for Message {
    ghost use Rattle.cg_messages.specs.MessageCode.{message_code};
    ghost use Rattle.cg_types.specs.Equality.{same_by-laws};

    ghost laws = { same_by-laws message_code };
}

impl Message {
    /// The message's kind: one of the three of an exchange.
    pub fn kind(&self) -> Kind
        ensures { result ≡ kind_of self.now }
    {
        match self {
            Message::Syn(_) => Kind::Syn,
            Message::Ack(_) => Kind::Ack,
            Message::Ack2(_) => Kind::Ack2,
        }
    }

    /// The same message, which shares its texts. `AllocError` if there is no memory for its lists.
    pub fn copy(&self, alloc: Global) -> Result<Message, AllocError>
        ensures { IfOk result (λ m. m ≡ self.now) }
    {
        Ok(match self {
            Message::Syn(syn) => Message::Syn(syn.copy(alloc)?),
            Message::Ack(ack) => Message::Ack(ack.copy(alloc)?),
            Message::Ack2(ack2) => Message::Ack2(ack2.copy(alloc)?),
        })
    }
}
