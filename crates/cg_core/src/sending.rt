//! The message that a reply sends.

ghost use Rattle.std.specs.Prelude.{◌≡◌};
ghost use Rattle.std.specs.Option.{option_map};
ghost use Rattle.cg_messages.specs.Borrowed.{borrowed_message};
ghost use Rattle.cg_core.specs.Sending.{message_of};

use crate::reply::Reply;
use cg_messages::{BorrowedMessage, Message};

impl Reply {
    /// The message that the reply sends, borrowed; `None` if it sends none, as after a change of the own entry and
    /// after an ACK2.
    pub fn message(&self) -> Option<BorrowedMessage<'_>>
        ensures { option_map borrowed_message result ≡ message_of self.now }
    {
        match self {
            Reply::Round { syn, .. } => Some(BorrowedMessage::Syn(syn)),
            Reply::Sent(message) => Some(message.borrowed()),
            Reply::Both { ack2, .. } => Some(BorrowedMessage::Ack2(ack2)),
            Reply::Done(_) | Reply::Took(_) => None,
        }
    }
}
