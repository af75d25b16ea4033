//! Proofs that messages in hand fit a layout. None of this takes memory.

ghost use Rattle.cg_messages.specs.Borrowed.{borrowed_message};
ghost use Rattle.cg_messages.specs.declared.message.Message.TheVariants as messages;
ghost use Rattle.cg_frames.specs.declared.layout.TheConstants.{WRITTEN};
ghost use Rattle.cg_frames.specs.Fits.{Fits};
ghost use Rattle.cg_frames.specs.Layouts.{IsWritten};

use crate::layout::{Layout, WRITTEN};
use cg_messages::{BorrowedAck, BorrowedMessage, Message};
use cg_types::Shows;

/// Shows that each message fits each layout that allows what messages hold.
pub(crate) fn message_fits(layout: &Layout, message: BorrowedMessage<'_>)
    requires { IsWritten layout.now }
    ensures { Fits layout.now (borrowed_message message.entry) }
{
    message.show();
}

/// Shows the same of an ACK whose deltas are borrowed.
pub(crate) fn borrowed_ack_fits(layout: &Layout, ack: &BorrowedAck<'_>)
    requires { IsWritten layout.now }
    ensures { Fits layout.now (messages.Ack ack.now) }
{
    ack.requests();
}

/// Shows that the layout that is written can spell a message. Its numbers are in their ranges, its lists rise and are
/// few, its texts are short and plain. So the laws of messages that fit hold of the message in hand. It takes no
/// memory, and walks nothing.
pub fn every_message_fits(message: &Message)
    ensures { Fits WRITTEN message.now }
{
    message_fits(&WRITTEN, message.borrowed());
}
