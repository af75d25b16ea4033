//! Messages that pass through their frames.

ghost use Rattle.std.specs.Prelude.{◌≡◌, length, IfOk, IfErr};
ghost use Rattle.cg_types.specs.declared.fault.Fault.TheVariants as faults;
ghost use Rattle.cg_messages.specs.Borrowed.{borrowed_message};
ghost use Rattle.cg_frames.specs.declared.layout.TheConstants.{WRITTEN};
ghost use Rattle.cg_frames.specs.Spelling.{frame};

use cg_frames::laws::what_is_written_is_read;
use cg_frames::{decode, encode_borrowed};
use cg_messages::{BorrowedMessage, Message};
use cg_types::Fault;
use std::alloc::Global;

/// Writes a message as its frame, and reads that again. It returns the message that was read, and the frame's length.
/// `OutOfMemory` is its only refusal.
pub fn carry(alloc: Global, message: BorrowedMessage<'_>) -> Result<(Message, usize), Fault>
    ensures message { IfOk result (λ x. x.0 ≡ borrowed_message message.entry) }
    ensures length { IfOk result (λ x. x.1 ≡ length (frame WRITTEN (borrowed_message message.entry))) }
    ensures err { IfErr result (λ f. f ≡ faults.OutOfMemory) }
{
    what_is_written_is_read();
    let frame = encode_borrowed(alloc, message)?;
    let Ok(Some(read)) = decode(alloc, frame.as_slice()) else {
        return Err(Fault::OutOfMemory);
    };
    Ok(read)
}
