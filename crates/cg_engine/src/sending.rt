//! Writing one message to a link.

ghost use Rattle.std.specs.Prelude.{◌≡◌, ◌<◌, length};
ghost use Rattle.cg_messages.specs.Borrowed.{borrowed_message};
ghost use Rattle.cg_frames.specs.declared.layout.TheConstants.{WRITTEN};
ghost use Rattle.cg_frames.specs.Spelling.{frame};
ghost use Rattle.cg_links.specs.Counted.{link_of};
ghost use Rattle.cg_engine.specs.Sent.{Sends};

use cg_frames::encode_borrowed;
use cg_links::{Counted, write_and_flush};
use cg_messages::BorrowedMessage;
use cg_types::Fault;
use std::alloc::Global;
use std::io::Write;

// Writes all of the bytes, and flushes the writer.
fn send_bytes<W: Write>(writer: &mut Counted<W>, bytes: &[u8]) -> Result<(), Fault>
    requires { 0 < length bytes.now }
    ensures { Sends (W.contents (link_of writer.old)) (W.contents (link_of writer.new)) writer.old writer.new
        bytes.now result }
{
    write_and_flush(writer, bytes)
}

/// Writes the frame of a message, and flushes the writer.
///
/// `WriteFault` if the writer failed or took none of the rest: then a prefix of the frame was written. `OutOfMemory` if
/// there is no memory for the frame, and then the writer was not called.
pub fn send<W: Write>(
    alloc: Global,
    writer: &mut Counted<W>,
    message: BorrowedMessage<'_>,
) -> Result<(), Fault>
    ensures { Sends (W.contents (link_of writer.old)) (W.contents (link_of writer.new)) writer.old writer.new
        (frame WRITTEN (borrowed_message message.entry)) result }
{
    match encode_borrowed(alloc, message) {
        Ok(bytes) => send_bytes(writer, &bytes),
        Err(_) => Err(Fault::OutOfMemory),
    }
}
