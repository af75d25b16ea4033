//! A whole text that is written out.

ghost use Rattle.cg_links.specs.Counted.{link_of};
ghost use Rattle.cg_text.specs.Written.{WroteOut};

use cg_links::{Counted, write_and_flush};
use std::io::Write;

/// Writes and flushes a text, and returns the status. It returns 1 if the writer fails or takes no byte; then a prefix
/// of the text was written.
pub fn written<W: Write>(writer: &mut Counted<W>, text: &[u8], status: u8) -> u8
    ensures { WroteOut
        (W.contents (link_of writer.old)) (W.contents (link_of writer.new))
        writer.old writer.new text.now status result }
{
    match write_and_flush(writer, text) {
        Ok(()) => status,
        Err(_) => 1,
    }
}
