//! Writing a journal, line by line.

ghost use Rattle.std.specs.Prelude.{◌≡◌, ◌<◌, [], ◌∷◌, Err, OnOk};
ghost use Rattle.cg_types.specs.declared.fault.Fault.TheVariants as faults;
ghost use Rattle.cg_links.specs.Counted.{link_of, IsFlushed};
ghost use Rattle.cg_journal.specs.Text.{life_line, event_line, event_lines, journal_lines};
ghost use Rattle.cg_journal.specs.Written.{Writes};

use crate::line::EventLine;
use crate::text::life_text;
use cg_core::{Event, Node};
use cg_history::{History, Item};
use cg_links::{Counted, write_bytes};
use cg_types::Fault;
use std::alloc::Global;
use std::io::Write;

fn write_line<W: Write>(writer: &mut Counted<W>, line: &[u8]) -> Result<(), Fault>
    ensures { Writes (W.contents (link_of writer.old)) (W.contents (link_of writer.new))
        writer.old writer.new (line.now ∷ []) result }
{
    write_bytes(writer, line)
}

fn write_life<W: Write>(alloc: Global, node: &Node, writer: &mut Counted<W>) -> Result<(), Fault>
    ensures { Writes (W.contents (link_of writer.old)) (W.contents (link_of writer.new))
        writer.old writer.new (life_line node.now ∷ []) result }
{
    match life_text(alloc, node) {
        Ok(text) => write_line(writer, text.as_bytes()),
        Err(_) => Err(Fault::OutOfMemory),
    }
}

fn write_event<W: Write>(alloc: Global, event: &Event, writer: &mut Counted<W>) -> Result<(), Fault>
    ensures { Writes (W.contents (link_of writer.old)) (W.contents (link_of writer.new))
        writer.old writer.new (event_line event.now ∷ []) result }
{
    match EventLine::new(alloc, event) {
        Ok(line) => line.write(writer),
        Err(_) => Err(Fault::OutOfMemory),
    }
}

fn write_events<W: Write>(
    alloc: Global,
    records: &[Item],
    writer: &mut Counted<W>,
) -> Result<(), Fault>
    ensures { Writes (W.contents (link_of writer.old)) (W.contents (link_of writer.new))
        writer.old writer.new (event_lines records.now) result }
{
    for record in records {
        match write_event(alloc, &record.event, writer) {
            Ok(()) => {}
            Err(fault) => return Err(fault),
        }
    }
    Ok(())
}

fn write_lines<W: Write>(
    alloc: Global,
    history: &History,
    writer: &mut Counted<W>,
) -> Result<(), Fault>
    ensures { Writes (W.contents (link_of writer.old)) (W.contents (link_of writer.new))
        writer.old writer.new (journal_lines history.now) result }
{
    match write_life(alloc, history.base(), writer) {
        Ok(()) => {}
        Err(fault) => return Err(fault),
    }
    write_events(alloc, history.records(), writer)
}

// Writes the lines of a history, and flushes the writer.
fn write_whole<W: Write>(
    alloc: Global,
    history: &History,
    writer: &mut Counted<W>,
) -> Result<(), Fault>
    ensures written { Writes (W.contents (link_of writer.old)) (W.contents (link_of writer.new))
        writer.old writer.new (journal_lines history.now) result }
    ensures flushed { OnOk result (IsFlushed writer.new) }
{
    match write_lines(alloc, history, writer) {
        Ok(()) => {}
        Err(fault) => return Err(fault),
    }
    match writer.flush() {
        Ok(()) => Ok(()),
        Err(_) => Err(Fault::WriteFault),
    }
}

/// Writes the text of a history, and flushes the writer.
///
/// `Folded`, and nothing is written, if a record of the history is folded: the text has all records since the start. It
/// makes and writes one line at a time, so the memory is that of the longest line. `OutOfMemory` if there is no memory
/// for a line: then those before it were written, each whole. `WriteFault` if the writer fails or takes no byte: then a
/// prefix of the text was written.
pub fn write_journal<W: Write>(
    alloc: Global,
    history: &History,
    writer: &mut Counted<W>,
) -> Result<(), Fault>
    ensures written { history.now.folded ≡ 0
        → Writes (W.contents (link_of writer.old)) (W.contents (link_of writer.new))
        writer.old writer.new (journal_lines history.now) result }
    ensures flushed { OnOk result (IsFlushed writer.new) }
    ensures folded { 0 < history.now.folded
        → (result ≡ Err faults.Folded) × (writer.new ≡ writer.old) }
{
    if history.folded() != 0 {
        return Err(Fault::Folded);
    }
    write_whole(alloc, history, writer)
}
