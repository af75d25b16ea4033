//! The audit of journals that sources hold, written out.

ghost use Rattle.std.specs.Prelude.{◌≡◌, ◌⊎◌, ℕ, List, [], MatchResult, string_bytes};
ghost use Rattle.cg_links.specs.Counted.{link_of};
ghost use Rattle.cg_text.specs.Written.{WroteOut};
ghost use Rattle.cg_tool.specs.Gathered.{GathersAll, StopsAt};
ghost use Rattle.cg_tool.specs.Audited.{IsExpectedReport, IsReport, IsFault, LacksMemory};

use crate::journals::Journals;
use crate::reporting::report;
use crate::source::Source;
use cg_journal::Unread;
use cg_links::Counted;
use cg_text::written;
use cg_types::{Fault, OUT_OF_MEMORY_LINE};
use std::alloc::Global;
use std::io::Write;

// Reads the journal of each source, up to the first that can't be read, of which it tells.
fn gathered<S: Source>(alloc: Global, sources: &mut [S]) -> Result<Journals, Unread>
    ensures { MatchResult result
        (λ j. GathersAll S.reads S.fails sources.old sources.new [] j)
        (λ u. StopsAt S.reads S.fails sources.old sources.new [] u) }
{
    let mut journals = Journals::new(alloc);
    for source in sources.iter_mut() {
        match journals.read(alloc, source) {
            Ok(()) => {}
            Err(unread) => {
                source.tell(&unread);
                return Err(unread);
            }
        }
    }
    Ok(journals)
}

// Writes the report of the audit of journals, and returns the status.
fn write_report<W: Write>(alloc: Global, journals: &Journals, writer: &mut Counted<W>) -> u8
    ensures { (text : List ℕ) × (status : ℕ) × (IsReport journals.now text status ⊎ LacksMemory text status)
        × WroteOut (W.contents (link_of writer.old)) (W.contents (link_of writer.new))
        writer.old writer.new text status result }
{
    match report(alloc, &journals.audit(alloc)) {
        Ok((text, status)) => written(writer, text.as_bytes(), status),
        Err(_) => written(writer, OUT_OF_MEMORY_LINE, 1),
    }
}

// Writes the fault of a journal that was not read, as one line, and returns the status, 1.
fn write_unread<W: Write>(alloc: Global, unread: Unread, writer: &mut Counted<W>) -> u8
    ensures { (text : List ℕ) × (status : ℕ) × (IsFault unread text status ⊎ LacksMemory text status)
        × WroteOut (W.contents (link_of writer.old)) (W.contents (link_of writer.new))
        writer.old writer.new text status result }
{
    match unread.fault.line(alloc) {
        Ok(line) => written(writer, line.as_bytes(), 1),
        Err(_) => written(writer, OUT_OF_MEMORY_LINE, 1),
    }
}

/// Reads one journal from each source, writes and flushes the report of their audit, and returns the exit status.
///
/// With status 0 the report is an order, a line an item, and `one run`. With status 1 it is the items that can't go and
/// `fault 17 Stuck`, `fault 11 NotRising`, or the fault of the first journal that can't be read, of which that source
/// tells. Journals of one endpoint are its lives, in the order of the sources. If memory runs out for the text, it is
/// `fault 1 OutOfMemory`. If the writer fails or takes no byte, a prefix of the text is written, and the status is 1.
pub fn audit_files<S: Source, W: Write>(
    alloc: Global,
    sources: &mut [S],
    writer: &mut Counted<W>,
) -> u8
    ensures { (text : List ℕ) × (status : ℕ) × IsExpectedReport S.reads S.fails sources.old sources.new text status
        × WroteOut (W.contents (link_of writer.old)) (W.contents (link_of writer.new))
        writer.old writer.new text status result }
{
    match gathered(alloc, sources) {
        Ok(journals) => write_report(alloc, &journals, writer),
        Err(unread) => write_unread(alloc, unread, writer),
    }
}
