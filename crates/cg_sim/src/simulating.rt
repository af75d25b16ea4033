//! `sim`: a script from a reader, its text to a writer.

ghost use Rattle.std.specs.Prelude.{◌≡◌, ◌≤◌, ◌+◌, ◌⊎◌, MatchResult, IfSome};
ghost use Rattle.cg_links.specs.Counted.{link_of, calls_of, failed_of, idle_of, CountsFewer};
ghost use Rattle.cg_types.specs.declared.fault.Fault.TheVariants as faults;
ghost use Rattle.cg_types.specs.Fault.{fault_text};
ghost use Rattle.cg_sim.specs.Simulated.{IsPlayed, FailsInTurn, WritesLine, Simulates, PlaysAll, SaysOutOfMemory};
ghost use Rattle.cg_links.specs.declared.transfer.TheConstants.{MOST_READS};

use crate::play::Play;
use crate::telling::{Telling, tell_lines};
use cg_links::{Counted, write_and_flush};
use cg_types::{Fault, OUT_OF_MEMORY_LINE, READ_FAULT_LINE};
use std::alloc::Global;
use std::io::{Read, Write};

// Does each line of a script, and writes its text.
fn tell_script<R: Read, W: Write>(
    alloc: Global,
    reader: &mut Counted<R>,
    writer: &mut Counted<W>,
) -> Result<(), Fault>
    ensures told { MatchResult result
        (λ _. IsPlayed
        (R.remaining (link_of reader.old)) (R.remaining (link_of reader.new))
        (W.contents (link_of writer.old)) (W.contents (link_of writer.new))
        reader.old reader.new writer.old writer.new)
        (λ f. FailsInTurn
        (R.remaining (link_of reader.old)) (R.remaining (link_of reader.new))
        (W.contents (link_of writer.old)) (W.contents (link_of writer.new))
        reader.old reader.new writer.old writer.new f) }
    ensures turns { calls_of reader.new ≤ calls_of reader.old + MOST_READS }
{
    let Ok(mut play) = Play::new(alloc) else {
        return Err(Fault::OutOfMemory);
    };
    let mut text = String::new(alloc);
    let mut telling = Telling {
        play: &mut play,
        text: &mut text,
        writer,
    };
    tell_lines(alloc, &mut telling, reader)
}

// Writes a line, whether or not the writer fails.
fn say<W: Write>(writer: &mut Counted<W>, line: &[u8])
    ensures { WritesLine
        (W.contents (link_of writer.old)) (W.contents (link_of writer.new)) writer.old writer.new line.now }
{
    let _ = write_and_flush(writer, line);
}

fn say_out_of_memory<W: Write>(writer: &mut Counted<W>)
    ensures { WritesLine
        (W.contents (link_of writer.old)) (W.contents (link_of writer.new))
        writer.old writer.new (fault_text faults.OutOfMemory) }
{
    say(writer, OUT_OF_MEMORY_LINE)
}

fn say_read_fault<W: Write>(writer: &mut Counted<W>)
    ensures { WritesLine
        (W.contents (link_of writer.old)) (W.contents (link_of writer.new))
        writer.old writer.new (fault_text faults.ReadFault) }
{
    say(writer, READ_FAULT_LINE)
}

fn sim_links<R: Read, W: Write>(
    alloc: Global,
    reader: &mut Counted<R>,
    writer: &mut Counted<W>,
) -> u8
    ensures played { Simulates
        (R.remaining (link_of reader.old)) (R.remaining (link_of reader.new))
        (W.contents (link_of writer.old)) (W.contents (link_of writer.new))
        reader.old reader.new writer.old writer.new result }
    ensures turns { calls_of reader.new ≤ calls_of reader.old + MOST_READS }
{
    match tell_script(alloc, reader, writer) {
        Ok(()) => 0,
        Err(fault) => match fault {
            Fault::OutOfMemory => {
                say_out_of_memory(writer);
                1
            }
            Fault::ReadFault => {
                say_read_fault(writer);
                1
            }
            _ => 1,
        },
    }
}

/// Plays a script over the nodes of a cluster, and returns the exit status.
///
/// Each line is done and its text written and flushed before the next one is done; the last line feed may be missing. A
/// line that can't be read prints its fault, `fault 2 BadText` or `fault 3 TooLong`. A refused one prints `NotRising`,
/// `TableFull`, `NoSuchMessage`, `NoSuchNode` or `VersionsSpent`. The script goes on after both.
///
/// The status is 0 at the script's end. It is 1 in three cases:
/// - after `fault 1 OutOfMemory`, if memory runs out;
/// - after `fault 14 ReadFault`, if a read fails or 4,294,967,295 reads were made;
/// - if the writer fails or takes no byte, which leaves a prefix of the text.
///
/// A script's memory is its world (nodes and messages), its longest line, and the longest text of a line.
pub fn sim<R: Read, W: Write>(alloc: Global, reader: &mut Counted<R>, writer: &mut Counted<W>) -> u8
    // The expected text, and the prefix of it that was written.
    ensures played { Simulates
        (R.remaining (link_of reader.old)) (R.remaining (link_of reader.new))
        (W.contents (link_of writer.old)) (W.contents (link_of writer.new))
        reader.old reader.new writer.old writer.new result }
    // If no call of a link failed, no write took nothing and the bound on reads was not met, the text is the one that
    // all of the script prints, unless memory ran out.
    ensures honest { failed_of reader.new ≡ 0 → CountsFewer reader.old reader.new MOST_READS
        → failed_of writer.new ≡ 0 → idle_of writer.new ≡ 0
        → IfSome (R.remaining (link_of reader.old)) (λ script.
        PlaysAll (R.remaining (link_of reader.new))
        (W.contents (link_of writer.old)) (W.contents (link_of writer.new)) script result
        ⊎ SaysOutOfMemory (W.contents (link_of writer.old)) (W.contents (link_of writer.new)) script result) }
    ensures turns { calls_of reader.new ≤ calls_of reader.old + MOST_READS }
{
    sim_links(alloc, reader, writer)
}
