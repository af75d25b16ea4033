//! Reading a journal, line by line.

ghost use Rattle.std.specs.Prelude.{◌≡◌, ◌≤◌, ◌+◌, ◌⊎◌, List, ℕ, MatchResult, None, Some};
ghost use Rattle.cg_types.specs.declared.fault.Fault.TheVariants as faults;
ghost use Rattle.cg_links.specs.Counts.{one_more};
ghost use Rattle.cg_links.specs.Counted.{link_of, calls_of};
ghost use Rattle.cg_links.specs.declared.transfer.TheConstants.{MOST_READS};
ghost use Rattle.cg_history.specs.History.{HistoryValue};
ghost use Rattle.cg_journal.specs.Reading as spec;
ghost use Rattle.cg_journal.specs.Reading.{history_after, after_line};
ghost use Rattle.cg_journal.specs.Read.{Reads, ReadsUntold};

use crate::event::event_in;
use crate::life::life_in;
use crate::unread::Unread;
use cg_history::History;
use cg_links::{Counted, Next, TakeLine, take_lines};
use cg_types::Fault;
use std::alloc::Global;
use std::io::Read;

/// The part of a journal that was read: the history, once its first line was read, and the number of lines read, up to
/// 2^64 - 1.
#[derive(Drop)]
pub(crate) struct Progress {
    pub history: Option<History>,
    pub lines: u64,
}

// Has the node of a history do the event of a line, for caller 0.
fn apply_line(alloc: Global, history: &mut History, line: &[u8]) -> Result<(), Fault>
    ensures { MatchResult result
        (λ _. history_after history.old (spec.event_in line.now) ≡ Some history.new)
        (λ f. (f ≡ faults.OutOfMemory)
        ⊎ ((f ≡ faults.BadText) × (history_after history.old (spec.event_in line.now) ≡ None))) }
{
    let event = event_in(alloc, line)?;
    match history.apply(alloc, 0, event) {
        Ok(_) => Ok(()),
        Err(Fault::OutOfMemory) => Err(Fault::OutOfMemory),
        Err(_) => Err(Fault::BadText),
    }
}

impl Progress {
    // Does a line, without counting it.
    fn read_line(&mut self, alloc: Global, line: &[u8]) -> Result<(), Fault>
        ensures read { MatchResult result
            (λ _. (h : HistoryValue) × (after_line self.old.history line.now ≡ Some h) × (self.new.history ≡ Some h))
            (λ f. (f ≡ faults.OutOfMemory) ⊎ ((f ≡ faults.BadText) × (after_line self.old.history line.now ≡ None))) }
        ensures lines { self.new.lines ≡ self.old.lines }
    {
        match &mut self.history {
            Some(history) => apply_line(alloc, history, line),
            None => {
                self.history = Some(life_in(alloc, line)?);
                Ok(())
            }
        }
    }
}

// Returns the fault of the line that comes after these.
fn unread_behind(lines: u64, fault: Fault) -> Unread
    ensures line { result.line ≡ one_more lines }
    ensures fault { result.fault ≡ fault }
{
    Unread {
        line: lines.saturating_add(1),
        fault,
    }
}

impl TakeLine for Progress {
    ghost use Rattle.cg_links.specs.Taken.{NeverEnds};
    ghost use Rattle.cg_journal.specs.Read.{TakesLine, RefusesLine};

    ghost takes = { TakesLine };

    ghost ends = { NeverEnds };

    ghost refuses = { RefusesLine };

    fn take_line(&mut self, alloc: Global, line: &[u8]) -> Result<Next, Fault> {
        match self.read_line(alloc, line) {
            Ok(()) => {
                self.lines = self.lines.saturating_add(1);
                Ok(Next::More)
            }
            Err(fault) => Err(fault),
        }
    }
}

/// Reads a journal: the history that its first line begins, after the events of the other lines. The node does these
/// one after the other for caller 0, so a history that was written is read with its settings and its records.
///
/// The fault has the line in which reading ended. `BadText` if that line can't be read, if its frame is bad,
/// incomplete, of another kind or not all of the line, or if the node refuses its event. `BadText` also if there is no
/// line. `ReadFault` if a read fails or 4,294,967,295 reads were made, `OutOfMemory` if memory runs out in the line;
/// then no line before it is unreadable. The memory is that of the history and of the longest line.
pub fn read_journal_telling<R: Read>(
    alloc: Global,
    reader: &mut Counted<R>,
) -> Result<History, Unread>
    ensures read { Reads (R.remaining (link_of reader.old)) (R.remaining (link_of reader.new))
        reader.old reader.new result }
    ensures turns { calls_of reader.new ≤ calls_of reader.old + MOST_READS }
{
    let mut progress = Progress {
        history: None,
        lines: 0,
    };
    match take_lines(alloc, &mut progress, reader) {
        Ok(()) => {}
        Err(fault) => return Err(unread_behind(progress.lines, fault)),
    }
    let Progress { history, lines } = progress;
    match history {
        Some(history) => Ok(history),
        None => Err(unread_behind(lines, Fault::BadText)),
    }
}

/// Reads a journal as `read_journal_telling` does, and returns the fault without the line.
pub fn read_journal<R: Read>(alloc: Global, reader: &mut Counted<R>) -> Result<History, Fault>
    ensures read { ReadsUntold (R.remaining (link_of reader.old)) (R.remaining (link_of reader.new))
        reader.old reader.new result }
    ensures turns { calls_of reader.new ≤ calls_of reader.old + MOST_READS }
{
    match read_journal_telling(alloc, reader) {
        Ok(history) => Ok(history),
        Err(unread) => Err(unread.fault),
    }
}
