//! Sources of journals.

ghost use Rattle.std.specs.Prelude.{MatchResult};
ghost use Rattle.cg_history.specs.History.{HistoryValue};
ghost use Rattle.cg_journal.specs.declared.unread.Unread.{Unread as UnreadValue};

use cg_history::History;
use cg_journal::{Unread, read_journal_telling};
use cg_links::Counted;
use std::alloc::Global;
use std::io::Read;

/// A source of one journal.
pub trait Source {
    // a source before, after, and the history that was read
    ghost reads: { Self → Self → HistoryValue → Type 0 };

    // a source before, after, and the line and the fault with which reading ended
    ghost fails: { Self → Self → UnreadValue → Type 0 };

    /// Reads the journal, or returns why it can't be read.
    fn read_history(&mut self, alloc: Global) -> Result<History, Unread>
        ensures { MatchResult result (λ h. reads self.old self.new h) (λ u. fails self.old self.new u) };

    /// Tells a person why no history of it was taken. It changes no answer.
    fn tell(&self, unread: &Unread);
}

/// A reader has the text of a journal. Nobody is told.
impl<R: Read> Source for Counted<R> {
    ghost use Rattle.cg_links.specs.Counted.{link_of};
    ghost use Rattle.cg_journal.specs.Read.{ReadsHistory, FailsToRead};

    ghost reads = { λ s t h. ReadsHistory (R.remaining (link_of s)) (R.remaining (link_of t)) s t h };

    ghost fails = { λ s t u. FailsToRead (R.remaining (link_of s)) (R.remaining (link_of t)) s t u };

    fn read_history(&mut self, alloc: Global) -> Result<History, Unread> {
        read_journal_telling(alloc, self)
    }

    fn tell(&self, _unread: &Unread) {}
}
