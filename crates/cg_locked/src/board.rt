//! The board: the data under the lock.

ghost use Rattle.std.specs.Prelude.{◌≡◌, ◌+◌, ◌++◌, ◌<◌, ◌≤◌, true, false, [], length, take, IfOk, IfSome, IsOk, MatchOption, OnOk, OnErr};
ghost use Rattle.std.specs.Coded.{Coded-set, coded_ℕ, ×_prop, →_prop, le_prop};
ghost use mathlib.Core.List.{IsPrefix};
ghost use Rattle.cg_table.specs.Values.{table_code};
ghost use Rattle.cg_table.specs.Puts.{puts_code};
ghost use Rattle.cg_core.specs.Values.{node_code};
ghost use Rattle.cg_types.specs.Answer.{Answers};
ghost use Rattle.cg_history.specs.Items.{puts_of};
ghost use Rattle.cg_history.specs.History.{IsFoldOf, Replays, apply, count_of, history_code, unfolded, with_folded};
ghost use Rattle.cg_views.specs.Lists.{opened_with, are_all};
ghost use Rattle.cg_locked.specs.Board.{fold_length, shows_all};
ghost use Rattle.cg_locked.specs.Replaying.{Replays-prop};
ghost use Rattle.cg_locked.specs.Entry.{IsEntered, ShowsChange};

use crate::log::Log;
use crate::name::Name;
use crate::seat::Seat;
use cg_core::Event;
use cg_history::{History, Receipt};
use cg_table::Puts;
use cg_types::{Fault, Shows};
use cg_views::{Publisher, Told};
use std::alloc::{AllocError, Global};
use std::sync::Wait;
use std::sync::ledger::Book;

/// The data under the lock: a node's history, and the publisher of its table.
///
/// All records replay from the node that the name's history began with. The log lists them and the book counts them,
/// also those that the history has folded. The publisher has the puts of those folded and of the first `appended` that
/// are kept, and has published those of the folded ones and of the first `published`.
pub struct Board<N: Name> {
    pub(crate) history: History,
    pub(crate) publisher: Publisher<N>,
    pub(crate) appended: usize,
    pub(crate) published: usize,
    pub(crate) book: Book<N>,
    pub(crate) log: Log<N>,
    ghost listed: { IsFoldOf log history } by { ×_prop le_prop (Coded-set history_code _ _) },
    ghost replays: { Replays N.start log history.node } by { Replays-prop N.start log history.node },
    ghost counted: { book.total ≡ count_of history },
    ghost within: { (published ≤ appended) × (appended ≤ length history.records) },
    ghost shown: { are_all publisher ≡ puts_of (take (history.folded + appended) log) } by { Coded-set puts_code _ _ },
    ghost shows: { publisher.published ≡ puts_of (take (history.folded + published) log) } by { Coded-set puts_code _ _ },
    ghost start: { history.start ≡ N.start } by { Coded-set node_code _ _ },
    ghost whole: { N.folds ≡ false → history.folded ≡ 0 } by { →_prop (Coded-set coded_ℕ _ _) },
    ghost opening: { publisher.opening ≡ N.start.table } by { Coded-set table_code _ _ },
}

impl<N: Name> Board<N> {
    pub(crate) fn new(
        history: History,
        publisher: Publisher<N>,
        book: Book<N>,
        log: Log<N>,
    ) -> Board<N>
        requires history { (history.records ≡ []) × (history.folded ≡ 0) × (history.base ≡ N.start) }
        requires publisher { publisher ≡ opened_with history.base.table }
        requires book { book.total ≡ 0 }
        requires log { log ≡ [] }
        ensures { (result.history ≡ history) × (result.log ≡ log) }
    {
        history.show();
        Board {
            history,
            publisher,
            appended: 0,
            published: 0,
            book,
            log,
        }
    }

    /// The node's history. It began with the node of the name, and is a fold of the records that the log lists.
    pub fn history(&self) -> &History
        ensures value { result.now ≡ self.now.history }
        ensures start { result.now.start ≡ N.start }
        ensures fold { IsFoldOf self.now.log result.now }
    {
        &self.history
    }

    /// Returns the number of records behind those whose puts are published. It takes no memory.
    pub fn unpublished(&self) -> u64
        ensures count { result + self.now.published ≡ length self.now.history.records }
        ensures shows { self.now.publisher.published
            ≡ puts_of (take (self.now.history.folded + self.now.published) self.now.log) }
    {
        (self.history.records().len() - self.published) as u64
    }

    /// Applies an event for the seat's caller, and keeps its record, by `History::apply_logged`. The seat counts one
    /// more, and has then seen all records. If the event is refused, nothing else changes.
    pub fn enter(
        &mut self,
        alloc: Global,
        seat: &mut Seat<N>,
        event: Event,
    ) -> Result<Receipt, Fault>
        ensures due { Answers (λ receipt. (self.new.history, receipt))
            (apply self.old.history seat.old.caller event) result }
        ensures whole { Answers (λ receipt. (unfolded self.new.log self.new.history, receipt))
            (apply (unfolded self.old.log self.old.history) seat.old.caller event) result }
        ensures begins { IsPrefix seat.old.seen self.old.log }
        ensures long { seat.old.amount ≤ count_of self.old.history }
        ensures seen { seat.new.seen ≡ self.new.log }
        ensures amount { OnOk result (seat.new.amount ≡ seat.old.amount + 1) }
        ensures views { (self.new.publisher ≡ self.old.publisher) × (self.new.appended ≡ self.old.appended)
            × (self.new.published ≡ self.old.published) }
        ensures err { OnErr result ((self.new.history ≡ self.old.history) × (self.new.log ≡ self.old.log)
            × (seat.new.amount ≡ seat.old.amount)) }
        ensures seat { (seat.new.caller ≡ seat.old.caller) × (seat.new.parts ≡ seat.old.parts) }
    {
        let caller = seat.caller();
        let Board {
            history,
            book,
            log,
            ..
        } = self;
        seat.meet(book, log);
        let receipt = history.apply_logged(alloc, log, caller, event)?;
        seat.count(book, log);
        Ok(receipt)
    }

    // Returns the puts of the next record that is not appended.
    fn next_puts(&self, alloc: Global) -> Result<Puts, AllocError>
        requires { self.now.appended < length self.now.history.records }
        ensures { IfOk result (λ ps. puts_of (take (self.now.history.folded + (self.now.appended + 1)) self.now.log)
            ≡ puts_of (take (self.now.history.folded + self.now.appended) self.now.log) ++ ps) }
    {
        let item = &self.history.records()[self.appended];
        let puts = item.puts.copy(alloc)?;
        Ok(puts)
    }

    // Appends the puts of the next record. Nothing changes if memory is refused.
    fn append_next(&mut self, alloc: Global) -> Result<(), AllocError>
        requires { self.old.appended < length self.old.history.records }
        ensures same { (self.new.history ≡ self.old.history) × (self.new.book ≡ self.old.book)
            × (self.new.log ≡ self.old.log) × (self.new.published ≡ self.old.published) }
        ensures publisher { (self.new.publisher.opening ≡ self.old.publisher.opening)
            × (self.new.publisher.published ≡ self.old.publisher.published) }
        ensures ok { OnOk result (self.new.appended ≡ self.old.appended + 1) }
        ensures err { OnErr result (self.new.appended ≡ self.old.appended) }
    {
        let puts = self.next_puts(alloc)?;
        self.history.show();
        let Board {
            publisher,
            appended,
            ..
        } = self;
        publisher.append_puts(alloc, puts)?;
        *appended += 1;
        Ok(())
    }

    /// Appends the puts of all records that are not appended, record by record, and publishes them.
    ///
    /// If memory is refused, nothing is published. The records appended so far stay appended, and the next call goes on
    /// there.
    pub fn catch_up<R: Wait>(&mut self, rt: &R, alloc: Global) -> Result<Told<N>, AllocError>
        ensures same { (self.new.history ≡ self.old.history) × (self.new.book ≡ self.old.book)
            × (self.new.log ≡ self.old.log) }
        ensures told { IfOk result (λ t. t ≡ puts_of self.new.log) }
        ensures opening { OnOk result (N.start.table ≡ N.opening) }
        ensures published { OnOk result ((self.new.publisher ≡ shows_all N.start.table (puts_of self.new.log))
            × (self.new.published ≡ length self.new.history.records)) }
        ensures err { OnErr result ((self.new.published ≡ self.old.published)
            × (self.new.publisher.published ≡ self.old.publisher.published)
            × (self.old.appended ≤ self.new.appended)) }
    {
        while self.appended < self.history.records().len() {
            self.append_next(alloc)?;
        }
        self.publisher.publish(rt)?;
        self.published = self.appended;
        Ok(self.publisher.tell())
    }

    /// Folds the longest front of the records that leaves at least `keep` of them, and holds none that `unpublished`
    /// counts: they lead to the history's base, and are gone. What is shown and counted stays. It takes at most as many
    /// steps as records are folded, and no memory if none is. If memory is refused, nothing changes. Only the board of a
    /// name that says so may fold.
    pub fn fold(&mut self, alloc: Global, keep: usize) -> Result<(), AllocError>
        requires { N.folds ≡ true }
        ensures ok { OnOk result (self.new.history
            ≡ with_folded (fold_length keep self.old.published (length self.old.history.records)) self.old.history) }
        ensures none { fold_length keep self.old.published (length self.old.history.records) ≡ 0 → IsOk result }
        ensures same { (self.new.publisher ≡ self.old.publisher) × (self.new.book ≡ self.old.book)
            × (self.new.log ≡ self.old.log) }
        ensures unpublished { self.new.published + length self.old.history.records
            ≡ self.old.published + length self.new.history.records }
        ensures appended { self.new.appended + length self.old.history.records
            ≡ self.old.appended + length self.new.history.records }
        ensures err { OnErr result ((self.new.history ≡ self.old.history) × (self.new.appended ≡ self.old.appended)
            × (self.new.published ≡ self.old.published)) }
    {
        let kept = self.history.records().len();
        let count = kept.saturating_sub(keep).min(self.published);
        let Board {
            history,
            appended,
            published,
            ..
        } = self;
        history.fold_front(alloc, count)?;
        *appended -= count;
        *published -= count;
        Ok(())
    }

    /// Applies an event as `enter` does, and then publishes all records by `catch_up` if memory is found.
    ///
    /// There is no `Told` if catching up found no memory: the record is kept, and nothing is published. Refused, nothing
    /// changes, as by `enter`.
    pub fn enter_and_tell<R: Wait>(
        &mut self,
        rt: &R,
        alloc: Global,
        seat: &mut Seat<N>,
        event: Event,
    ) -> Result<(Receipt, Option<Told<N>>), Fault>
        ensures entered { Answers (λ r. (self.new.history, r.0))
            (apply self.old.history seat.old.caller event) result }
        ensures told { IfOk result (λ r. IfSome r.1 (λ t. t ≡ puts_of self.new.log)) }
        ensures entry { IsEntered N.start seat.old event seat.new.seen result }
        ensures shown { IfOk result (λ r. IfSome r.1 (λ t. ShowsChange t N.opening.own event r.0.reply)) }
        ensures published { IfOk result (λ r. MatchOption r.1
            ((self.new.published ≡ self.old.published)
            × (self.new.publisher.published ≡ self.old.publisher.published))
            (λ _. self.new.published ≡ length self.new.history.records)) }
        ensures amount { OnOk result (seat.new.amount ≡ seat.old.amount + 1) }
        ensures err { OnErr result ((self.new.history ≡ self.old.history) × (self.new.log ≡ self.old.log)
            × (seat.new.amount ≡ seat.old.amount)) }
        ensures views { OnErr result ((self.new.publisher ≡ self.old.publisher)
            × (self.new.appended ≡ self.old.appended) × (self.new.published ≡ self.old.published)) }
        ensures seat { (seat.new.caller ≡ seat.old.caller) × (seat.new.parts ≡ seat.old.parts) }
    {
        self.history.show();
        let receipt = self.enter(alloc, seat, event)?;
        match self.catch_up(rt, alloc) {
            Ok(told) => Ok((receipt, Some(told))),
            Err(_) => Ok((receipt, None)),
        }
    }

    /// Takes the board apart: the history, the publisher, the book and the log.
    pub(crate) fn apart(self) -> (History, Publisher<N>, Book<N>, Log<N>)
        ensures same { (result.0 ≡ self.history) × (result.3 ≡ self.log) }
        ensures facts { (result.0.start ≡ N.start) × (result.2.total ≡ count_of result.0) × IsFoldOf result.3 result.0
            × (N.folds ≡ false → result.0.folded ≡ 0) }
    {
        let Board {
            history,
            publisher,
            appended: _,
            published: _,
            book,
            log,
        } = self;
        (history, publisher, book, log)
    }
}
