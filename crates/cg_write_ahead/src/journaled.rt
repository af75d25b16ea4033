//! The board and the writer of its journal: the data under the lock.

ghost use Rattle.std.specs.Prelude.{◌≡◌, ◌+◌, ◌-◌, ◌^◌, ◌<◌, ◌≤◌, true, false, [], length, map, drop, vec_len, IfOk, IfErr, ◌⊎◌, IfSome, OnOk, Ok, Err, None, MatchResult};
ghost use Rattle.std.specs.Coded.{Coded-set, coded_bool, →_prop, le_prop};
ghost use Rattle.std.specs.List.{All, sum_by};
ghost use mathlib.Core.List.{IsPrefix};
ghost use Rattle.cg_types.specs.declared.fault.Fault.TheVariants as faults;
ghost use Rattle.cg_history.specs.History.{IsFoldOf, count_of};
ghost use Rattle.cg_links.specs.Counted.{link_of, IsFlushed};
ghost use Rattle.cg_views.specs.Lists.{opened_with};
ghost use Rattle.cg_history.specs.Items.{puts_of};
ghost use Rattle.cg_journal.specs.Text.{event_line};
ghost use Rattle.cg_locked.specs.Entry.{IsEntered, ShowsChange};
ghost use Rattle.cg_locked.specs.Shared.{callers_up_to};
ghost use Rattle.cg_locked.specs.declared.limits.TheConstants.{SEAT_LIMIT};
ghost use Rattle.cg_write_ahead.specs.Text.{AlwaysTells, HoldsText, HoldsText-prop};
ghost use Rattle.cg_write_ahead.specs.Weights.{weight_of_all, weight_of_both};
ghost use Rattle.cg_write_ahead.specs.Submitting.{IsEntryAhead, IsOneMore};

use crate::entering::entered;
use crate::limits::{FOLD_LENGTH, WEIGHT_LIMIT};
use crate::weights::with_record;
use cg_core::Event;
use cg_history::{History, Receipt};
use cg_journal::{EventLine, write_journal};
use cg_links::Counted;
use cg_locked::{Board, Fresh, Name, Seat};
use cg_types::Fault;
use cg_views::{Publisher, Told};
use std::alloc::{AllocError, Global};
use std::io::Write;
use std::sync::Wait;

/// A board, and the writer of its journal.
///
/// Unless it is torn, all that was written is the text of the whole life, and is flushed: the line of its start, and a
/// line for each record, also of those that are folded. It is torn from the first write on that fails: then the line of
/// the last record may lack its end, that record is not published, and nothing more is written.
pub struct Journaled<N: Name, W: Write> {
    pub(crate) board: Board<N>,
    pub(crate) sink: Counted<W>,
    pub(crate) keep: usize,
    pub(crate) weight: u64,
    pub(crate) torn: bool,
    ghost folds: { N.folds ≡ true },
    ghost text: { AlwaysTells W.contents → HoldsText N.start board.log torn (W.contents (link_of sink)) } by { →_prop (HoldsText-prop N.start board.log torn (W.contents (link_of sink))) },
    ghost flushed: { torn ≡ false → IsFlushed sink } by { →_prop (Coded-set coded_bool _ _) },
    ghost unsent: { torn ≡ true → board.published < length board.history.records } by { →_prop le_prop },
    ghost weighed: { weight < 2 ^ 64 - 1 → weight_of_all board.history.records ≤ weight } by { →_prop le_prop },
}

/// The end of a board that wrote its journal: the history, the journal's writer, and whether a write failed.
#[derive(Drop)]
pub struct Ended<W> {
    pub history: History,
    pub sink: Counted<W>,
    pub torn: bool,
}

impl<N: Name, W: Write + Drop> Journaled<N, W> {
    /// Writes the first line of a life's journal, and begins the board of its history by `Board::begin`. At most about
    /// `keep` of the records that are published stay in memory.
    ///
    /// `OutOfMemory`, or `WriteFault` if the writer fails: then the views are closed.
    pub fn begin<R: Wait>(
        rt: &R,
        alloc: Global,
        history: History,
        publisher: Publisher<N>,
        fresh: Fresh,
        seats: usize,
        sink: Counted<W>,
        keep: usize,
    ) -> Result<(Journaled<N, W>, Vec<Seat<N>>), Fault>
        requires folds { N.folds ≡ true }
        requires fresh { (fresh.name ≡ N.name) × (fresh.parts ≡ N.parts) × (fresh.log ≡ N.log) × (N.parts ≡ seats) }
        requires seats { (0 < seats) × (seats ≤ SEAT_LIMIT) }
        requires history { (history.records ≡ []) × (history.folded ≡ 0) × (history.base ≡ N.start) }
        requires publisher { publisher ≡ opened_with history.base.table }
        requires sink { IfSome (W.contents (link_of sink)) (λ bytes. bytes ≡ []) }
        ensures whole { IfOk result (λ r. r.0.torn ≡ false) }
        ensures keep { IfOk result (λ r. r.0.keep ≡ keep) }
        ensures seats { IfOk result (λ r. (vec_len r.1 ≡ seats) × (sum_by (λ s. s.parts) r.1.items ≡ N.parts)
            × (sum_by (λ s. s.amount) r.1.items ≡ 0)) }
        ensures callers { IfOk result (λ r. map (λ s. s.caller) r.1.items ≡ callers_up_to seats) }
    {
        let mut sink = sink;
        match write_journal(alloc, &history, &mut sink) {
            Ok(()) => {}
            Err(fault) => {
                publisher.close(rt);
                return Err(fault);
            }
        }
        let (board, made) = Board::begin(rt, alloc, history, publisher, fresh, seats)?;
        let journaled = Journaled {
            board,
            sink,
            keep,
            weight: 0,
            torn: false,
        };
        Ok((journaled, made))
    }

    /// The node's history, which is a fold of the records of its life.
    pub fn history(&self) -> &History
        ensures value { result.now ≡ self.now.board.history }
        ensures start { result.now.start ≡ N.start }
        ensures fold { IsFoldOf self.now.board.log result.now }
    {
        self.board.history()
    }

    /// Returns `true` if a write failed: then events are refused, and nothing more is published.
    pub fn is_torn(&self) -> bool
        ensures { result ≡ self.now.torn }
    {
        self.torn
    }

    // Folds the published records: all of them if they may weigh more than the limit, those past the ones to be kept if
    // there are too many.
    fn trim(&mut self, alloc: Global) -> Result<(), AllocError>
        requires { self.old.torn ≡ false }
        ensures same { (self.new.board.log ≡ self.old.board.log) × (self.new.torn ≡ false)
            × (self.new.keep ≡ self.old.keep) }
        ensures few { OnOk result (self.new.board.published ≤ self.old.keep + FOLD_LENGTH) }
        ensures light { OnOk result (weight_of_all self.new.board.history.records
            ≤ WEIGHT_LIMIT + weight_of_all (drop self.old.board.published self.old.board.history.records)) }
        ensures unpublished { OnOk result (self.new.board.published + length self.old.board.history.records
            ≡ self.old.board.published + length self.new.board.history.records) }
    {
        if self.weight > WEIGHT_LIMIT {
            return self.fold_all(alloc);
        }
        let kept = self.board.history().records().len();
        if kept > self.keep.saturating_add(FOLD_LENGTH) {
            self.board.fold(alloc, self.keep)?;
        }
        Ok(())
    }

    // Folds all records that are published.
    fn fold_all(&mut self, alloc: Global) -> Result<(), AllocError>
        requires { self.old.torn ≡ false }
        ensures same { (self.new.board.log ≡ self.old.board.log) × (self.new.torn ≡ false)
            × (self.new.keep ≡ self.old.keep) }
        ensures few { OnOk result (self.new.board.published ≡ 0) }
        ensures kept { OnOk result (self.new.board.history.records
            ≡ drop self.old.board.published self.old.board.history.records) }
    {
        self.board.fold(alloc, 0)?;
        if self.board.history().records().is_empty() {
            self.weight = 0;
        }
        Ok(())
    }

    // Enters an event of this line, and writes the line behind its record.
    fn enter_and_write(
        &mut self,
        alloc: Global,
        seat: &mut Seat<N>,
        event: Event,
        line: &EventLine,
    ) -> Result<Receipt, Fault>
        requires whole { self.old.torn ≡ false }
        requires line { line.now ≡ event_line event }
        ensures entry { MatchResult result (λ q. IsEntered N.start seat.old event seat.new.seen (Ok (q, None)))
            (λ f. (f ≡ faults.WriteFault) ⊎ IsEntered N.start seat.old event seat.new.seen (Err f)) }
        ensures number { IfOk result (λ q. self.new.board.history.folded < q.number) }
        ensures whole { OnOk result (self.new.torn ≡ false) }
        ensures seen { seat.new.seen ≡ self.new.board.log }
        ensures begins { IsPrefix seat.old.seen seat.new.seen }
        ensures amount { OnOk result (seat.new.amount ≡ seat.old.amount + 1) }
        ensures err { IfErr result (λ f. (f ≡ faults.WriteFault)
            ⊎ ((self.new.board.log ≡ self.old.board.log) × (seat.new.amount ≡ seat.old.amount))) }
        ensures records { IfOk result (λ q.
            IsOneMore event q.reply self.old.board.history.records self.new.board.history.records) }
        ensures same { (self.new.keep ≡ self.old.keep) × (self.new.board.published ≡ self.old.board.published) }
        ensures seat { (seat.new.caller ≡ seat.old.caller) × (seat.new.parts ≡ seat.old.parts) }
    {
        let Journaled {
            board,
            sink,
            weight,
            torn,
            ..
        } = self;
        let receipt = entered(board, alloc, seat, event)?;
        *weight = with_record(*weight, line.length(), &receipt.reply);
        match line.write_and_flush(sink) {
            Ok(()) => Ok(receipt),
            Err(fault) => {
                *torn = true;
                Err(fault)
            }
        }
    }

    /// Publishes all records by `Board::catch_up`; `WriteFault`, and nothing changes, if a write failed.
    pub fn catch_up<R: Wait>(&mut self, rt: &R, alloc: Global) -> Result<Told<N>, Fault>
        ensures same { (self.new.board.history ≡ self.old.board.history) × (self.new.board.log ≡ self.old.board.log)
            × (self.new.torn ≡ self.old.torn) × (self.new.keep ≡ self.old.keep) }
        ensures told { IfOk result (λ t. t ≡ puts_of self.new.board.log) }
        ensures whole { OnOk result (self.new.torn ≡ false) }
    {
        if self.torn {
            return Err(Fault::WriteFault);
        }
        let told = self.board.catch_up(rt, alloc)?;
        Ok(told)
    }

    /// Applies an event for the seat's caller by `Board::enter`, writes the line of its record to the journal and
    /// flushes it, and only then publishes all records, if memory is found, and answers.
    ///
    /// `WriteFault` before all else if a write failed. Else records are folded first, so that of those that are
    /// published few stay. `OutOfMemory` if that or the line finds no memory: then nothing is entered. `WriteFault` if
    /// the line can't be written: then the record stands, and is not published, told or answered. There is no `Told` if
    /// there was no memory to publish: the next publication has the record.
    pub fn submit<R: Wait>(
        &mut self,
        rt: &R,
        alloc: Global,
        seat: &mut Seat<N>,
        event: Event,
    ) -> Result<(Receipt, Option<Told<N>>), Fault>
        ensures entry { IsEntryAhead N.start seat.old event seat.new.seen result }
        ensures shown { IfOk result (λ r. IfSome r.1 (λ t. ShowsChange t N.opening.own event r.0.reply)) }
        ensures number { IfOk result (λ r. self.new.board.history.folded < r.0.number) }
        ensures whole { OnOk result (self.new.torn ≡ false) }
        ensures seen { OnOk result (seat.new.seen ≡ self.new.board.log) }
        ensures begins { IsPrefix seat.old.seen seat.new.seen }
        ensures amount { OnOk result (seat.new.amount ≡ seat.old.amount + 1) }
        ensures err { IfErr result (λ f. (f ≡ faults.WriteFault)
            ⊎ ((self.new.board.log ≡ self.old.board.log) × (seat.new.amount ≡ seat.old.amount))) }
        ensures keep { self.new.keep ≡ self.old.keep }
        ensures few { OnOk result (length self.new.board.history.records + self.old.board.published
            ≤ self.old.keep + FOLD_LENGTH + 1 + length self.old.board.history.records) }
        ensures light { IfOk result (λ r. weight_of_all self.new.board.history.records
            ≤ WEIGHT_LIMIT + weight_of_all (drop self.old.board.published self.old.board.history.records)
            + weight_of_both event r.0.reply) }
        ensures seat { (seat.new.caller ≡ seat.old.caller) × (seat.new.parts ≡ seat.old.parts) }
    {
        if self.torn {
            return Err(Fault::WriteFault);
        }
        self.trim(alloc)?;
        let line = EventLine::new(alloc, &event)?;
        let receipt = self.enter_and_write(alloc, seat, event, &line)?;
        match self.board.catch_up(rt, alloc) {
            Ok(told) => Ok((receipt, Some(told))),
            Err(_) => Ok((receipt, None)),
        }
    }

    /// Ends the board with all its seats, by `Board::finish`. The history is a fold of records that begin with all that
    /// each seat has seen, and the journal's writer, if it tells what it holds, holds their text.
    pub fn finish<R: Wait>(self, rt: &R, seats: Vec<Seat<N>>) -> Ended<W>
        requires seats { (sum_by (λ s. s.parts) seats.items ≡ N.parts) × (0 < vec_len seats) }
        ensures start { result.history.start ≡ N.start }
        ensures count { count_of result.history ≡ sum_by (λ s. s.amount) seats.items }
        ensures fold { IsFoldOf self.board.log result.history }
        ensures seen { All (λ s. IsPrefix s.seen self.board.log) seats.items }
        ensures text { AlwaysTells W.contents → HoldsText N.start self.board.log result.torn (W.contents (link_of result.sink)) }
        ensures torn { result.torn ≡ self.torn }
        ensures flushed { result.torn ≡ false → IsFlushed result.sink }
    {
        let Journaled {
            board,
            sink,
            keep: _,
            weight: _,
            torn,
        } = self;
        let history = match board.finish(rt, seats, &[]) {
            Ok(history) => history,
            Err(left) => left.history,
        };
        Ended {
            history,
            sink,
            torn,
        }
    }
}
