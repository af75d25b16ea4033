//! The board that writes its journal ahead, behind its lock.

ghost use Rattle.std.specs.Prelude.{◌≡◌, ◌+◌, ◌<◌, ◌≤◌, ◌⊎◌, true, false, List, [], map, vec_len, IfOk, IfErr, IfSome, OnOk};
ghost use Rattle.std.specs.List.{All, sum_by};
ghost use mathlib.Core.List.{IsPrefix};
ghost use Rattle.cg_types.specs.declared.fault.Fault.TheVariants as faults;
ghost use Rattle.cg_history.specs.declared.item.Item.{Item};
ghost use Rattle.cg_history.specs.History.{IsFoldOf, count_of};
ghost use Rattle.cg_links.specs.Counted.{link_of, IsFlushed};
ghost use Rattle.cg_views.specs.Lists.{opened_with};
ghost use Rattle.cg_locked.specs.Entry.{ShowsChange};
ghost use Rattle.cg_locked.specs.Shared.{callers_up_to};
ghost use Rattle.cg_locked.specs.declared.limits.TheConstants.{SEAT_LIMIT};
ghost use Rattle.cg_write_ahead.specs.Text.{AlwaysTells, HoldsText};
ghost use Rattle.cg_write_ahead.specs.Submitting.{IsEntryAhead};
ghost use Rattle.cg_ahead_seats.specs.Confirmed.{WasConfirmed};

use cg_core::Event;
use cg_history::{History, Receipt};
use cg_links::Counted;
use cg_locked::{Fresh, Name, Seat};
use cg_types::Fault;
use cg_views::{Publisher, Told};
use cg_write_ahead::{Ended, Journaled};
use std::alloc::Global;
use std::io::Write;
use std::slice;
use std::sync::{Mutex, MutexGuard, Wait};

// Applies an event by `Journaled::submit`, and confirms its receipt: its record is the last one, and is kept.
fn submit_confirmed<N: Name, W: Write + Drop, R: Wait>(
    rt: &R,
    alloc: Global,
    board: &mut Journaled<N, W>,
    seat: &mut Seat<N>,
    event: Event,
) -> Result<(Receipt, Option<Told<N>>), Fault>
    ensures entry { IsEntryAhead N.start seat.old event seat.new.seen result }
    ensures confirmed { IfOk result (λ r. WasConfirmed N.start seat.new.seen r.0) }
    ensures shown { IfOk result (λ r. IfSome r.1 (λ t. ShowsChange t N.opening.own event r.0.reply)) }
    ensures amount { OnOk result (seat.new.amount ≡ seat.old.amount + 1) }
    ensures err { IfErr result (λ f. (f ≡ faults.WriteFault) ⊎ (seat.new.amount ≡ seat.old.amount)) }
    ensures begins { IsPrefix seat.old.seen seat.new.seen }
    ensures seat { (seat.new.caller ≡ seat.old.caller) × (seat.new.parts ≡ seat.old.parts) }
{
    let (receipt, told) = board.submit(rt, alloc, seat, event)?;
    match board.history().confirms(slice::from_ref(&receipt)) {
        Ok(()) => Ok((receipt, told)),
        Err(unconfirmed) => Err(unconfirmed.fault),
    }
}

/// A board that writes its journal ahead, behind a lock.
pub struct SharedAhead<N: Name, W: Write> {
    board: Mutex<Journaled<N, W>>,
}

impl<N: Name, W: Write + Drop> SharedAhead<N, W> {
    /// Begins the journal and the board by `Journaled::begin`, and puts the board behind a lock.
    pub fn begin<R: Wait>(
        rt: &R,
        alloc: Global,
        history: History,
        publisher: Publisher<N>,
        fresh: Fresh,
        seats: usize,
        sink: Counted<W>,
        keep: usize,
    ) -> Result<(SharedAhead<N, W>, Vec<Seat<N>>), Fault>
        requires folds { N.folds ≡ true }
        requires fresh { (fresh.name ≡ N.name) × (fresh.parts ≡ N.parts) × (fresh.log ≡ N.log) × (N.parts ≡ seats) }
        requires seats { (0 < seats) × (seats ≤ SEAT_LIMIT) }
        requires history { (history.records ≡ []) × (history.folded ≡ 0) × (history.base ≡ N.start) }
        requires publisher { publisher ≡ opened_with history.base.table }
        requires sink { IfSome (W.contents (link_of sink)) (λ bytes. bytes ≡ []) }
        ensures seats { IfOk result (λ r. (vec_len r.1 ≡ seats) × (sum_by (λ s. s.parts) r.1.items ≡ N.parts)
            × (sum_by (λ s. s.amount) r.1.items ≡ 0)) }
        ensures callers { IfOk result (λ r. map (λ s. s.caller) r.1.items ≡ callers_up_to seats) }
    {
        let (board, made) = Journaled::begin(
            rt, alloc, history, publisher, fresh, seats, sink, keep,
        )?;
        let board = Mutex::new(board);
        Ok((SharedAhead { board }, made))
    }

    /// Applies an event for the seat's caller by `Journaled::submit` on the locked board, and confirms its receipt under
    /// the same lock.
    ///
    /// The seat counts an event that is done, and none that is refused; but at `WriteFault` it may count one whose
    /// record stands in memory alone.
    pub fn submit<R: Wait>(
        &self,
        rt: &R,
        alloc: Global,
        seat: &mut Seat<N>,
        event: Event,
    ) -> Result<(Receipt, Option<Told<N>>), Fault>
        ensures entry { IsEntryAhead N.start seat.old event seat.new.seen result }
        ensures confirmed { IfOk result (λ r. WasConfirmed N.start seat.new.seen r.0) }
        ensures shown { IfOk result (λ r. IfSome r.1 (λ t. ShowsChange t N.opening.own event r.0.reply)) }
        ensures amount { OnOk result (seat.new.amount ≡ seat.old.amount + 1) }
        ensures err { IfErr result (λ f. (f ≡ faults.WriteFault) ⊎ (seat.new.amount ≡ seat.old.amount)) }
        ensures begins { IsPrefix seat.old.seen seat.new.seen }
        ensures seat { (seat.new.caller ≡ seat.old.caller) × (seat.new.parts ≡ seat.old.parts) }
    {
        let mut board = self.board.lock(rt);
        let result = submit_confirmed(rt, alloc, &mut board, seat, event);
        MutexGuard::unlock(board);
        result
    }

    /// Locks the board, once it is free, and returns its guard, which `MutexGuard::unlock` has to end.
    pub fn lend<R: Wait>(&self, rt: &R) -> MutexGuard<'_, Journaled<N, W>> {
        self.board.lock(rt)
    }

    /// Returns `true` if a write of the journal failed: then the node has to end.
    pub fn is_torn<R: Wait>(&self, rt: &R) -> bool {
        let board = self.board.lock(rt);
        let torn = board.is_torn();
        MutexGuard::unlock(board);
        torn
    }

    /// Ends the board with all its seats, by `Journaled::finish`. The history has counted as many records as the seats,
    /// and is a fold of records that begin with all that each seat has seen. The journal's writer, if it tells what it
    /// holds, holds their text.
    pub fn finish<R: Wait>(self, rt: &R, seats: Vec<Seat<N>>) -> Ended<W>
        requires seats { (sum_by (λ s. s.parts) seats.items ≡ N.parts) × (0 < vec_len seats) }
        ensures start { result.history.start ≡ N.start }
        ensures count { count_of result.history ≡ sum_by (λ s. s.amount) seats.items }
        ensures text { (all : List Item) × IsFoldOf all result.history × All (λ s. IsPrefix s.seen all) seats.items
            × (AlwaysTells W.contents → HoldsText N.start all result.torn (W.contents (link_of result.sink))) }
        ensures flushed { result.torn ≡ false → IsFlushed result.sink }
    {
        let SharedAhead { board } = self;
        board.into_inner().finish(rt, seats)
    }
}
