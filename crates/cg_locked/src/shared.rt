//! The board behind its lock.

ghost use Rattle.std.specs.Prelude.{◌≡◌, ◌+◌, ◌<◌, ◌≤◌, false, List, [], map, vec_len, vec_capacity, IfOk, IfSome, OnOk, OnErr, MatchResult};
ghost use Rattle.std.specs.List.{All, sum_by};
ghost use mathlib.Core.List.{IsPrefix};
ghost use Rattle.cg_history.specs.declared.item.Item.{Item};
ghost use Rattle.cg_history.specs.Confirming.{AreConfirmed, IsFirstUnconfirmed};
ghost use Rattle.cg_history.specs.History.{IsFoldOf, count_of};
ghost use Rattle.cg_views.specs.Lists.{opened_with};
ghost use Rattle.cg_locked.specs.Entry.{IsEntered, ShowsChange};
ghost use Rattle.cg_locked.specs.Shared.{callers_up_to, history_of, unconfirmed_receipt};

use crate::board::Board;
use crate::limits::SEAT_LIMIT;
use crate::log::{Log, OpenedLog};
use crate::name::Name;
use crate::seat::Seat;
use cg_core::Event;
use cg_history::{History, Receipt};
use cg_types::Fault;
use cg_views::{Publisher, Told};
use std::alloc::{AllocError, Global};
use std::fmt;
use std::marker::Model;
use std::sync::ledger::{Blank, Share};
use std::sync::{Mutex, MutexGuard, Wait};
use thiserror::Error;

/// The locked board, borrowed until `MutexGuard::unlock` ends the guard.
pub type BoardGuard<'a, N> = MutexGuard<'a, Board<N>>;

/// A history with the first receipt that it does not confirm: its place in the list, counted from 0, and the fault.
#[derive(Drop, Error)]
#[error("receipt {place}, counted from 0, is not confirmed: {fault}")]
pub struct Unconfirmed {
    pub history: History,
    pub place: usize,
    pub fault: Fault,
}

/// Leaves out the history, which has no such text.
impl fmt::Debug for Unconfirmed {
    fn fmt<W: fmt::Write>(&self, f: &mut fmt::Formatter<W>) -> fmt::Result {
        let Unconfirmed { place, fault, .. } = self;
        write!(f, "Unconfirmed {{ place: {place}, fault: {fault:?}, .. }}")
    }
}

/// A new ledger of a number of parts, and an empty log, under no name yet. Contracts see which they are.
#[derive(Drop)]
pub struct Fresh {
    blank: Blank,
    log: OpenedLog,
}

impl Model for Fresh {
    ghost use Rattle.cg_locked.specs.Shared.{FreshValue, fresh_code};

    ghost Value = { FreshValue };

    ghost coded = { fresh_code };

    ghost view = { λ f. record { name = f.blank.name; parts = f.blank.parts; log = f.log } };
}

impl Fresh {
    /// Makes a new ledger of this number of parts, and opens an empty log.
    pub fn new(parts: u64) -> Fresh
        ensures { result.parts ≡ parts }
    {
        Fresh {
            blank: Blank::new(parts),
            log: OpenedLog::new(),
        }
    }
}

impl<N: Name> Board<N> {
    /// Begins the board of a new history and its publisher, which is behind no lock, and makes `seats` seats, 1 to
    /// `SEAT_LIMIT`, of callers 1, 2, and so on.
    pub fn begin<R: Wait>(
        rt: &R,
        alloc: Global,
        history: History,
        publisher: Publisher<N>,
        fresh: Fresh,
        seats: usize,
    ) -> Result<(Board<N>, Vec<Seat<N>>), AllocError>
        requires fresh { (fresh.name ≡ N.name) × (fresh.parts ≡ N.parts) × (fresh.log ≡ N.log) × (N.parts ≡ seats) }
        requires seats { (0 < seats) × (seats ≤ SEAT_LIMIT) }
        requires history { (history.records ≡ []) × (history.folded ≡ 0) × (history.base ≡ N.start) }
        requires publisher { publisher ≡ opened_with history.base.table }
        ensures history { IfOk result (λ r. (r.0.history ≡ history) × (r.0.log ≡ [])) }
        ensures seats { IfOk result (λ r. (vec_len r.1 ≡ seats) × (sum_by (λ s. s.parts) r.1.items ≡ N.parts)
            × (sum_by (λ s. s.amount) r.1.items ≡ 0)) }
        ensures callers { IfOk result (λ r. map (λ s. s.caller) r.1.items ≡ callers_up_to seats) }
    {
        let made = match Vec::with_capacity(alloc, seats) {
            Ok(made) => made,
            Err(error) => {
                publisher.close(rt);
                return Err(error);
            }
        };
        let Fresh { blank, log } = fresh;
        let Some(log) = log.named::<N>() else {
            publisher.close(rt);
            return Err(AllocError);
        };
        let (book, rest) = blank.open::<N>();
        let made = cut(made, rest, &log, seats);
        Ok((Board::new(history, publisher, book, log), made))
    }

    /// Ends the board with all its seats, and returns the history if it confirms the receipts, else the history with
    /// the first receipt that it does not confirm. The history is a fold of the records that the log lists, as many as
    /// the seats have counted, which begin with all that each seat has seen. Passes read nothing from then on.
    pub fn finish<R: Wait>(
        self,
        rt: &R,
        seats: Vec<Seat<N>>,
        receipts: &[Receipt],
    ) -> Result<History, Unconfirmed>
        requires seats { (sum_by (λ s. s.parts) seats.items ≡ N.parts) × (0 < vec_len seats) }
        ensures history { history_of result ≡ self.history }
        ensures start { (history_of result).start ≡ N.start }
        ensures whole { N.folds ≡ false → (history_of result).folded ≡ 0 }
        ensures count { count_of (history_of result) ≡ sum_by (λ s. s.amount) seats.items }
        ensures fold { IsFoldOf self.log (history_of result) }
        ensures seen { All (λ s. IsPrefix s.seen self.log) seats.items }
        ensures confirmed { MatchResult result (λ h. AreConfirmed h.folded h.records receipts.now)
            (λ u. IsFirstUnconfirmed u.history.folded u.history.records receipts.now (unconfirmed_receipt u)) }
    {
        let (history, publisher, mut book, mut log) = self.apart();
        publisher.close(rt);
        meet_all(&mut log, &seats);
        let mut all = gathered(seats);
        book.audit(&mut all);
        match history.confirms(receipts) {
            Ok(()) => Ok(history),
            Err(unconfirmed) => Err(Unconfirmed {
                history,
                place: unconfirmed.place,
                fault: unconfirmed.fault,
            }),
        }
    }
}

/// One node's history behind a lock.
pub struct Shared<N: Name> {
    board: Mutex<Board<N>>,
}

impl<N: Name> Shared<N> {
    /// Puts a new history and its publisher behind a lock, and makes `seats` seats, 1 to `SEAT_LIMIT`, of callers 1, 2,
    /// and so on, by `Board::begin`.
    pub fn begin<R: Wait>(
        rt: &R,
        alloc: Global,
        history: History,
        publisher: Publisher<N>,
        fresh: Fresh,
        seats: usize,
    ) -> Result<(Shared<N>, Vec<Seat<N>>), AllocError>
        requires fresh { (fresh.name ≡ N.name) × (fresh.parts ≡ N.parts) × (fresh.log ≡ N.log) × (N.parts ≡ seats) }
        requires seats { (0 < seats) × (seats ≤ SEAT_LIMIT) }
        requires history { (history.records ≡ []) × (history.folded ≡ 0) × (history.base ≡ N.start) }
        requires publisher { publisher ≡ opened_with history.base.table }
        ensures seats { IfOk result (λ r. (vec_len r.1 ≡ seats) × (sum_by (λ s. s.parts) r.1.items ≡ N.parts)
            × (sum_by (λ s. s.amount) r.1.items ≡ 0)) }
        ensures callers { IfOk result (λ r. map (λ s. s.caller) r.1.items ≡ callers_up_to seats) }
    {
        let (board, made) = Board::begin(rt, alloc, history, publisher, fresh, seats)?;
        let board = Mutex::new(board);
        Ok((Shared { board }, made))
    }

    /// Locks the board, once it is free, and returns its guard.
    ///
    /// No clause says what the board holds; its type says what is always true of it. The guard can't be dropped:
    /// `MutexGuard::unlock` has to end it, on every path. So no `?` may come between the two calls.
    pub fn lend<R: Wait>(&self, rt: &R) -> BoardGuard<'_, N> {
        self.board.lock(rt)
    }

    /// Applies an event for the seat's caller, by `Board::enter_and_tell` on the locked board, and publishes it if
    /// memory is found.
    ///
    /// There is no `Told` if there was no memory to publish: the record is kept, and the next publication has it. The
    /// seat has then seen all records up to its own, which is the last of them; if the event is refused, it has seen all
    /// records, and there is none of the event. Other threads may enter more before and behind.
    pub fn submit<R: Wait>(
        &self,
        rt: &R,
        alloc: Global,
        seat: &mut Seat<N>,
        event: Event,
    ) -> Result<(Receipt, Option<Told<N>>), Fault>
        ensures entry { IsEntered N.start seat.old event seat.new.seen result }
        ensures shown { IfOk result (λ r. IfSome r.1 (λ t. ShowsChange t N.opening.own event r.0.reply)) }
        ensures amount { OnOk result (seat.new.amount ≡ seat.old.amount + 1) }
        ensures err { OnErr result (seat.new.amount ≡ seat.old.amount) }
        ensures seat { (seat.new.caller ≡ seat.old.caller) × (seat.new.parts ≡ seat.old.parts) }
    {
        let mut board = self.board.lock(rt);
        let result = board.enter_and_tell(rt, alloc, seat, event);
        MutexGuard::unlock(board);
        result
    }

    /// Ends the board with all its seats, by `Board::finish`, and returns the history if it confirms the receipts.
    ///
    /// Else it returns the history with the first receipt that it does not confirm. The history has counted as many
    /// records as the seats, and is a fold of records that begin with all that each seat has seen. If none is folded, it
    /// confirms what `submit` answered, by the laws `entries_are_confirmed` and `confirmed_stay`. Passes read nothing
    /// from then on.
    pub fn finish<R: Wait>(
        self,
        rt: &R,
        seats: Vec<Seat<N>>,
        receipts: &[Receipt],
    ) -> Result<History, Unconfirmed>
        requires seats { (sum_by (λ s. s.parts) seats.items ≡ N.parts) × (0 < vec_len seats) }
        ensures start { (history_of result).start ≡ N.start }
        ensures whole { N.folds ≡ false → (history_of result).folded ≡ 0 }
        ensures count { count_of (history_of result) ≡ sum_by (λ s. s.amount) seats.items }
        ensures seen { (all : List Item) × IsFoldOf all (history_of result)
            × All (λ s. IsPrefix s.seen all) seats.items }
        ensures confirmed { MatchResult result (λ h. AreConfirmed h.folded h.records receipts.now)
            (λ u. IsFirstUnconfirmed u.history.folded u.history.records receipts.now (unconfirmed_receipt u)) }
    {
        let Shared { board } = self;
        board.into_inner().finish(rt, seats, receipts)
    }
}

// Cuts the whole share into seats of one part.
fn cut<N: Name>(
    mut made: Vec<Seat<N>>,
    mut rest: Share<N>,
    log: &Log<N>,
    seats: usize,
) -> Vec<Seat<N>>
    requires made { (made.items ≡ []) × (vec_len made ≡ 0) × (seats ≤ vec_capacity made) }
    requires rest { (rest.parts ≡ seats) × (rest.amount ≡ 0) }
    requires few { seats ≤ SEAT_LIMIT }
    ensures parts { sum_by (λ s. s.parts) result.items ≡ seats }
    ensures amounts { sum_by (λ s. s.amount) result.items ≡ 0 }
    ensures len { vec_len result ≡ seats }
    ensures callers { map (λ s. s.caller) result.items ≡ callers_up_to seats }
{
    for i in 0..seats {
        let share = rest.split_off(1, 0);
        made.push_reserved(Seat::of(i as u32 + 1, share, log.front()));
    }
    made
}

// Finds that the log begins with all that each seat has seen.
fn meet_all<N: Name>(log: &mut Log<N>, seats: &[Seat<N>])
    ensures same { log.new ≡ log.old }
    ensures begins { All (λ s. IsPrefix s.seen log.new) seats.now }
{
    for seat in seats {
        log.meet(seat.front());
    }
}

// Puts the shares of all seats together.
fn gathered<N: Name>(mut seats: Vec<Seat<N>>) -> Share<N>
    requires { 0 < vec_len seats }
    ensures parts { result.parts ≡ sum_by (λ s. s.parts) seats.items }
    ensures amount { result.amount ≡ sum_by (λ s. s.amount) seats.items }
{
    let mut all = seats.pop().unwrap().into_share();
    for seat in seats {
        all.merge(seat.into_share());
    }
    all
}
