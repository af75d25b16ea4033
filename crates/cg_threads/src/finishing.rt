//! Putting together the results of the workers.

ghost use Rattle.std.specs.Prelude.{◌≡◌, ◌+◌, ◌≤◌, ◌<◌, ◌++◌, [], true, false, length, vec_len, vec_capacity, IfOk, IfErr, MatchResult};
ghost use Rattle.std.specs.List.{sum_by};
ghost use Rattle.cg_history.specs.Confirming.{AreConfirmed, IsFirstUnconfirmed};
ghost use Rattle.cg_history.specs.History.{count_of};
ghost use Rattle.cg_locked.specs.Shared.{history_of, unconfirmed_receipt};
ghost use Rattle.cg_threads.specs.Left.{receipts_of, AreOfWorkers, AreTaken};
ghost use Rattle.cg_threads.specs.Workers.{all_began, work_of};
ghost use Rattle.cg_threads.specs.Ran.{IsUnconfirmedBehind, UnconfirmedIn, IsRun, IsNotRun, TellsStart};

use crate::left::{SenderLeft, TickerLeft, WorkersLeft};
use crate::ran::{NotRun, Ran};
use cg_history::{History, Receipt};
use cg_locked::{Name, Seat, Shared, Unconfirmed};
use cg_types::{Fault, Shows};
use std::sync::Wait;

// Has a history confirm further receipts, which come after `before` others.
fn confirm_behind(
    history: History,
    before: usize,
    receipts: &[Receipt],
) -> Result<History, Unconfirmed>
    requires { before + length receipts.now ≤ count_of history }
    ensures history { history_of result ≡ history }
    ensures confirmed { MatchResult result (λ h. AreConfirmed h.folded h.records receipts.now)
        (λ u. IsUnconfirmedBehind before u.history.folded u.history.records receipts.now (unconfirmed_receipt u)) }
{
    history.show();
    match history.confirms(receipts) {
        Ok(()) => Ok(history),
        Err(unconfirmed) => Err(Unconfirmed {
            history,
            place: before + unconfirmed.place,
            fault: unconfirmed.fault,
        }),
    }
}

// Puts the seats back together, and has the history confirm all receipts: the receiver's, the sender's, the ticker's and
// the operator's.
fn confirm_all<N: Name, R: Wait>(
    rt: &R,
    shared: Shared<N>,
    seats: Vec<Seat<N>>,
    receiver: &[Receipt],
    sender: &[Receipt],
    ticker: &[Receipt],
    operator: &[Receipt],
) -> Result<History, Unconfirmed>
    requires seats { (sum_by (λ s. s.parts) seats.items ≡ N.parts) × (0 < vec_len seats) }
    requires count { sum_by (λ s. s.amount) seats.items
        ≡ length receiver.now + length sender.now + length ticker.now + length operator.now }
    requires receipts { AreOfWorkers receiver.now sender.now ticker.now operator.now }
    requires whole { N.folds ≡ false }
    ensures start { (history_of result).start ≡ N.start }
    ensures whole { (history_of result).folded ≡ 0 }
    ensures count { count_of (history_of result)
        ≡ length (receiver.now ++ sender.now ++ ticker.now ++ operator.now) }
    ensures confirmed { MatchResult result
        (λ h. AreConfirmed h.folded h.records (receiver.now ++ sender.now ++ ticker.now ++ operator.now))
        (λ u. IsFirstUnconfirmed u.history.folded u.history.records
        (receiver.now ++ sender.now ++ ticker.now ++ operator.now) (unconfirmed_receipt u)) }
{
    let history = shared.finish(rt, seats, receiver)?;
    let history = confirm_behind(history, receiver.len(), sender)?;
    let history = confirm_behind(history, receiver.len() + sender.len(), ticker)?;
    let before = receiver.len() + sender.len() + ticker.len();
    confirm_behind(history, before, operator)
}

/// Puts the seats of workers that have ended back together, and has the history confirm their receipts. These are, in
/// this order, the receiver's, the sender's, the ticker's and the operator's. Returns that history and the numbers of
/// the rounds that the sender took.
///
/// `Unstarted`, with OutOfMemory, if not all workers began, whatever the history confirms. `Unconfirmed` has the
/// history, and the fault and the place of the first receipt that it does not confirm. Places count from 0 through all
/// receipts in that order. No record of either history is folded. `work` has the results of this board's workers: all
/// its parts, and both ends of one channel. `seats` is an empty list with room for four. It may wait for the lock.
pub fn gather<N: Name, R: Wait>(
    rt: &R,
    shared: Shared<N>,
    seats: Vec<Seat<N>>,
    work: WorkersLeft<N>,
) -> Result<Ran, NotRun>
    requires seats { (seats.items ≡ []) × (4 ≤ vec_capacity seats) }
    requires parts { work.receiver.parts + work.sender.left.parts + work.ticker.left.parts + work.operator.parts
        ≡ N.parts }
    requires receipts { AreOfWorkers work.receiver.receipts work.sender.left.receipts
        work.ticker.left.receipts work.operator.receipts }
    requires whole { N.folds ≡ false }
    requires taken { AreTaken work.ticker.putting work.sender.taken work.sender.numbers.items
        work.ticker.left.receipts }
    ensures ran { IfOk result (λ r. IsRun N.start (λ w. w ≡ work_of work) r.history r.rounds.items) }
    ensures confirmed { IfOk result (λ r. AreConfirmed r.history.folded r.history.records (receipts_of (work_of work))) }
    ensures rounds { IfOk result (λ r. r.rounds.items ≡ work.sender.numbers.items) }
    ensures began { IfOk result (λ _. all_began work ≡ true) }
    ensures not { IfErr result (IsNotRun N.start (λ w. w ≡ work_of work)) }
    ensures unconfirmed { IfErr result (UnconfirmedIn (receipts_of (work_of work))) }
    ensures tells { IfErr result (TellsStart (all_began work)) }
{
    let mut seats = seats;
    let began = work.all_began();
    let WorkersLeft {
        receiver,
        sender,
        ticker,
        operator,
    } = work;
    let SenderLeft {
        left: sender,
        taken,
        numbers,
    } = sender;
    let TickerLeft {
        left: ticker,
        putting,
    } = ticker;
    putting.compare(taken);
    let (seat, receiver) = receiver.into_parts();
    seats.push_reserved(seat);
    let (seat, sender) = sender.into_parts();
    seats.push_reserved(seat);
    let (seat, ticker) = ticker.into_parts();
    seats.push_reserved(seat);
    let (seat, operator) = operator.into_parts();
    seats.push_reserved(seat);
    let left = confirm_all(rt, shared, seats, &receiver, &sender, &ticker, &operator);
    if !began {
        return Err(NotRun::Unstarted(Fault::OutOfMemory));
    }
    match left {
        Ok(history) => {
            history.show();
            Ok(Ran {
                history,
                rounds: numbers,
            })
        }
        Err(left) => {
            left.history.show();
            Err(NotRun::Unconfirmed(left))
        }
    }
}
