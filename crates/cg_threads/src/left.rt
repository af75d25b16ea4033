//! The results of the workers: seats, receipts and ends of the channel.

ghost use Rattle.std.specs.Prelude.{◌≡◌, [], true, false, length};
ghost use Rattle.cg_history.specs.Confirming.{AreConfirmed};
ghost use Rattle.cg_threads.specs.Workers.{all_began};

use cg_history::Receipt;
use cg_locked::{Name, Seat};
use cg_workers::{Putting, Taken};
use std::alloc::Global;
use std::marker::Model;

/// A worker's seat, and its receipts; and `true` if it began. A contract sees this, the seat's parts of the board's
/// ledger, and the receipts, which the seat has counted. The records that the seat has seen confirm them.
#[derive(Drop)]
pub struct SeatLeft<N: Name> {
    began: bool,
    seat: Seat<N>,
    receipts: Vec<Receipt>,
}

impl<N: Name> Model for SeatLeft<N> {
    ghost use Rattle.std.specs.Prelude.{◌≡◌, length};
    ghost use Rattle.cg_history.specs.Confirming.{AreConfirmed};
    ghost use Rattle.cg_threads.specs.Left.{LeftValue, left_code};

    ghost Value = { LeftValue };

    ghost coded = { left_code };

    ghost view = { λ l. record { began = l.began; parts = l.seat.parts; receipts = l.receipts.items } };

    ghost invariant = { λ l. (l.seat.amount ≡ length l.receipts.items)
        × AreConfirmed 0 l.seat.seen l.receipts.items };
}

impl<N: Name> SeatLeft<N> {
    /// Makes the `SeatLeft` of a worker that began: its seat, and the receipts that it has counted, which the records
    /// that it has seen confirm.
    pub fn of(seat: Seat<N>, receipts: Vec<Receipt>) -> SeatLeft<N>
        requires counted { seat.amount ≡ length receipts.items }
        requires confirmed { AreConfirmed 0 seat.seen receipts.items }
        ensures { result ≡ record { began = true; parts = seat.parts; receipts = receipts.items } }
    {
        SeatLeft {
            began: true,
            seat,
            receipts,
        }
    }

    /// Makes the `SeatLeft` of a worker that did not begin: its seat has counted nothing. It takes no memory.
    pub fn unused(alloc: Global, seat: Seat<N>) -> SeatLeft<N>
        requires { seat.amount ≡ 0 }
        ensures { result ≡ record { began = false; parts = seat.parts; receipts = [] } }
    {
        SeatLeft {
            began: false,
            seat,
            receipts: Vec::new(alloc),
        }
    }

    /// Tests whether the worker began.
    pub fn began(&self) -> bool
        ensures { result ≡ self.now.began }
    {
        self.began
    }

    /// Returns the seat and the receipts.
    pub fn into_parts(self) -> (Seat<N>, Vec<Receipt>)
        ensures seat { (result.0.parts ≡ self.parts) × (result.0.amount ≡ length self.receipts) }
        ensures receipts { result.1.items ≡ self.receipts }
        ensures confirmed { AreConfirmed 0 result.0.seen self.receipts }
    {
        let SeatLeft { seat, receipts, .. } = self;
        (seat, receipts)
    }
}

/// The sender's seat and receipts, the rounds that it took, and their numbers in their order.
#[derive(Drop)]
pub struct SenderLeft<N: Name> {
    pub left: SeatLeft<N>,
    pub taken: Taken,
    pub numbers: Vec<u64>,
}

/// The ticker's seat and receipts, and the end into which it put its rounds.
#[derive(Drop)]
pub struct TickerLeft<N: Name> {
    pub left: SeatLeft<N>,
    pub putting: Putting,
}

/// The results of all workers.
#[derive(Drop)]
pub struct WorkersLeft<N: Name> {
    pub receiver: SeatLeft<N>,
    pub sender: SenderLeft<N>,
    pub ticker: TickerLeft<N>,
    pub operator: SeatLeft<N>,
}

impl<N: Name> WorkersLeft<N> {
    /// Tests whether all workers began.
    pub fn all_began(&self) -> bool
        ensures { result ≡ all_began self.now }
    {
        self.receiver.began()
            && self.sender.left.began()
            && self.ticker.left.began()
            && self.operator.began()
    }
}
