//! The gate over a seat.

ghost use Rattle.std.specs.Prelude.{◌≡◌, ◌++◌, [], None, length};
ghost use Rattle.cg_history.specs.Confirming.{AreConfirmed};
ghost use Rattle.cg_locked.specs.Seats.{AreOfCaller, new_gate, with_told};

use crate::name::Name;
use crate::seat::Seat;
use crate::shared::Shared;
use cg_core::{Event, Reply};
use cg_engine::Gate;
use cg_history::{Enter, Receipt};
use cg_types::Fault;
use cg_views::Told;
use std::alloc::Global;
use std::marker::Model;
use std::sync::Wait;

/// A seat at a shared node, the receipts of the events done from it, and the `Told` of the last of them.
#[derive(Drop)]
pub struct SeatGate<'a, N: Name, R: Wait> {
    rt: &'a R,
    shared: &'a Shared<N>,
    seat: Seat<N>,
    receipts: Vec<Receipt>,
    told: Option<Told<N>>,
}

/// A contract sees the caller and the parts of the seat, the receipts, and the `Told`. The seat has counted the
/// receipts, they are its caller's, and the records that it has seen confirm them.
impl<'a, N: Name, R: Wait> Model for SeatGate<'a, N, R> {
    ghost use Rattle.std.specs.Prelude.{◌≡◌, length};
    ghost use Rattle.cg_history.specs.Confirming.{AreConfirmed};
    ghost use Rattle.cg_locked.specs.Seats.{SeatValue, AreOfCaller, seat_code};

    ghost Value = { SeatValue };

    ghost coded = { seat_code };

    ghost view = { λ g. record {
      caller = g.seat.caller;
      parts = g.seat.parts;
      receipts = g.receipts.items;
      told = g.told;
    } };

    ghost invariant = { λ g. (g.seat.amount ≡ length g.receipts.items) × AreOfCaller g.seat.caller g.receipts.items
        × AreConfirmed 0 g.seat.seen g.receipts.items };
}

impl<'a, N: Name, R: Wait> SeatGate<'a, N, R> {
    /// Makes the gate over a seat from which no event was done yet.
    pub fn new(rt: &'a R, alloc: Global, shared: &'a Shared<N>, seat: Seat<N>) -> SeatGate<'a, N, R>
        requires { seat.amount ≡ 0 }
        ensures { result ≡ new_gate seat.caller seat.parts }
    {
        SeatGate {
            rt,
            shared,
            seat,
            receipts: Vec::new(alloc),
            told: None,
        }
    }

    /// Returns the receipts of the events done, in their order. They are all of the seat's caller.
    pub fn receipts(&self) -> &[Receipt]
        ensures value { result.now ≡ self.now.receipts }
        ensures own { AreOfCaller self.now.caller self.now.receipts }
    {
        &self.receipts
    }

    /// Hands over the `Told` of the last event, once. `None` if no event was done, if no memory was found to publish
    /// it, or if it was handed over before.
    pub fn told(&mut self) -> Option<Told<N>>
        ensures told { result ≡ self.old.told }
        ensures gate { self.new ≡ with_told self.old None }
    {
        self.told.take()
    }

    /// Returns the seat, which has counted the receipts and seen records that confirm them, and the receipts.
    pub fn into_parts(self) -> (Seat<N>, Vec<Receipt>)
        ensures seat { (result.0.caller ≡ self.entry.caller) × (result.0.parts ≡ self.entry.parts)
            × (result.0.amount ≡ length self.entry.receipts) }
        ensures receipts { result.1.items ≡ self.entry.receipts }
        ensures own { AreOfCaller self.entry.caller self.entry.receipts }
        ensures confirmed { AreConfirmed 0 result.0.seen self.entry.receipts }
    {
        let SeatGate { seat, receipts, .. } = self;
        (seat, receipts)
    }
}

/// Enters an event for the seat's caller; if it is done, its receipt is kept. Room for the receipt is made before all
/// else, so that none is lost: `OutOfMemory`, whatever else is expected, if there is no room. A refused event changes
/// nothing.
impl<'a, N: Name, R: Wait> Gate for SeatGate<'a, N, R> {
    ghost use Rattle.std.specs.Prelude.{◌≡◌};
    ghost use Rattle.cg_locked.specs.Seats.{Enters, Refuses, last_reply};

    ghost does = { Enters N.start N.opening.own };

    ghost refuses = { Refuses N.start };

    ghost stays = { λ s t. t ≡ s };

    ghost last = { λ g. last_reply g.receipts };

    fn event(&mut self, alloc: Global, event: Event) -> Result<(), Fault> {
        self.receipts.reserve(1)?;
        let (receipt, told) = self.shared.submit(self.rt, alloc, &mut self.seat, event)?;
        self.receipts.push_reserved(receipt);
        self.told = told;
        Ok(())
    }

    fn reply(&self) -> Option<&Reply> {
        match self.receipts.last() {
            Some(receipt) => Some(&receipt.reply),
            None => None,
        }
    }
}

impl<'a, N: Name, R: Wait> Enter for SeatGate<'a, N, R> {
    ghost use Rattle.cg_locked.specs.Seats.{Enters, Refuses};

    ghost receipts = { λ g. g.receipts };

    ghost seat = { λ g. (g.caller, g.parts) };

    ghost does = { Enters N.start N.opening.own };

    ghost refuses = { Refuses N.start };

    fn enter(&mut self, alloc: Global, event: Event) -> Result<(), Fault> {
        self.event(alloc, event)
    }

    fn last(&self) -> Option<&Receipt> {
        self.receipts.last()
    }
}
