//! The gate over a seat, whose receipts are confirmed at once.

ghost use Rattle.std.specs.Prelude.{◌≡◌, None};
ghost use Rattle.cg_ahead_seats.specs.Gates.{new_gate, with_told, forgotten};

use crate::shared::SharedAhead;
use cg_core::{Event, Reply};
use cg_engine::Gate;
use cg_history::Receipt;
use cg_locked::{Name, Seat};
use cg_types::Fault;
use cg_views::Told;
use std::alloc::Global;
use std::io::Write;
use std::marker::Model;
use std::sync::Wait;

/// A seat at a shared node that writes its journal ahead, the receipt of the last event done from it, and its `Told`;
/// and whether an event of the gate met a journal that could not be written.
#[derive(Drop)]
pub struct AheadGate<'a, N: Name, W: Write + Drop, R: Wait> {
    rt: &'a R,
    shared: &'a SharedAhead<N, W>,
    seat: Seat<N>,
    last: Option<Receipt>,
    told: Option<Told<N>>,
    torn: bool,
}

/// A contract sees the seat, the last receipt, the `Told`, and whether the journal failed.
impl<'a, N: Name, W: Write + Drop, R: Wait> Model for AheadGate<'a, N, W, R> {
    ghost use Rattle.std.specs.Prelude.{⊤};
    ghost use Rattle.cg_ahead_seats.specs.Gates.{AheadValue, ahead_code};

    ghost Value = { AheadValue };

    ghost coded = { ahead_code };

    ghost view = { λ g. record {
      seat = g.seat;
      last = g.last;
      told = g.told;
      torn = g.torn;
    } };

    ghost invariant = { λ g. ⊤ };
}

impl<'a, N: Name, W: Write + Drop, R: Wait> AheadGate<'a, N, W, R> {
    /// Makes the gate over a seat.
    pub fn new(rt: &'a R, shared: &'a SharedAhead<N, W>, seat: Seat<N>) -> AheadGate<'a, N, W, R>
        ensures { result ≡ new_gate seat }
    {
        AheadGate {
            rt,
            shared,
            seat,
            last: None,
            told: None,
            torn: false,
        }
    }

    /// Hands over the `Told` of the last event, once. `None` if no event was done, if no memory was found to publish
    /// it, or if it was handed over before.
    pub fn told(&mut self) -> Option<Told<N>>
        ensures told { result ≡ self.old.told }
        ensures gate { self.new ≡ with_told self.old None }
    {
        self.told.take()
    }

    /// Lets go of the last receipt and the `Told`, whose message would else stay in memory until the next event.
    pub fn forget(&mut self)
        ensures { self.new ≡ forgotten self.old }
    {
        self.last = None;
        self.told = None;
    }

    /// Returns `true` if an event of the gate met a journal that could not be written: then the node has to end.
    pub fn is_torn(&self) -> bool
        ensures { result ≡ self.now.torn }
    {
        self.torn
    }

    /// Returns the seat. It counted the events done, and those whose line could not be written.
    pub fn into_seat(self) -> Seat<N>
        ensures { result ≡ self.entry.seat }
    {
        let AheadGate { seat, .. } = self;
        seat
    }
}

/// Enters an event for the seat's caller. If it is done, its receipt was confirmed, and is the last one. If it is
/// refused, there is no record of it.
///
/// `OutOfMemory` also if the journal could not be written, since no fault of a gate may be that of a link: `is_torn`
/// tells that if it was at this gate, `SharedAhead::is_torn` wherever it was. Then a record may stand in memory alone,
/// and no event is done any more.
impl<'a, N: Name, W: Write + Drop, R: Wait> Gate for AheadGate<'a, N, W, R> {
    ghost use Rattle.cg_ahead_seats.specs.Gates.{Enters, Refuses, Stays, last_reply};

    ghost does = { Enters N.start N.opening.own };

    ghost refuses = { Refuses N.start };

    ghost stays = { Stays };

    ghost last = { last_reply };

    fn event(&mut self, alloc: Global, event: Event) -> Result<(), Fault> {
        match self.shared.submit(self.rt, alloc, &mut self.seat, event) {
            Ok((receipt, told)) => {
                self.last = Some(receipt);
                self.told = told;
                Ok(())
            }
            Err(fault) => match fault {
                Fault::WriteFault => {
                    self.torn = true;
                    Err(Fault::OutOfMemory)
                }
                fault => Err(fault),
            },
        }
    }

    fn reply(&self) -> Option<&Reply> {
        match &self.last {
            Some(receipt) => Some(&receipt.reply),
            None => None,
        }
    }
}
