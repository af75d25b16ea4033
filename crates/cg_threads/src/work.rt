//! The workers: each works over a gate of its seat, and gives the seat back. All but the receiver wait for the start
//! signal first.

ghost use Rattle.std.specs.Prelude.{◌≡◌, [], true};
ghost use Rattle.cg_workers.specs.Ends.{put_by, taken_by, taken_in};
ghost use Rattle.cg_locked.specs.Seats.{AreOfCaller};
ghost use Rattle.cg_threads.specs.Left.{IsLeft, HasTaken, HasPut, is_received, is_ack, is_tick, is_any};
ghost use Rattle.cg_threads.specs.Worked.{HasReceived, HasSent, HasBegun, HasOperated};

use crate::left::{SeatLeft, SenderLeft, TickerLeft};
use crate::site::Site;
use cg_locked::{Name, Operate, Seat, SeatGate, operator};
use cg_views::Pass;
use cg_workers::{Dial, Listen, Milliseconds, Putting, Taking, Turns, receiver, sender, ticker};
use rand_core::Rng;
use std::alloc::Global;
use std::rt::Clock;
use std::sync::Wait;

// Takes a gate apart: its seat and its receipts, which are all of the seat's caller.
fn left_of<N: Name, R: Wait>(gate: SeatGate<'_, N, R>) -> SeatLeft<N>
    ensures began { result.began ≡ true }
    ensures parts { result.parts ≡ gate.entry.parts }
    ensures receipts { result.receipts ≡ gate.entry.receipts }
    ensures own { AreOfCaller gate.entry.caller gate.entry.receipts }
{
    let (seat, receipts) = gate.into_parts();
    SeatLeft::of(seat, receipts)
}

/// Does the receiver's work, and returns its seat with its receipts.
///
/// It answers up to `exchanges` connections, and a fault of the listener ends it.
pub fn run_receiver<N: Name, R: Wait, L: Listen + Drop, C: Milliseconds>(
    rt: &R,
    alloc: Global,
    site: &Site<N, C>,
    seat: Seat<N>,
    mut listener: L,
    exchanges: u32,
) -> SeatLeft<N>
    requires { seat.amount ≡ 0 }
    ensures left { IsLeft is_received seat.caller seat.parts result }
    ensures began { result.began ≡ true }
    ensures work { HasReceived N.start N.opening.own L.Reader.remaining L.Writer.contents (C.shows site.now.clock)
        seat.caller L.accepts exchanges listener result.receipts }
{
    let mut gate = SeatGate::new(rt, alloc, &site.shared, seat);
    let _came = receiver(alloc, &mut gate, &mut listener, &site.clock, exchanges);
    left_of(gate)
}

// Does the receiver's work if all workers were told to begin, and returns its seat with its receipts.
pub(crate) fn receive_told<N: Name, R: Wait, L: Listen + Drop, C: Milliseconds>(
    rt: &R,
    alloc: Global,
    site: &Site<N, C>,
    begins: bool,
    seat: Seat<N>,
    listener: L,
    turns: Turns,
) -> SeatLeft<N>
    requires seat { seat.amount ≡ 0 }
    ensures left { IsLeft is_received seat.caller seat.parts result }
    ensures work { result.began ≡ true → HasReceived N.start N.opening.own L.Reader.remaining L.Writer.contents
        (C.shows site.now.clock) seat.caller L.accepts turns.exchanges listener result.receipts }
{
    if !begins {
        return SeatLeft::unused(alloc, seat);
    }
    run_receiver(rt, alloc, site, seat, listener, turns.exchanges)
}

/// Does the sender's work if all workers were started, and returns its seat with its receipts and the rounds taken.
///
/// It sends the rounds that come through the channel, until that ends.
pub fn run_sender<N: Name, R: Wait, D: Dial + Drop, C: Milliseconds>(
    rt: &R,
    alloc: Global,
    site: &Site<N, C>,
    seat: Seat<N>,
    mut dialer: D,
    mut taking: Taking,
) -> SenderLeft<N>
    requires seat { seat.amount ≡ 0 }
    requires taking { taken_by taking ≡ [] }
    ensures left { IsLeft is_ack seat.caller seat.parts result.left }
    ensures taken { HasTaken taking result.taken result.numbers.items }
    ensures work { result.left.began ≡ true → HasSent N.start N.opening.own D.Reader.remaining D.Writer.contents
        (C.shows site.now.clock) seat.caller D.dials dialer (taken_in result.taken) result.left.receipts }
{
    if !*site.go.wait(rt) {
        return SenderLeft {
            left: SeatLeft::unused(alloc, seat),
            taken: taking.leave(),
            numbers: Vec::new(alloc),
        };
    }
    let mut gate = SeatGate::new(rt, alloc, &site.shared, seat);
    let numbers = sender(rt, alloc, &mut gate, &mut dialer, &site.clock, &mut taking);
    SenderLeft {
        left: left_of(gate),
        taken: taking.leave(),
        numbers,
    }
}

/// Does the ticker's work if all workers were started, and returns its seat with its receipts and its end of the
/// channel.
///
/// It begins the rounds of these turns, and puts each into the channel.
pub fn run_ticker<N: Name, R: Wait + Clock, C: Milliseconds, G: Rng + Drop>(
    rt: &R,
    alloc: Global,
    site: &Site<N, C>,
    seat: Seat<N>,
    mut generator: G,
    mut putting: Putting,
    turns: Turns,
) -> TickerLeft<N>
    requires seat { seat.amount ≡ 0 }
    requires putting { put_by putting ≡ [] }
    ensures left { IsLeft is_tick seat.caller seat.parts result.left }
    ensures put { HasPut putting result.putting result.left.receipts }
    ensures work { result.left.began ≡ true →
        HasBegun N.start N.opening.own (C.shows site.now.clock) seat.caller turns.rounds (G.stream generator)
        result.left.receipts }
{
    if !*site.go.wait(rt) {
        return TickerLeft {
            left: SeatLeft::unused(alloc, seat),
            putting,
        };
    }
    let mut gate = SeatGate::new(rt, alloc, &site.shared, seat);
    let _ticked = ticker(
        rt,
        alloc,
        &site.clock,
        &mut gate,
        &mut generator,
        &mut putting,
        turns.rounds,
        turns.interval,
    );
    TickerLeft {
        left: left_of(gate),
        putting,
    }
}

/// Does the operator's work, to its end, if all workers were started, and returns its seat with its receipts.
pub fn run_operator<N: Name, R: Wait, C: Milliseconds, O: Operate + Drop>(
    rt: &R,
    alloc: Global,
    site: &Site<N, C>,
    seat: Seat<N>,
    mut operates: O,
    mut pass: Pass<N>,
) -> SeatLeft<N>
    requires seat { seat.amount ≡ 0 }
    requires pass { pass ≡ [] }
    ensures left { IsLeft is_any seat.caller seat.parts result }
    ensures work { result.began ≡ true →
        HasOperated N.start N.opening seat.caller O.works operates result.receipts }
{
    if !*site.go.wait(rt) {
        return SeatLeft::unused(alloc, seat);
    }
    let mut gate = SeatGate::new(rt, alloc, &site.shared, seat);
    let _ended = operator(alloc, &mut gate, &mut pass, &mut operates);
    left_of(gate)
}
