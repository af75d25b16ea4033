//! The workers in their threads.

ghost use Rattle.std.specs.Prelude.{◌≡◌, [], true};
ghost use Rattle.cg_workers.specs.Ends.{AreEnds, put_by, taken_by, taken_in};
ghost use Rattle.cg_threads.specs.Seats.{AreWorkers, AreUnused};
ghost use Rattle.cg_threads.specs.Left.{IsLeft, HasTaken, HasPut, AreOfWorkers, AreTaken, is_received, is_ack, is_tick, is_any};
ghost use Rattle.cg_threads.specs.Workers.{all_began, work_of};
ghost use Rattle.cg_threads.specs.Worked.{HasReceived, HasSent, HasBegun, HasOperated, HaveWorked};

use crate::left::WorkersLeft;
use crate::promises::{Operates, Sends, TicksOn};
use crate::seats::Seats;
use crate::site::Site;
use crate::started::{start, told};
use crate::tools::Tools;
use crate::work::{receive_told, run_operator, run_sender, run_ticker};
use cg_locked::{Name, Operate};
use cg_views::Pass;
use cg_workers::{Dial, Listen, Milliseconds, Putting, Taking, Turns};
use rand_core::Rng;
use std::alloc::Global;
use std::rt::Clock;
use std::sync::Wait;
use std::thread;
use std::thread::Threads;

// Starts the workers, the receiver in this thread, and waits for their ends. Each begins once all are started; if one
// could not be started, all end at once.
pub(crate) fn work<
    N: Name + Send + Sync,
    R: Threads + Wait + Clock + Sync,
    L: Listen + Drop,
    D: Dial + Drop + Send,
    C: Milliseconds + Drop + Sync,
    G: Rng + Drop + Send,
    O: Operate + Drop + Send,
>(
    rt: &R,
    alloc: Global,
    site: &Site<N, C>,
    seats: Seats<N>,
    pass: Pass<N>,
    ends: (Putting, Taking),
    parts: Tools<L, D, G, O>,
    turns: Turns,
) -> WorkersLeft<N>
where
    D::Reader: Send,
    D::Writer: Send,
    requires callers { AreWorkers seats }
    requires amounts { AreUnused seats }
    requires ends { AreEnds ends.0 ends.1 }
    requires none { (put_by ends.0 ≡ []) × (taken_by ends.1 ≡ []) }
    requires views { (N.opening ≡ N.start.table) × (pass ≡ []) }
    ensures parts { (result.receiver.parts ≡ seats.receiver.parts)
        × (result.sender.left.parts ≡ seats.sender.parts)
        × (result.ticker.left.parts ≡ seats.ticker.parts)
        × (result.operator.parts ≡ seats.operator.parts) }
    ensures receipts { AreOfWorkers result.receiver.receipts result.sender.left.receipts
        result.ticker.left.receipts result.operator.receipts }
    ensures taken { AreTaken result.ticker.putting result.sender.taken result.sender.numbers.items
        result.ticker.left.receipts }
    ensures worked { all_began result ≡ true → HaveWorked N.start L.Reader.remaining L.Writer.contents L.accepts
        D.Reader.remaining D.Writer.contents D.dials O.works (C.shows site.now.clock) parts.listener parts.dialer
        (G.stream parts.generator) parts.operator turns (work_of result) }
{
    let Tools {
        listener,
        dialer,
        generator,
        operator,
    } = parts;
    let Seats {
        receiver: receiver_seat,
        sender: sender_seat,
        ticker: ticker_seat,
        operator: operator_seat,
    } = seats;
    let (putting, taking) = ends;
    let sends = Sends::of(&sender_seat, &taking, &dialer, &site.clock);
    let ticks = TicksOn::of(&ticker_seat, &putting, &site.clock, &generator, turns);
    let operates = Operates::of(&operator_seat, &operator);
    thread::scope(
        thread::scope_env(),
        rt,
        move |scope| -> WorkersLeft<N>
            requires sends { (sends.seat.value ≡ sender_seat) × (sends.taking.value ≡ taking)
                × (sends.dialer.value ≡ dialer) × (sends.clock.value ≡ site.now.clock) }
            requires ticks { (ticks.seat.value ≡ ticker_seat) × (ticks.putting.value ≡ putting)
                × (ticks.clock.value ≡ site.now.clock) × (ticks.generator.value ≡ generator) × (ticks.turns ≡ turns) }
            requires operates { (operates.seat.value ≡ operator_seat) × (operates.operator.value ≡ operator) }
            requires amounts { (receiver_seat.amount ≡ 0) × (sender_seat.amount ≡ 0) × (ticker_seat.amount ≡ 0)
                × (operator_seat.amount ≡ 0) }
            requires none { (put_by putting ≡ []) × (taken_by taking ≡ []) × (pass ≡ []) }
            ensures receiver { IsLeft is_received receiver_seat.caller receiver_seat.parts result.receiver }
            ensures received { result.receiver.began ≡ true → HasReceived N.start N.opening.own L.Reader.remaining
                L.Writer.contents (C.shows site.entry.now.clock) receiver_seat.caller L.accepts turns.exchanges listener
                result.receiver.receipts }
            ensures sender { IsLeft is_ack sender_seat.caller sender_seat.parts result.sender.left }
            ensures taken { HasTaken taking result.sender.taken result.sender.numbers.items }
            ensures sent { result.sender.left.began ≡ true → HasSent N.start N.opening.own D.Reader.remaining
                D.Writer.contents (C.shows site.entry.now.clock) sender_seat.caller D.dials dialer (taken_in result.sender.taken)
                result.sender.left.receipts }
            ensures ticker { IsLeft is_tick ticker_seat.caller ticker_seat.parts result.ticker.left }
            ensures put { HasPut putting result.ticker.putting result.ticker.left.receipts }
            ensures begun { result.ticker.left.began ≡ true → HasBegun N.start N.opening.own
                (C.shows site.entry.now.clock) ticker_seat.caller turns.rounds (G.stream generator)
                result.ticker.left.receipts }
            ensures operator { IsLeft is_any operator_seat.caller operator_seat.parts result.operator }
            ensures operated { result.operator.began ≡ true → HasOperated N.start N.opening operator_seat.caller O.works
                operator result.operator.receipts }
        {
            let sender = start(scope, sends, move || {
                run_sender(rt, alloc, site, sender_seat, dialer, taking)
            });
            let ticker = start(scope, ticks, move || {
                run_ticker(rt, alloc, site, ticker_seat, generator, putting, turns)
            });
            let operator = start(scope, operates, move || {
                run_operator(rt, alloc, site, operator_seat, operator, pass)
            });
            let begins = match &told(&site.go, &sender, &ticker, &operator) {
                Some(token) => *site.go.value(token),
                None => false,
            };
            WorkersLeft {
                receiver: receive_told(rt, alloc, site, begins, receiver_seat, listener, turns),
                sender: sender.ended(rt),
                ticker: ticker.ended(rt),
                operator: operator.ended(rt),
            }
        },
    )
}
