//! The promises of a worker's thread about the values that it leaves.

ghost use Rattle.std.specs.Prelude.{◌≡◌};

use crate::left::{SeatLeft, SenderLeft, TickerLeft};
use cg_locked::{Name, Operate, Seat};
use cg_workers::{Dial, Milliseconds, Putting, Taking, Turns};
use rand_core::Rng;
use std::snapshot::Snapshot;
use std::thread::Promise;

// The promise of the operator's thread.
#[derive(Drop)]
pub(crate) struct Operates<N: Name, O: Operate> {
    pub(crate) seat: Snapshot<Seat<N>>,
    pub(crate) operator: Snapshot<O>,
}

impl<N: Name, O: Operate> Operates<N, O> {
    // The promise of a thread that takes these over.
    pub(crate) fn of(seat: &Seat<N>, operator: &O) -> Operates<N, O>
        ensures { (result.seat.value ≡ seat.now) × (result.operator.value ≡ operator.now) }
    {
        Operates {
            seat: Snapshot::of(seat),
            operator: Snapshot::of(operator),
        }
    }
}

impl<N: Name, O: Operate> Promise<SeatLeft<N>> for Operates<N, O> {
    ghost use Rattle.std.specs.Prelude.{◌≡◌, true};
    ghost use Rattle.cg_threads.specs.Left.{IsLeft, is_any};
    ghost use Rattle.cg_threads.specs.Worked.{HasOperated};

    ghost kept_by = { λ p r.
        IsLeft is_any p.seat.value.caller p.seat.value.parts r
        × (r.began ≡ true → HasOperated N.start N.opening p.seat.value.caller O.works p.operator.value r.receipts) };
}

// The promise of the sender's thread.
#[derive(Drop)]
pub(crate) struct Sends<N: Name, D: Dial, C: Milliseconds> {
    pub(crate) seat: Snapshot<Seat<N>>,
    pub(crate) taking: Snapshot<Taking>,
    pub(crate) dialer: Snapshot<D>,
    pub(crate) clock: Snapshot<C>,
}

impl<N: Name, D: Dial, C: Milliseconds> Sends<N, D, C> {
    // The promise of a thread that takes these over.
    pub(crate) fn of(seat: &Seat<N>, taking: &Taking, dialer: &D, clock: &C) -> Sends<N, D, C>
        ensures { (result.seat.value ≡ seat.now) × (result.taking.value ≡ taking.now)
            × (result.dialer.value ≡ dialer.now) × (result.clock.value ≡ clock.now) }
    {
        Sends {
            seat: Snapshot::of(seat),
            taking: Snapshot::of(taking),
            dialer: Snapshot::of(dialer),
            clock: Snapshot::of(clock),
        }
    }
}

impl<N: Name, D: Dial, C: Milliseconds> Promise<SenderLeft<N>> for Sends<N, D, C> {
    ghost use Rattle.std.specs.Prelude.{◌≡◌, true};
    ghost use Rattle.cg_workers.specs.Ends.{taken_in};
    ghost use Rattle.cg_threads.specs.Left.{IsLeft, HasTaken, is_ack};
    ghost use Rattle.cg_threads.specs.Worked.{HasSent};

    ghost kept_by = { λ p r.
        IsLeft is_ack p.seat.value.caller p.seat.value.parts r.left
        × HasTaken p.taking.value r.taken r.numbers.items
        × (r.left.began ≡ true → HasSent N.start N.opening.own D.Reader.remaining D.Writer.contents
        (C.shows p.clock.value) p.seat.value.caller D.dials p.dialer.value (taken_in r.taken) r.left.receipts) };
}

// The promise of the ticker's thread.
#[derive(Drop)]
pub(crate) struct TicksOn<N: Name, C: Milliseconds, G: Rng> {
    pub(crate) seat: Snapshot<Seat<N>>,
    pub(crate) putting: Snapshot<Putting>,
    pub(crate) clock: Snapshot<C>,
    pub(crate) generator: Snapshot<G>,
    pub(crate) turns: Turns,
}

impl<N: Name, C: Milliseconds, G: Rng> TicksOn<N, C, G> {
    // The promise of a thread that takes these over.
    pub(crate) fn of(
        seat: &Seat<N>,
        putting: &Putting,
        clock: &C,
        generator: &G,
        turns: Turns,
    ) -> TicksOn<N, C, G>
        ensures { (result.seat.value ≡ seat.now) × (result.putting.value ≡ putting.now)
            × (result.clock.value ≡ clock.now) × (result.generator.value ≡ generator.now) × (result.turns ≡ turns) }
    {
        TicksOn {
            seat: Snapshot::of(seat),
            putting: Snapshot::of(putting),
            clock: Snapshot::of(clock),
            generator: Snapshot::of(generator),
            turns,
        }
    }
}

impl<N: Name, C: Milliseconds, G: Rng> Promise<TickerLeft<N>> for TicksOn<N, C, G> {
    ghost use Rattle.std.specs.Prelude.{◌≡◌, true};
    ghost use Rattle.cg_threads.specs.Left.{IsLeft, HasPut, is_tick};
    ghost use Rattle.cg_threads.specs.Worked.{HasBegun};

    ghost kept_by = { λ p r.
        IsLeft is_tick p.seat.value.caller p.seat.value.parts r.left
        × HasPut p.putting.value r.putting r.left.receipts
        × (r.left.began ≡ true →
        HasBegun N.start N.opening.own (C.shows p.clock.value) p.seat.value.caller p.turns.rounds
        (G.stream p.generator.value) r.left.receipts) };
}
