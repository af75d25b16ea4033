//! The ticks of a node, one after the other.

ghost use Rattle.std.specs.Prelude.{◌≡◌, ℕ};
ghost use Rattle.cg_core.specs.declared.event.Event.TheVariants as events;
ghost use Rattle.cg_workers.specs.Words.{four_of};
ghost use Rattle.cg_workers.specs.Ends.{PutsWhere};
ghost use Rattle.cg_workers.specs.Ticks.{IsTurn, HasTurned, Ticks};

use crate::clock::Milliseconds;
use crate::ends::Putting;
use crate::passing::pass_on;
use crate::ticked::{Stop, Ticked};
use crate::words::next_words;
use cg_core::Event;
use cg_history::Enter;
use rand_core::Rng;
use std::alloc::Global;
use std::rt::Clock;
use std::sync::Wait;
use std::thread;
use std::time::Duration;

/// The outcome of one tick.
pub(crate) enum Turn {
    /// It was refused, and made no round.
    Refused,
    /// Its round was put in.
    Put,
    /// Its round could not be put in.
    Stopped(Stop),
}

/// Makes the next tick: at the clock's time, with the next four words.
pub(crate) fn tick<C: Milliseconds, G: Rng>(clock: &C, generator: &mut G) -> Event
    ensures tick { (now : ℕ) × C.shows clock.now now
        × (result ≡ events.Tick now (four_of (G.stream generator.old)).0) }
    ensures left { G.stream generator.new ≡ (four_of (G.stream generator.old)).1 }
{
    let now = clock.now();
    let words = next_words(generator);
    Event::Tick { now, words }
}

/// Has the node tick, and puts its round into the channel.
pub(crate) fn tick_once<R: Wait, C: Milliseconds, E: Enter, G: Rng>(
    rt: &R,
    alloc: Global,
    clock: &C,
    gate: &mut E,
    generator: &mut G,
    to: &mut Putting,
) -> Turn
    ensures seat { E.seat gate.new ≡ E.seat gate.old }
    ensures channel { PutsWhere to.new to.old }
    ensures turn { IsTurn E.receipts E.does E.refuses (C.shows clock.now) (four_of (G.stream generator.old)).0 result
        (gate.old, to.old) (gate.new, to.new) }
    ensures left { G.stream generator.new ≡ (four_of (G.stream generator.old)).1 }
{
    let event = tick(clock, generator);
    if gate.enter(alloc, event).is_err() {
        return Turn::Refused;
    }
    let Some(receipt) = gate.last() else {
        unreachable!()
    };
    pass_on(rt, alloc, receipt, to)
}

/// Does `rounds` turns, with a pause of `interval` milliseconds between two; fewer if a round could not be put in.
fn turns<R: Wait + Clock, C: Milliseconds, E: Enter, G: Rng>(
    rt: &R,
    alloc: Global,
    clock: &C,
    gate: &mut E,
    generator: &mut G,
    to: &mut Putting,
    rounds: u32,
    interval: u32,
) -> Ticked
    ensures seat { E.seat gate.new ≡ E.seat gate.old }
    ensures channel { PutsWhere to.new to.old }
    ensures turns { HasTurned E.receipts E.does E.refuses (C.shows clock.now) rounds (G.stream generator.old) result
        (gate.old, to.old) (gate.new, to.new) }
{
    let mut refused = 0;
    for place in 0..rounds {
        if place > 0 {
            thread::sleep(rt, Duration::from_millis(u64::from(interval)));
        }
        match tick_once(rt, alloc, clock, gate, generator, to) {
            Turn::Refused => refused += 1,
            Turn::Put => {}
            Turn::Stopped(stop) => return Ticked {
                refused,
                stopped: Some(stop),
            },
        }
    }
    Ticked {
        refused,
        stopped: None,
    }
}

/// Has a node tick `rounds` times by its gate, and puts the round of each tick into the channel, up to the first round
/// that can't be put in. Between two ticks it pauses for `interval` milliseconds. In the end it puts in the word that
/// no more rounds come.
///
/// A tick that its gate refuses makes no round, and counts as one. The ticker stops if it finds no memory to pass a
/// round on, or if the channel hands it back, and for no other reason. The contract does not say that the times of the
/// ticks rise, nor that it pauses, nor that memory was lacking if it says so.
pub fn ticker<R: Wait + Clock, C: Milliseconds, E: Enter, G: Rng>(
    rt: &R,
    alloc: Global,
    clock: &C,
    gate: &mut E,
    generator: &mut G,
    to: &mut Putting,
    rounds: u32,
    interval: u32,
) -> Ticked
    ensures seat { E.seat gate.new ≡ E.seat gate.old }
    ensures channel { PutsWhere to.new to.old }
    ensures ticks { Ticks E.receipts E.does E.refuses (C.shows clock.now) rounds (G.stream generator.old) result
        (gate.old, to.old) (gate.new, to.new) }
{
    let ticked = turns(rt, alloc, clock, gate, generator, to, rounds, interval);
    to.end(rt);
    ticked
}
