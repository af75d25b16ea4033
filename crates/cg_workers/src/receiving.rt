//! Connections that come in.

ghost use Rattle.std.specs.Prelude.{◌≤◌};
ghost use Rattle.cg_workers.specs.Workers.{AnsweredTo, NextCame, Received};

use crate::breaking::broken_by;
use crate::clock::Milliseconds;
use crate::links::Listen;
use cg_engine::{Counted, Gate, respond};
use cg_types::Fault;
use std::alloc::Global;
use std::io::{Read, Write};

// Answers the exchange that another side begins over a link. Returns the fault that broke it off, if one did.
fn answer<G: Gate, R: Read + Drop, W: Write + Drop, C: Milliseconds>(
    alloc: Global,
    gate: &mut G,
    clock: &C,
    link: (R, W),
) -> Option<Fault>
    ensures { AnsweredTo G.does G.refuses G.stays R.remaining W.contents (C.shows clock.now) result link gate.old gate.new }
{
    let (reader, writer) = link;
    let mut reader = Counted::new(reader);
    let mut writer = Counted::new(writer);
    let now = clock.now();
    broken_by(respond(alloc, gate, now, &mut reader, &mut writer))
}

/// Answers the exchange over the next connection that comes. Returns the fault that broke it off, if one did; or `None`
/// if no connection comes or accepting fails.
pub fn answer_next<G: Gate, L: Listen, C: Milliseconds>(
    alloc: Global,
    gate: &mut G,
    listener: &mut L,
    clock: &C,
) -> Option<Option<Fault>>
    ensures { NextCame G.does G.refuses G.stays L.Reader.remaining L.Writer.contents L.accepts (C.shows clock.now)
        result (listener.old, gate.old) (listener.new, gate.new) }
{
    match listener.accept() {
        Ok(Some(link)) => Some(answer(alloc, gate, clock, link)),
        _ => None,
    }
}

/// Answers one exchange over each connection that comes, up to `exchanges`, and returns the number that came. It ends
/// earlier only if no connection comes or accepting fails; a broken exchange ends that exchange alone.
pub fn receiver<G: Gate, L: Listen, C: Milliseconds>(
    alloc: Global,
    gate: &mut G,
    listener: &mut L,
    clock: &C,
    exchanges: u32,
) -> u32
    ensures most { result ≤ exchanges }
    ensures received { Received G.does G.refuses G.stays L.Reader.remaining L.Writer.contents L.accepts
        (C.shows clock.now) exchanges result (listener.old, gate.old) (listener.new, gate.new) }
{
    let mut came = 0;
    for _ in 0..exchanges {
        let Ok(Some(link)) = listener.accept() else {
            return came;
        };
        let _broken = answer(alloc, gate, clock, link);
        came += 1;
    }
    came
}
