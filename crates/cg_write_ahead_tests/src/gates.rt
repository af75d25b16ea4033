//! Gates over the seat of a board that writes its journal ahead.

ghost use Rattle.std.specs.Prelude.{◌≡◌, true, []};

use crate::boards::{Sink, event_of, new_history};
use cg_ahead_seats::{AheadGate, SharedAhead};
use cg_engine::Gate;
use cg_history::History;
use cg_links::{Counted, FailingLink};
use cg_locked::{Fresh, Name};
use cg_table::Table;
use cg_testing::expect_eq;
use cg_views::{Opened, views};
use cg_write_ahead::Ended;
use std::alloc::Global;
use std::marker::Brand;
use std::sync::Wait;
use std::test::Fail;

// Has the event of a letter done by a gate, and returns the number of its fault, or 0.
fn answer<N: Name, R: Wait>(alloc: Global, gate: &mut AheadGate<'_, N, Sink, R>, letter: u8) -> u8
    ensures { gate.new.seat.parts ≡ gate.old.seat.parts }
{
    let event = match event_of(alloc, letter) {
        Ok(event) => event,
        Err(fault) => return fault.number(),
    };
    match gate.event(alloc, event) {
        Ok(()) => 0,
        Err(fault) => fault.number(),
    }
}

// The numbers of the faults of three events; whether the gate has a reply and told, and no reply once it forgets, and
// whether a write failed, as the gate and the board know it; and the number of all records.
type Done = ([u8; 3], [bool; 5], u64);

fn left_by<N: Name, R: Wait>(
    rt: &R,
    alloc: Global,
    opened: Opened,
    table: Table,
    history: History,
    fresh: Fresh,
    turn: u64,
    letters: [u8; 3],
) -> Result<Done, Fail>
    requires folds { N.folds ≡ true }
    requires views { (opened ≡ N.book) × (table ≡ N.opening) }
    requires history { (history.records ≡ []) × (history.folded ≡ 0) × (history.base ≡ N.start)
        × (history.base.table ≡ table) }
    requires fresh { (fresh.name ≡ N.name) × (fresh.parts ≡ N.parts) × (fresh.log ≡ N.log) × (N.parts ≡ 1) }
{
    let (publisher, _passes) = views::<N>(alloc, opened, table, 1)?;
    let sink = Counted::new(FailingLink::new(Vec::new(alloc), turn));
    let (shared, mut seats) = SharedAhead::begin(
        rt, alloc, history, publisher, fresh, 1, sink, 10,
    )?;
    let mut gate = AheadGate::new(rt, &shared, seats.pop().unwrap());
    let answers = [
        answer(alloc, &mut gate, letters[0]),
        answer(alloc, &mut gate, letters[1]),
        answer(alloc, &mut gate, letters[2]),
    ];
    let replied = gate.reply().is_some();
    let told = gate.told().is_some();
    let torn = gate.is_torn();
    gate.forget();
    let forgotten = gate.reply().is_none();
    seats.push_reserved(gate.into_seat());
    let torn_at_all = shared.is_torn(rt);
    let Ended { history, .. } = shared.finish(rt, seats);
    let counted = history
        .folded()
        .saturating_add(history.records().len() as u64);
    Ok((
        answers,
        [replied, told, forgotten, torn, torn_at_all],
        counted,
    ))
}

// Has the events of letters done by a gate. The call of its journal's writer with this number fails.
fn left_after<R: Wait>(rt: &R, alloc: Global, turn: u64, letters: [u8; 3]) -> Result<Done, Fail> {
    let history = new_history(alloc)?;
    let table = history.node().table().copy(alloc)?;
    left_by::<Brand, R>(
        rt,
        alloc,
        Opened::new(),
        table,
        history,
        Fresh::new(1),
        turn,
        letters,
    )
}

#[test]
fn a_gate_does_events(rt: HostRuntime) -> Result<(), Fail> {
    expect_eq!(
        left_after(&rt, rt.alloc(), 0, *b"bsb")?,
        ([0, 0, 0], [true, true, true, false, false], 3)
    )
}

#[test]
fn a_gate_passes_on_refusals(rt: HostRuntime) -> Result<(), Fail> {
    expect_eq!(
        left_after(&rt, rt.alloc(), 0, *b"brb")?,
        ([0, 20, 0], [true, true, true, false, false], 2)
    )
}

#[test]
fn a_torn_journal_is_want_of_memory(rt: HostRuntime) -> Result<(), Fail> {
    expect_eq!(
        left_after(&rt, rt.alloc(), 5, *b"bbb")?,
        ([0, 1, 1], [true, true, true, true, true], 2)
    )
}
