//! An operator at the one seat of a board: a set, a removal, a refused event, the last receipt, a console with no line.

ghost use Rattle.std.specs.Prelude.{◌≡◌, []};

use crate::board_operators::{Enters, IsRefused, LearnsTwice, RemovesTwice};
use crate::history::new_history;
use cg_history::{History, Receipt};
use cg_locked::{Fresh, Name, Operate, Seat, SeatGate, Shared, operator};
use cg_operator::Console;
use cg_table::Table;
use cg_testing::{expect_eq, version};
use cg_types::Fault;
use cg_views::{Opened, Pass, views};
use std::alloc::Global;
use std::marker::Brand;
use std::sync::Wait;
use std::test::Fail;

// The result of a seat's operator.
#[derive(Drop)]
struct Worked<N: Name> {
    seat: Seat<N>,
    receipts: Vec<Receipt>,
    ended: Result<(), Fault>,
}

fn work_at<N: Name, R: Wait, O: Operate>(
    rt: &R,
    alloc: Global,
    shared: &Shared<N>,
    seat: Seat<N>,
    pass: &mut Pass<N>,
    operate: &mut O,
) -> Worked<N>
    requires { seat.amount ≡ 0 }
    ensures { result.seat.parts ≡ seat.parts }
{
    let mut gate = SeatGate::new(rt, alloc, shared, seat);
    let ended = operator(alloc, &mut gate, pass, operate);
    let (seat, receipts) = gate.into_parts();
    Worked {
        seat,
        receipts,
        ended,
    }
}

/// The result of an operator: its fault, if any, and the numbers of records kept and of receipts confirmed.
pub(crate) type Left = (Option<Fault>, usize, usize);

fn left_by<N: Name, R: Wait, O: Operate>(
    rt: &R,
    alloc: Global,
    opened: Opened,
    table: Table,
    history: History,
    fresh: Fresh,
    operate: &mut O,
) -> Result<Left, Fail>
    requires views { (opened ≡ N.book) × (table ≡ N.opening) }
    requires history { (history.records ≡ []) × (history.folded ≡ 0) × (history.base ≡ N.start)
        × (history.base.table ≡ table) }
    requires fresh { (fresh.name ≡ N.name) × (fresh.parts ≡ N.parts) × (fresh.log ≡ N.log) × (N.parts ≡ 1) }
{
    let (publisher, mut passes) = views::<N>(alloc, opened, table, 1)?;
    let (shared, mut seats) = Shared::begin(rt, alloc, history, publisher, fresh, 1)?;
    let mut pass = passes.pop().unwrap();
    let seat = seats.pop().unwrap();
    let Worked {
        seat,
        receipts,
        ended,
    } = work_at(rt, alloc, &shared, seat, &mut pass, operate);
    seats.push_reserved(seat);
    let (records, confirmed) = match shared.finish(rt, seats, &receipts) {
        Ok(history) => (history.records().len(), receipts.len()),
        Err(left) => (left.history.records().len(), left.place),
    };
    Ok((ended.err(), records, confirmed))
}

/// The result of an operator at A.
pub(crate) fn left_after<R: Wait, O: Operate>(
    rt: &R,
    alloc: Global,
    operate: &mut O,
) -> Result<Left, Fail> {
    let history = new_history(alloc)?;
    let table = history.node().table().copy(alloc)?;
    left_by::<Brand, R, O>(
        rt,
        alloc,
        Opened::new(),
        table,
        history,
        Fresh::new(1),
        operate,
    )
}

#[test]
fn a_set_is_told_once_and_read(rt: HostRuntime) -> Result<(), Fail> {
    let mut work = LearnsTwice {
        told: (false, false),
        version: None,
    };
    let left = left_after(&rt, rt.alloc(), &mut work)?;
    expect_eq!(left, (None, 1, 1))?;
    expect_eq!((work.told, work.version), ((true, false), Some(version(2))))
}

#[test]
fn a_removal_is_told_and_read_as_a_tombstone(rt: HostRuntime) -> Result<(), Fail> {
    let mut work = RemovesTwice {
        faults: (0, 0),
        told: false,
        version: None,
        left: (0, None),
    };
    let left = left_after(&rt, rt.alloc(), &mut work)?;
    expect_eq!(left, (None, 2, 2))?;
    expect_eq!((work.told, work.version), (true, Some(version(3))))?;
    expect_eq!((work.faults, work.left), ((0, 20), (2, Some(version(3)))))
}

#[test]
fn a_refused_event_leaves_receipts_reply_and_what_is_told(rt: HostRuntime) -> Result<(), Fail> {
    let mut work = IsRefused {
        fault: 0,
        left: (0, None),
        told: false,
    };
    let left = left_after(&rt, rt.alloc(), &mut work)?;
    expect_eq!(left, (Some(Fault::WriteFault), 1, 1))?;
    expect_eq!(
        (work.fault, work.left, work.told),
        (9, (1, Some(version(2))), true)
    )
}

#[test]
fn the_last_receipt_is_of_the_last_event_done(rt: HostRuntime) -> Result<(), Fail> {
    let mut work = Enters {
        last: [0, 0, 0],
        faults: (0, 0),
    };
    let left = left_after(&rt, rt.alloc(), &mut work)?;
    expect_eq!(left, (None, 1, 1))?;
    expect_eq!((work.last, work.faults), ([0, 1, 1], (0, 9)))
}

// (tests run with no standard input)
#[test]
fn a_console_with_no_line_does_nothing(rt: HostRuntime) -> Result<(), Fail> {
    let left = left_after(&rt, rt.alloc(), &mut Console::new(&rt))?;
    expect_eq!(left, (None, 0, 0))
}
