//! A node put together of workers that did nothing, or of which one did not begin.

ghost use Rattle.std.specs.Prelude.{◌≡◌, false, []};

use crate::history::new_history;
use cg_history::History;
use cg_locked::{Fresh, Name};
use cg_table::Table;
use cg_testing::expect_eq;
use cg_threads::{
    Begun, NotRun, Ran, SeatLeft, SenderLeft, TickerLeft, WORKERS, WorkersLeft, gather, prepare,
};
use cg_types::Fault;
use cg_views::Opened;
use std::alloc::Global;
use std::marker::Brand;
use std::sync::Wait;
use std::test::Fail;

// The numbers of records and of rounds that are left; if there is no node, the fault by which it was not started.
type Told = Result<(usize, usize), Option<Fault>>;

fn told(left: Result<Ran, NotRun>) -> Told {
    match left {
        Ok(ran) => Ok((ran.history.records().len(), ran.rounds.len())),
        Err(NotRun::Unstarted(fault)) => Err(Some(fault)),
        Err(NotRun::Unconfirmed(_)) => Err(None),
    }
}

fn left_by<N: Name, R: Wait>(
    rt: &R,
    alloc: Global,
    opened: Opened,
    table: Table,
    history: History,
    fresh: Fresh,
    began: bool,
) -> Result<Told, Fail>
    requires views { (opened ≡ N.book) × (table ≡ N.opening) }
    requires history { (history.records ≡ []) × (history.folded ≡ 0) × (history.base ≡ N.start)
        × (history.base.table ≡ table) }
    requires fresh { (fresh.name ≡ N.name) × (fresh.parts ≡ N.parts) × (fresh.log ≡ N.log) × (N.parts ≡ 4) }
    requires folds { N.folds ≡ false }
{
    let begun = prepare::<N, R>(rt, alloc, opened, table, history, fresh)?;
    let Begun {
        shared,
        seats,
        list,
        pass: _pass,
        ends,
    } = begun;
    let (putting, taking) = ends;
    let receiver = if began {
        SeatLeft::of(seats.receiver, Vec::new(alloc))
    } else {
        SeatLeft::unused(alloc, seats.receiver)
    };
    let work = WorkersLeft {
        receiver,
        sender: SenderLeft {
            left: SeatLeft::of(seats.sender, Vec::new(alloc)),
            taken: taking.leave(),
            numbers: Vec::new(alloc),
        },
        ticker: TickerLeft {
            left: SeatLeft::of(seats.ticker, Vec::new(alloc)),
            putting,
        },
        operator: SeatLeft::of(seats.operator, Vec::new(alloc)),
    };
    Ok(told(gather(rt, shared, list, work)))
}

fn left_after<R: Wait>(rt: &R, alloc: Global, began: bool) -> Result<Told, Fail> {
    let history = new_history(alloc)?;
    let table = history.node().table().copy(alloc)?;
    left_by::<Brand, R>(
        rt,
        alloc,
        Opened::new(),
        table,
        history,
        Fresh::new(WORKERS as u64),
        began,
    )
}

#[test]
fn workers_that_did_nothing(rt: HostRuntime) -> Result<(), Fail> {
    let left = left_after(&rt, rt.alloc(), true)?;
    expect_eq!(left, Ok((0, 0)))
}

#[test]
fn a_worker_that_did_not_begin(rt: HostRuntime) -> Result<(), Fail> {
    let left = left_after(&rt, rt.alloc(), false)?;
    expect_eq!(left, Err(Some(Fault::OutOfMemory)))
}

#[test]
fn a_node_that_was_not_started_says_why(rt: HostRuntime) -> Result<(), Fail> {
    let told = format!(in rt.alloc(); "{}", NotRun::Unstarted(Fault::OutOfMemory))?;
    expect_eq!(
        told.as_str(),
        "the node could not be started: 1 OutOfMemory"
    )
}
