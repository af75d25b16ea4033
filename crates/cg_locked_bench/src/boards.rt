//! Events done on seats of a board, by one thread or several.

ghost use Rattle.std.specs.Prelude.{◌≡◌, true, []};

use crate::counts::{Counts, print_line};
use crate::inputs::{Work, event, filling, new_history};
use anyhow::Result;
use cg_history::History;
use cg_locked::{Fresh, Name, Seat, Shared};
use cg_table::Table;
use cg_views::{Opened, views};
use std::alloc::Global;
use std::marker::Brand;
use std::rt::Clock;
use std::sync::{MutexGuard, Wait};
use std::thread::{Threads, join};
use std::time::Instant;

// Folds the records of the board, so that 100 are kept. Returns `true` if it was done.
fn fold<N: Name, R: Wait>(rt: &R, alloc: Global, shared: &Shared<N>) -> bool
    requires folds { N.folds ≡ true }
{
    let mut board = shared.lend(rt);
    let done = board.fold(alloc, 100).is_ok();
    MutexGuard::unlock(board);
    done
}

// Folds after each 100th record, if the work is to fold. Returns `true` if it was done, or was not to be done.
fn fold_after<N: Name, R: Wait>(
    rt: &R,
    alloc: Global,
    shared: &Shared<N>,
    work: Work,
    number: u64,
) -> bool
    requires folds { N.folds ≡ true }
{
    match work {
        Work::BeatAndFold if number % 100 == 0 => fold(rt, alloc, shared),
        _ => true,
    }
}

// Applies an event. Returns `true` if it was done.
fn submit_one<N: Name, R: Wait>(
    rt: &R,
    alloc: Global,
    shared: &Shared<N>,
    seat: &mut Seat<N>,
    work: Work,
    counts: Counts,
) -> bool
    requires folds { N.folds ≡ true }
    ensures { seat.new.parts ≡ seat.old.parts }
{
    match event(alloc, work, counts) {
        Ok(event) => match shared.submit(rt, alloc, seat, event) {
            Ok((receipt, _told)) => fold_after(rt, alloc, shared, work, receipt.number),
            Err(_) => false,
        },
        Err(_) => false,
    }
}

// Applies the work's event again and again.
fn submit_all<N: Name, R: Wait>(
    rt: &R,
    alloc: Global,
    shared: &Shared<N>,
    seat: Seat<N>,
    work: Work,
    counts: Counts,
) -> Seat<N>
    requires folds { N.folds ≡ true }
    ensures { result.parts ≡ seat.parts }
{
    let mut seat = seat;
    for _ in 0..counts.events {
        if !submit_one(rt, alloc, shared, &mut seat, work, counts) {
            break;
        }
    }
    seat
}

// Does the same in two threads, one a seat.
fn submit_by_two<N: Name + Send + Sync, R: Threads + Wait + Sync>(
    rt: &R,
    alloc: Global,
    shared: &Shared<N>,
    first: Seat<N>,
    second: Seat<N>,
    work: Work,
    counts: Counts,
) -> (Seat<N>, Seat<N>)
    requires folds { N.folds ≡ true }
    ensures { (result.0.parts ≡ first.parts) × (result.1.parts ≡ second.parts) }
{
    join(
        rt,
        move || -> Seat<N>
            requires { N.folds ≡ true }
            ensures { result.parts ≡ first.parts }
        { submit_all(rt, alloc, shared, first, work, counts) },
        move || -> Seat<N>
            requires { N.folds ≡ true }
            ensures { result.parts ≡ second.parts }
        { submit_all(rt, alloc, shared, second, work, counts) },
    )
}

// Does the same in four threads.
fn submit_by_four<N: Name + Send + Sync, R: Threads + Wait + Sync>(
    rt: &R,
    alloc: Global,
    shared: &Shared<N>,
    one: (Seat<N>, Seat<N>),
    other: (Seat<N>, Seat<N>),
    work: Work,
    counts: Counts,
) -> ((Seat<N>, Seat<N>), (Seat<N>, Seat<N>))
    requires folds { N.folds ≡ true }
    ensures one { (result.0.0.parts ≡ one.0.parts) × (result.0.1.parts ≡ one.1.parts) }
    ensures other { (result.1.0.parts ≡ other.0.parts) × (result.1.1.parts ≡ other.1.parts) }
{
    join(
        rt,
        move || -> (Seat<N>, Seat<N>)
            requires { N.folds ≡ true }
            ensures { (result.0.parts ≡ one.0.parts) × (result.1.parts ≡ one.1.parts) }
        {
            let (first, second) = one;
            submit_by_two(rt, alloc, shared, first, second, work, counts)
        },
        move || -> (Seat<N>, Seat<N>)
            requires { N.folds ≡ true }
            ensures { (result.0.parts ≡ other.0.parts) × (result.1.parts ≡ other.1.parts) }
        {
            let (first, second) = other;
            submit_by_two(rt, alloc, shared, first, second, work, counts)
        },
    )
}

/// The number of threads that have events done.
#[derive(Clone, Copy)]
pub(crate) enum Workers {
    One,
    Two,
    Four,
}

impl Workers {
    fn count(self) -> u8 {
        match self {
            Workers::One => 1,
            Workers::Two => 2,
            Workers::Four => 4,
        }
    }
}

// Does the work in this number of threads. The other seats do nothing.
fn submit_by<N: Name + Send + Sync, R: Threads + Wait + Sync>(
    rt: &R,
    alloc: Global,
    shared: &Shared<N>,
    one: (Seat<N>, Seat<N>),
    other: (Seat<N>, Seat<N>),
    workers: Workers,
    work: Work,
    counts: Counts,
) -> ((Seat<N>, Seat<N>), (Seat<N>, Seat<N>))
    requires folds { N.folds ≡ true }
    ensures one { (result.0.0.parts ≡ one.0.parts) × (result.0.1.parts ≡ one.1.parts) }
    ensures other { (result.1.0.parts ≡ other.0.parts) × (result.1.1.parts ≡ other.1.parts) }
{
    match workers {
        Workers::One => {
            let (first, second) = one;
            let first = submit_all(rt, alloc, shared, first, work, counts);
            ((first, second), other)
        }
        Workers::Two => {
            let (first, second) = one;
            let one = submit_by_two(rt, alloc, shared, first, second, work, counts);
            (one, other)
        }
        Workers::Four => submit_by_four(rt, alloc, shared, one, other, work, counts),
    }
}

// Fills the table. Returns `true` if that was done.
fn fill<N: Name, R: Wait>(
    rt: &R,
    alloc: Global,
    shared: &Shared<N>,
    seat: &mut Seat<N>,
    counts: Counts,
) -> bool
    ensures { seat.new.parts ≡ seat.old.parts }
{
    match filling(alloc, counts) {
        Ok(event) => shared.submit(rt, alloc, seat, event).is_ok(),
        Err(_) => false,
    }
}

/// The number of all records.
pub(crate) fn counted(history: &History) -> u64 {
    history
        .folded()
        .saturating_add(history.records().len() as u64)
}

// Fills a board, does the work on it, and returns the number of records and the time at which the work began.
fn records_by<N: Name + Send + Sync, R: Threads + Wait + Sync + Clock>(
    rt: &R,
    alloc: Global,
    opened: Opened,
    table: Table,
    history: History,
    fresh: Fresh,
    workers: Workers,
    work: Work,
    counts: Counts,
) -> Result<(u64, Instant)>
    requires folds { N.folds ≡ true }
    requires views { (opened ≡ N.book) × (table ≡ N.opening) }
    requires history { (history.records ≡ []) × (history.folded ≡ 0) × (history.base ≡ N.start)
        × (history.base.table ≡ table) }
    requires fresh { (fresh.name ≡ N.name) × (fresh.parts ≡ N.parts) × (fresh.log ≡ N.log) × (N.parts ≡ 4) }
{
    let (publisher, _passes) = views::<N>(alloc, opened, table, 1)?;
    let (shared, mut seats) = Shared::begin(rt, alloc, history, publisher, fresh, 4)?;
    let fourth = seats.pop().unwrap();
    let third = seats.pop().unwrap();
    let second = seats.pop().unwrap();
    let mut first = seats.pop().unwrap();
    let _filled = fill(rt, alloc, &shared, &mut first, counts);
    let start = Instant::now(rt);
    let one = (first, second);
    let other = (third, fourth);
    let (one, other) = submit_by(rt, alloc, &shared, one, other, workers, work, counts);
    seats.push_reserved(one.0);
    seats.push_reserved(one.1);
    seats.push_reserved(other.0);
    seats.push_reserved(other.1);
    let records = match shared.finish(rt, seats, &[]) {
        Ok(history) => counted(&history),
        Err(left) => counted(&left.history),
    };
    Ok((records, start?))
}

/// Measures the work on a board of its own.
pub(crate) fn measure<R: Threads + Wait + Sync + Clock + Print>(
    rt: &R,
    alloc: Global,
    workers: Workers,
    work: Work,
    counts: Counts,
    name: &str,
) -> Result<()> {
    let history = new_history(alloc)?;
    let table = history.node().table().copy(alloc)?;
    let (records, start) = records_by::<Brand, R>(
        rt,
        alloc,
        Opened::new(),
        table,
        history,
        Fresh::new(4),
        workers,
        work,
        counts,
    )?;
    let label = format!(in alloc; "submit_{name}_by_{}", workers.count())?;
    print_line(rt, label.as_str(), counts, records, start)
}
