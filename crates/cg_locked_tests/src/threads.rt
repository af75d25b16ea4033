//! Two threads that set a key on seats of their own: each Set is read back, and each receipt confirmed.

ghost use Rattle.std.specs.Prelude.{◌≡◌, []};

use crate::history::new_history;
use crate::reading::change_and_read;
use cg_history::{History, Receipt};
use cg_locked::{Fresh, Name, Seat, Shared, Unconfirmed};
use cg_table::Table;
use cg_testing::{expect_eq, key};
use cg_types::StateText;
use cg_views::{Opened, Pass, views};
use std::alloc::Global;
use std::marker::Brand;
use std::sync::Wait;
use std::test::Fail;
use std::thread::{Threads, join};

// Results of a worker: its seat, its receipts, and the number of its Sets that it read back.
struct Worked<N: Name> {
    seat: Seat<N>,
    receipts: Vec<Receipt>,
    reads: u64,
}

// Sets key 3 this number of times, and reads it back each time.
fn set_all<N: Name, R: Wait>(
    rt: &R,
    alloc: Global,
    shared: &Shared<N>,
    seat: Seat<N>,
    mut pass: Pass<N>,
    count: u32,
) -> Worked<N>
    ensures { result.seat.parts ≡ seat.parts }
{
    let mut seat = seat;
    let mut receipts = Vec::new(alloc);
    let mut reads = 0u64;
    for _ in 0..count {
        let Ok(text) = StateText::new(alloc, "x") else {
            break;
        };
        let Ok(Some(read)) = change_and_read(
            rt,
            alloc,
            shared,
            &mut seat,
            &mut pass,
            key(3),
            Some(text),
        ) else {
            break;
        };
        if let Some((_text, version)) = read.snapshot.table().own_entry().get(key(3)) {
            reads = reads.saturating_add(u64::from(version >= read.version));
        }
        if receipts.push(read.receipt).is_err() {
            break;
        }
    }
    Worked {
        seat,
        receipts,
        reads,
    }
}

// The number of records left, the number of receipts confirmed or the place of the first that was not, and the number
// of Sets that were read back.
#[derive(Clone, Copy, Debug, PartialEq, Eq)]
struct Left {
    records: usize,
    confirmed: Result<usize, usize>,
    reads: u64,
}

// Two threads work, one a seat.
fn work_by_two<N: Name + Send + Sync, R: Threads + Wait + Sync>(
    rt: &R,
    alloc: Global,
    shared: &Shared<N>,
    one: (Seat<N>, Pass<N>),
    other: (Seat<N>, Pass<N>),
    count: u32,
) -> (Worked<N>, Worked<N>)
    ensures { (result.0.seat.parts ≡ one.0.parts) × (result.1.seat.parts ≡ other.0.parts) }
{
    let (first, pass) = one;
    let (second, another) = other;
    join(
        rt,
        move || -> Worked<N>
            ensures { result.seat.parts ≡ first.parts }
        { set_all(rt, alloc, shared, first, pass, count) },
        move || -> Worked<N>
            ensures { result.seat.parts ≡ second.parts }
        { set_all(rt, alloc, shared, second, another, count) },
    )
}

// Joins the receipts of both, as far as there is memory for them.
fn together(one: Vec<Receipt>, other: Vec<Receipt>) -> Vec<Receipt> {
    let mut receipts = one;
    for receipt in other {
        if receipts.push(receipt).is_err() {
            break;
        }
    }
    receipts
}

// Returns the number of records left, and the number of receipts confirmed or the place of the first that was not.
fn confirmed(
    finished: Result<History, Unconfirmed>,
    count: usize,
) -> (usize, Result<usize, usize>) {
    match finished {
        Ok(history) => (history.records().len(), Ok(count)),
        Err(left) => (left.history.records().len(), Err(left.place)),
    }
}

fn left_by_two<N: Name + Send + Sync, R: Threads + Wait + Sync>(
    rt: &R,
    alloc: Global,
    opened: Opened,
    table: Table,
    history: History,
    fresh: Fresh,
    count: u32,
) -> Result<Left, Fail>
    requires views { (opened ≡ N.book) × (table ≡ N.opening) }
    requires history { (history.records ≡ []) × (history.folded ≡ 0) × (history.base ≡ N.start)
        × (history.base.table ≡ table) }
    requires fresh { (fresh.name ≡ N.name) × (fresh.parts ≡ N.parts) × (fresh.log ≡ N.log) × (N.parts ≡ 2) }
{
    let (publisher, mut passes) = views::<N>(alloc, opened, table, 2)?;
    let (shared, mut seats) = Shared::begin(rt, alloc, history, publisher, fresh, 2)?;
    let second = seats.pop().unwrap();
    let first = seats.pop().unwrap();
    let other = passes.pop().unwrap();
    let pass = passes.pop().unwrap();
    let (first, second) = work_by_two(rt, alloc, &shared, (first, pass), (second, other), count);
    let Worked {
        seat,
        receipts,
        reads,
    } = first;
    seats.push_reserved(seat);
    let Worked {
        seat,
        receipts: more,
        reads: others,
    } = second;
    seats.push_reserved(seat);
    let receipts = together(receipts, more);
    let (records, confirmed) = confirmed(shared.finish(rt, seats, &receipts), receipts.len());
    let reads = reads.saturating_add(others);
    Ok(Left {
        records,
        confirmed,
        reads,
    })
}

fn two_left<R: Threads + Wait + Sync>(rt: &R, alloc: Global, count: u32) -> Result<Left, Fail> {
    let history = new_history(alloc)?;
    let table = history.node().table().copy(alloc)?;
    left_by_two::<Brand, R>(
        rt,
        alloc,
        Opened::new(),
        table,
        history,
        Fresh::new(2),
        count,
    )
}

#[test]
fn two_threads_are_confirmed(rt: HostRuntime) -> Result<(), Fail> {
    let two = two_left(&rt, rt.alloc(), 100)?;
    let due = Left {
        records: 200,
        confirmed: Ok(200),
        reads: 200,
    };
    expect_eq!(two, due)
}
