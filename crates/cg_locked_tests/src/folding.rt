//! Two threads that set a key on seats of their own, confirm each receipt at once, and fold the records now and then.

ghost use Rattle.std.specs.Prelude.{◌≡◌, true, []};

use crate::history::{counted, new_history};
use cg_core::Event;
use cg_history::History;
use cg_locked::{Board, Fresh, Name, Seat, Shared};
use cg_table::Table;
use cg_testing::{expect_eq, key};
use cg_types::StateText;
use cg_views::{Opened, Pass, views};
use std::alloc::Global;
use std::marker::Brand;
use std::sync::{MutexGuard, Wait};
use std::test::Fail;
use std::thread::{Threads, join};

// Enters a Set of key 3, publishes it, confirms its receipt, and folds after every 20 records, so that 10 are kept.
// Returns the number of records kept before the fold, if all was done.
fn set_and_fold<N: Name, R: Wait>(
    rt: &R,
    alloc: Global,
    board: &mut Board<N>,
    seat: &mut Seat<N>,
    pass: &mut Pass<N>,
    text: &str,
) -> Option<usize>
    requires folds { N.folds ≡ true }
    ensures { seat.new.parts ≡ seat.old.parts }
{
    let Ok(text) = StateText::new(alloc, text) else {
        return None;
    };
    let Ok(receipt) = board.enter(alloc, seat, Event::Set { key: key(3), text }) else {
        return None;
    };
    let Ok(told) = board.catch_up(rt, alloc) else {
        return None;
    };
    pass.learn(told);
    if board.history().confirms(&[receipt]).is_err() {
        return None;
    }
    let kept = board.history().records().len();
    if counted(board.history()) % 20 == 0 && board.fold(alloc, 10).is_err() {
        return None;
    }
    Some(kept)
}

// Results of a worker: its seat, its pass, the number of its Sets that were confirmed, and the most records that it saw
// kept.
struct Worked<N: Name> {
    seat: Seat<N>,
    pass: Pass<N>,
    confirmed: u64,
    most: usize,
}

// Sets key 3 to a text this number of times.
fn set_all<N: Name, R: Wait>(
    rt: &R,
    alloc: Global,
    shared: &Shared<N>,
    seat: Seat<N>,
    mut pass: Pass<N>,
    text: &str,
    count: u32,
) -> Worked<N>
    requires folds { N.folds ≡ true }
    ensures { result.seat.parts ≡ seat.parts }
{
    let mut seat = seat;
    let mut confirmed = 0u64;
    let mut most = 0;
    for _ in 0..count {
        let mut board = shared.lend(rt);
        let kept = set_and_fold(rt, alloc, &mut board, &mut seat, &mut pass, text);
        MutexGuard::unlock(board);
        let Some(kept) = kept else {
            break;
        };
        confirmed = confirmed.saturating_add(1);
        most = kept.max(most);
    }
    Worked {
        seat,
        pass,
        confirmed,
        most,
    }
}

// Two threads work, one a seat.
fn work_by_two<N: Name + Send + Sync, R: Threads + Wait + Sync>(
    rt: &R,
    alloc: Global,
    shared: &Shared<N>,
    one: (Seat<N>, Pass<N>),
    other: (Seat<N>, Pass<N>),
    count: u32,
) -> (Worked<N>, Worked<N>)
    requires folds { N.folds ≡ true }
    ensures { (result.0.seat.parts ≡ one.0.parts) × (result.1.seat.parts ≡ other.0.parts) }
{
    let (first, pass) = one;
    let (second, another) = other;
    join(
        rt,
        move || -> Worked<N>
            requires { N.folds ≡ true }
            ensures { result.seat.parts ≡ first.parts }
        { set_all(rt, alloc, shared, first, pass, "x", count) },
        move || -> Worked<N>
            requires { N.folds ≡ true }
            ensures { result.seat.parts ≡ second.parts }
        { set_all(rt, alloc, shared, second, another, "y", count) },
    )
}

// Returns `true` if a pass reads the text of the last record.
fn reads_last<N: Name>(history: &History, pass: &mut Pass<N>) -> bool {
    let Some(last) = history.records().last() else {
        return false;
    };
    let Event::Set { text, .. } = &last.event else {
        return false;
    };
    let Ok(snapshot) = pass.read() else {
        return false;
    };
    match snapshot.table().own_entry().get(key(3)) {
        Some((read, _version)) => read.as_str() == text.as_str(),
        None => false,
    }
}

// Learns what is published, and returns `true` if the text of the last record is read then.
fn learns_last<N: Name, R: Wait>(
    rt: &R,
    alloc: Global,
    shared: &Shared<N>,
    pass: &mut Pass<N>,
) -> bool {
    let mut board = shared.lend(rt);
    let reads = match board.catch_up(rt, alloc) {
        Ok(told) => {
            pass.learn(told);
            reads_last(board.history(), pass)
        }
        Err(_) => false,
    };
    MutexGuard::unlock(board);
    reads
}

// The numbers of records counted and kept, the numbers of Sets confirmed and of the most records kept at once, and
// whether the last text was read.
#[derive(Clone, Copy, Debug, PartialEq, Eq)]
struct Left {
    counted: u64,
    kept: usize,
    confirmed: u64,
    most: usize,
    reads: bool,
}

fn left_by_two<N: Name + Send + Sync, R: Threads + Wait + Sync>(
    rt: &R,
    alloc: Global,
    opened: Opened,
    table: Table,
    history: History,
    fresh: Fresh,
    count: u32,
) -> Result<Left, Fail>
    requires folds { N.folds ≡ true }
    requires views { (opened ≡ N.book) × (table ≡ N.opening) }
    requires history { (history.records ≡ []) × (history.folded ≡ 0) × (history.base ≡ N.start)
        × (history.base.table ≡ table) }
    requires fresh { (fresh.name ≡ N.name) × (fresh.parts ≡ N.parts) × (fresh.log ≡ N.log) × (N.parts ≡ 2) }
{
    let (publisher, mut passes) = views::<N>(alloc, opened, table, 2)?;
    let (shared, mut seats) = Shared::begin(rt, alloc, history, publisher, fresh, 2)?;
    let second = seats.pop().unwrap();
    let first = seats.pop().unwrap();
    let other = passes.pop().unwrap();
    let pass = passes.pop().unwrap();
    let (first, second) = work_by_two(rt, alloc, &shared, (first, pass), (second, other), count);
    let Worked {
        seat,
        mut pass,
        confirmed,
        most,
    } = first;
    seats.push_reserved(seat);
    let Worked {
        seat,
        pass: _,
        confirmed: others,
        most: another,
    } = second;
    seats.push_reserved(seat);
    let reads = learns_last(rt, alloc, &shared, &mut pass);
    let (counted, kept) = match shared.finish(rt, seats, &[]) {
        Ok(history) => (counted(&history), history.records().len()),
        Err(left) => (counted(&left.history), left.history.records().len()),
    };
    Ok(Left {
        counted,
        kept,
        confirmed: confirmed.saturating_add(others),
        most: most.max(another),
        reads,
    })
}

fn two_left<R: Threads + Wait + Sync>(rt: &R, alloc: Global, count: u32) -> Result<Left, Fail> {
    let history = new_history(alloc)?;
    let table = history.node().table().copy(alloc)?;
    left_by_two::<Brand, R>(
        rt,
        alloc,
        Opened::new(),
        table,
        history,
        Fresh::new(2),
        count,
    )
}

#[test]
fn two_threads_fold_their_records(rt: HostRuntime) -> Result<(), Fail> {
    let two = two_left(&rt, rt.alloc(), 100)?;
    let due = Left {
        counted: 200,
        kept: 10,
        confirmed: 200,
        most: 30,
        reads: true,
    };
    expect_eq!(two, due)
}
