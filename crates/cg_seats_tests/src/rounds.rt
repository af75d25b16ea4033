//! Rounds that a ticker puts in: two of two ticks, none of none, and one that is handed back.

ghost use Rattle.std.specs.Prelude.{◌≡◌, []};
ghost use Rattle.cg_workers.specs.Ends.{PutsWhere, TakesWhere};

use crate::history::new_history;
use cg_core::Event;
use cg_history::{History, Receipt};
use cg_locked::{Fresh, Name, Seat, SeatGate, Shared};
use cg_table::Table;
use cg_testing::expect_eq;
use cg_threads::SeatLeft;
use cg_views::{Opened, views};
use cg_workers::{Milliseconds, Putting, Stop, Taking, Ticked, generator, rounds, ticker};
use std::alloc::Global;
use std::marker::Brand;
use std::rt::Clock;
use std::sync::Wait;
use std::test::Fail;

// A clock that shows one time.
#[derive(Clone, Copy)]
struct Standing(u64);

impl Milliseconds for Standing {
    fn now(&self) -> u64 {
        self.0
    }
}

// The outcome of a ticker, with the seat and its receipts.
#[derive(Drop)]
struct Done<N: Name> {
    left: SeatLeft<N>,
    ticked: Ticked,
}

// Ticks `count` times, with no pause, at the time 1000 and with the words of seed 0.
fn tick_at<N: Name, R: Wait + Clock>(
    rt: &R,
    alloc: Global,
    shared: &Shared<N>,
    seat: Seat<N>,
    to: &mut Putting,
    count: u32,
) -> Done<N>
    requires { seat.amount ≡ 0 }
    ensures channel { PutsWhere to.new to.old }
    ensures seat { result.left.parts ≡ seat.parts }
{
    let mut gate = SeatGate::new(rt, alloc, shared, seat);
    let mut words = generator(0);
    let ticked = ticker(
        rt,
        alloc,
        &Standing(1000),
        &mut gate,
        &mut words,
        to,
        count,
        0,
    );
    let (seat, receipts) = gate.into_parts();
    let left = SeatLeft::of(seat, receipts);
    Done { left, ticked }
}

// The time and the first word of a tick, 0 if it is none.
fn time_and_word(receipt: Option<&Receipt>) -> (u64, u64) {
    match receipt {
        Some(receipt) => match &receipt.event {
            Event::Tick { now, words } => (*now, words[0]),
            _ => (0, 0),
        },
        None => (0, 0),
    }
}

// The number of the next round and the number of digests in its SYN, 0 if none comes.
fn next_round<R: Wait>(rt: &R, from: &mut Taking) -> (u64, usize)
    ensures { TakesWhere from.new from.old }
{
    match from.take(rt) {
        Some(round) => (round.number, round.syn.digests().len()),
        None => (0, 0),
    }
}

// The result of a ticker: its outcome, the numbers of records and of confirmed receipts, and the last receipt's time
// and first word.
#[derive(Clone, Copy, Debug, PartialEq, Eq)]
struct Seen {
    ticked: Ticked,
    records: usize,
    confirmed: usize,
    last: (u64, u64),
}

fn left_by<N: Name, R: Wait + Clock>(
    rt: &R,
    alloc: Global,
    opened: Opened,
    table: Table,
    history: History,
    fresh: Fresh,
    to: &mut Putting,
    count: u32,
) -> Result<Seen, Fail>
    requires views { (opened ≡ N.book) × (table ≡ N.opening) }
    requires history { (history.records ≡ []) × (history.folded ≡ 0) × (history.base ≡ N.start)
        × (history.base.table ≡ table) }
    requires fresh { (fresh.name ≡ N.name) × (fresh.parts ≡ N.parts) × (fresh.log ≡ N.log) × (N.parts ≡ 1) }
    ensures channel { PutsWhere to.new to.old }
{
    let (publisher, _passes) = views::<N>(alloc, opened, table, 1)?;
    let (shared, mut seats) = Shared::begin(rt, alloc, history, publisher, fresh, 1)?;
    let seat = seats.pop().unwrap();
    let Done { left, ticked } = tick_at(rt, alloc, &shared, seat, to, count);
    let (seat, receipts) = left.into_parts();
    let last = time_and_word(receipts.last());
    seats.push_reserved(seat);
    let (records, confirmed) = match shared.finish(rt, seats, &receipts) {
        Ok(history) => (history.records().len(), receipts.len()),
        Err(left) => (left.history.records().len(), left.place),
    };
    Ok(Seen {
        ticked,
        records,
        confirmed,
        last,
    })
}

fn left_after<R: Wait + Clock>(
    rt: &R,
    alloc: Global,
    to: &mut Putting,
    count: u32,
) -> Result<Seen, Fail>
    ensures channel { PutsWhere to.new to.old }
{
    let history = new_history(alloc)?;
    let table = history.node().table().copy(alloc)?;
    left_by::<Brand, R>(
        rt,
        alloc,
        Opened::new(),
        table,
        history,
        Fresh::new(1),
        to,
        count,
    )
}

// The result of a ticker of two ticks, and the rounds that are taken then: two, and none.
fn two_rounds<R: Wait + Clock>(rt: &R, alloc: Global) -> Result<(Seen, [(u64, usize); 3]), Fail> {
    let (mut putting, mut taking) = rounds(alloc)?;
    let left = left_after(rt, alloc, &mut putting, 2)?;
    let one = next_round(rt, &mut taking);
    let other = next_round(rt, &mut taking);
    let none = next_round(rt, &mut taking);
    putting.compare(taking.leave());
    Ok((left, [one, other, none]))
}

#[test]
fn two_ticks_make_two_rounds(rt: HostRuntime) -> Result<(), Fail> {
    let (left, taken) = two_rounds(&rt, rt.alloc())?;
    let due = Seen {
        ticked: Ticked {
            refused: 0,
            stopped: None,
        },
        records: 2,
        confirmed: 2,
        last: (1000, 15795103776161667678),
    };
    expect_eq!(left, due)?;
    expect_eq!(taken, [(1, 1), (2, 1), (0, 0)])
}

// The result of a ticker of five ticks if nobody takes any round.
fn stopped<R: Wait + Clock>(rt: &R, alloc: Global) -> Result<Seen, Fail> {
    let (mut putting, taking) = rounds(alloc)?;
    let taken = taking.leave();
    let left = left_after(rt, alloc, &mut putting, 5)?;
    putting.compare(taken);
    Ok(left)
}

#[test]
fn a_round_that_is_handed_back_stops_the_ticker(rt: HostRuntime) -> Result<(), Fail> {
    let left = stopped(&rt, rt.alloc())?;
    let due = Seen {
        ticked: Ticked {
            refused: 0,
            stopped: Some(Stop::HandedBack),
        },
        records: 1,
        confirmed: 1,
        last: (1000, 2354861276966075475),
    };
    expect_eq!(left, due)
}

// The result of a ticker of no ticks, and the round that is taken then: none.
fn no_rounds<R: Wait + Clock>(rt: &R, alloc: Global) -> Result<(Seen, (u64, usize)), Fail> {
    let (mut putting, mut taking) = rounds(alloc)?;
    let left = left_after(rt, alloc, &mut putting, 0)?;
    let none = next_round(rt, &mut taking);
    putting.compare(taking.leave());
    Ok((left, none))
}

#[test]
fn no_ticks_make_no_round(rt: HostRuntime) -> Result<(), Fail> {
    let (left, taken) = no_rounds(&rt, rt.alloc())?;
    let due = Seen {
        ticked: Ticked {
            refused: 0,
            stopped: None,
        },
        records: 0,
        confirmed: 0,
        last: (0, 0),
    };
    expect_eq!(left, due)?;
    expect_eq!(taken, (0, 0))
}
