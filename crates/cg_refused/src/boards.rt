//! Events entered at a board, its records published and folded, and events at the gate of a seat.

ghost use Rattle.std.specs.Prelude.{◌≡◌, true, []};

use crate::answers::Answer;
use crate::operators::told_of_lines;
use crate::samples::{Change, changing, new_history, set};
use crate::texts::{add_history, add_table};
use crate::trials::{Outcome, Seen, Trial, compared, compared_or_kept, tried};
use cg_core::Event;
use cg_engine::Gate;
use cg_history::{History, Receipt};
use cg_locked::{Board, Fresh, Name, Seat, SeatGate, Shared};
use cg_table::Table;
use cg_types::Fault;
use cg_views::{Opened, Pass, Told, views};
use std::alloc::{AllocError, Global};
use std::fmt::Write;
use std::marker::Brand;
use std::sync::{MutexGuard, Wait};

/// The work at a board: a call of it, an event at the gate of its seat, or lines of an operator there. Where it is a
/// Remove, a Set of the key is told before it.
#[derive(Clone, Copy)]
pub(crate) enum Work {
    Enter(Change),
    CatchUp,
    Submit(Change),
    Fold,
    Gate(Change),
    Lines(Change),
}

// The work that enters the same event, and publishes nothing.
fn alone(work: Work) -> Work {
    match work {
        Work::Submit(change) | Work::Gate(change) => Work::Enter(change),
        _ => work,
    }
}

// Adds the history of a board, the number of its unpublished records, and what a pass reads.
fn add_board<N: Name, R: Wait>(
    rt: &R,
    text: &mut String,
    shared: &Shared<N>,
    pass: &mut Pass<N>,
) -> Result<(), Fault> {
    let board = shared.lend(rt);
    let history = add_history(text, board.history());
    let unpublished = board.unpublished();
    MutexGuard::unlock(board);
    history?;
    writeln!(text, "{unpublished} unpublished")?;
    let snapshot = pass.read()?;
    Ok(add_table(text, snapshot.table())?)
}

// Adds receipts.
fn add_receipts(text: &mut String, receipts: &[Receipt]) -> Result<(), AllocError> {
    for receipt in receipts {
        writeln!(text, "{receipt:?}")?;
    }
    Ok(())
}

// Has a pass learn what was told, and returns whether something was.
fn learn<N: Name>(pass: &mut Pass<N>, told: Option<Told<N>>) -> bool {
    match told {
        Some(told) => {
            pass.learn(told);
            true
        }
        None => false,
    }
}

fn answered(told: Result<bool, Fault>) -> Result<Answer, Fault> {
    match told {
        Ok(is_told) => Ok(Answer::Entered { is_told }),
        Err(fault) => Err(fault),
    }
}

// The outcome of an event that has to be told before a call.
fn prepared(told: Result<bool, Fault>) -> Result<(), Fault> {
    match told {
        Ok(true) => Ok(()),
        // (entered, but its publication was refused)
        Ok(false) => Err(Fault::OutOfMemory),
        Err(fault) => Err(fault),
    }
}

// ---- calls of a board

// The room for the receipts of a trial: of the Set before a Remove, of its call, and of the next one.
const RECEIPTS: usize = 4;

// A seat at a board, its receipts, a pass of the views, and a call.
#[derive(Drop)]
struct Seated<'a, N: Name, R: Wait> {
    rt: &'a R,
    shared: &'a Shared<N>,
    seat: Seat<N>,
    receipts: Vec<Receipt>,
    pass: &'a mut Pass<N>,
    work: Work,
    ghost folds: { N.folds ≡ true },
}

// Enters an event, and publishes nothing.
fn enter<N: Name, R: Wait>(
    rt: &R,
    alloc: Global,
    shared: &Shared<N>,
    seat: &mut Seat<N>,
    event: Event,
) -> Result<Receipt, Fault>
    ensures { seat.new.parts ≡ seat.old.parts }
{
    let mut board = shared.lend(rt);
    let entered = board.enter(alloc, seat, event);
    MutexGuard::unlock(board);
    entered
}

fn catch_up<N: Name, R: Wait>(
    rt: &R,
    alloc: Global,
    shared: &Shared<N>,
    pass: &mut Pass<N>,
) -> Result<Answer, Fault> {
    let mut board = shared.lend(rt);
    let told = board.catch_up(rt, alloc);
    MutexGuard::unlock(board);
    let is_told = learn(pass, Some(told?));
    Ok(Answer::Entered { is_told })
}

fn fold<N: Name, R: Wait>(rt: &R, alloc: Global, shared: &Shared<N>) -> Result<Answer, Fault>
    requires { N.folds ≡ true }
{
    let mut board = shared.lend(rt);
    let folded = board.fold(alloc, 2);
    MutexGuard::unlock(board);
    folded?;
    Ok(Answer::Done)
}

impl<'a, N: Name, R: Wait> Seated<'a, N, R> {
    // Keeps a receipt, which takes no memory.
    fn keep(&mut self, receipt: Receipt)
        ensures { self.new.seat.parts ≡ self.old.seat.parts }
    {
        if self.receipts.len() < self.receipts.capacity() {
            self.receipts.push_reserved(receipt);
        }
    }

    // Enters a change of key 3, and publishes nothing.
    fn enter(&mut self, alloc: Global, change: Change) -> Result<Answer, Fault>
        ensures { self.new.seat.parts ≡ self.old.seat.parts }
    {
        let event = match changing(alloc, change, "x") {
            Ok(event) => event,
            Err(fault) => return Err(fault),
        };
        match enter(self.rt, alloc, self.shared, &mut self.seat, event) {
            Ok(receipt) => {
                self.keep(receipt);
                Ok(Answer::Entered { is_told: false })
            }
            Err(fault) => Err(fault),
        }
    }

    // Submits a change of key 3, and answers whether it was told.
    fn submit(&mut self, alloc: Global, change: Change, text: &str) -> Result<bool, Fault>
        ensures { self.new.seat.parts ≡ self.old.seat.parts }
    {
        let event = match changing(alloc, change, text) {
            Ok(event) => event,
            Err(fault) => return Err(fault),
        };
        match self.shared.submit(self.rt, alloc, &mut self.seat, event) {
            Ok((receipt, told)) => {
                self.keep(receipt);
                Ok(learn(self.pass, told))
            }
            Err(fault) => Err(fault),
        }
    }
}

impl<'a, N: Name, R: Wait> Trial for Seated<'a, N, R> {
    ghost parts = { λ s. s.seat.parts };

    fn begin(&mut self, alloc: Global) -> Result<(), Fault> {
        match self.work {
            Work::Enter(Change::Remove) | Work::Submit(Change::Remove) => {
                prepared(self.submit(alloc, Change::Set, "a"))
            }
            _ => Ok(()),
        }
    }

    fn call(&mut self, alloc: Global) -> Result<Answer, Fault> {
        match self.work {
            Work::Enter(change) => self.enter(alloc, change),
            Work::CatchUp => catch_up(self.rt, alloc, self.shared, self.pass),
            Work::Fold => fold(self.rt, alloc, self.shared),
            Work::Submit(change) | Work::Gate(change) | Work::Lines(change) => {
                answered(self.submit(alloc, change, "x"))
            }
        }
    }

    fn show(&mut self, _alloc: Global, text: &mut String) -> Result<(), Fault> {
        match add_receipts(text, &self.receipts) {
            Ok(()) => add_board(self.rt, text, self.shared, self.pass),
            Err(_) => Err(Fault::OutOfMemory),
        }
    }

    // The next event tells the one before it too. If its own publication is refused, the board catches up.
    fn go_on(&mut self, alloc: Global) -> Result<Answer, Fault> {
        match self.submit(alloc, Change::Set, "y") {
            Ok(false) => catch_up(self.rt, alloc, self.shared, self.pass),
            told => answered(told),
        }
    }
}

// ---- the gate of a seat

// The gate of a seat at a board, a pass of its views, and the change that the gate is to enter.
#[derive(Drop)]
struct Gated<'a, N: Name, R: Wait> {
    rt: &'a R,
    shared: &'a Shared<N>,
    gate: SeatGate<'a, N, R>,
    pass: &'a mut Pass<N>,
    change: Change,
}

impl<'a, N: Name, R: Wait> Gated<'a, N, R> {
    // Enters a change of key 3, and answers whether it was told.
    fn event(&mut self, alloc: Global, change: Change, text: &str) -> Result<bool, Fault>
        ensures { self.new.gate.parts ≡ self.old.gate.parts }
    {
        let event = match changing(alloc, change, text) {
            Ok(event) => event,
            Err(fault) => return Err(fault),
        };
        match self.gate.event(alloc, event) {
            Ok(()) => {
                let told = self.gate.told();
                Ok(learn(self.pass, told))
            }
            Err(fault) => Err(fault),
        }
    }
}

impl<'a, N: Name, R: Wait> Trial for Gated<'a, N, R> {
    ghost parts = { λ g. g.gate.parts };

    fn begin(&mut self, alloc: Global) -> Result<(), Fault> {
        match self.change {
            Change::Set => Ok(()),
            Change::Remove => prepared(self.event(alloc, Change::Set, "a")),
        }
    }

    fn call(&mut self, alloc: Global) -> Result<Answer, Fault> {
        answered(self.event(alloc, self.change, "x"))
    }

    fn show(&mut self, _alloc: Global, text: &mut String) -> Result<(), Fault> {
        match add_receipts(text, self.gate.receipts()) {
            Ok(()) => add_board(self.rt, text, self.shared, self.pass),
            Err(_) => Err(Fault::OutOfMemory),
        }
    }

    fn go_on(&mut self, alloc: Global) -> Result<Answer, Fault> {
        match self.event(alloc, Change::Set, "y") {
            Ok(false) => catch_up(self.rt, alloc, self.shared, self.pass),
            told => answered(told),
        }
    }
}

// ---- a board for each

// The events before a call, in turn: of these all have puts that are told, but an Opening has none.
fn earlier(alloc: Global, place: usize) -> Result<Event, Fault> {
    match place % 4 {
        0 => set(alloc, 3, "a"),
        1 => changing(alloc, Change::Remove, ""),
        2 => Ok(Event::Beat),
        _ => Ok(Event::Opening),
    }
}

// Enters an event before a call: it is told before a fold alone.
fn enter_earlier<N: Name, R: Wait>(
    rt: &R,
    alloc: Global,
    shared: &Shared<N>,
    seat: &mut Seat<N>,
    work: Work,
    event: Event,
) -> Result<(), Fault>
    ensures { seat.new.parts ≡ seat.old.parts }
{
    match work {
        Work::Fold => match shared.submit(rt, alloc, seat, event) {
            Ok((_, Some(_))) => Ok(()),
            // (entered, but its publication was refused)
            Ok((_, None)) => Err(Fault::OutOfMemory),
            Err(fault) => Err(fault),
        },
        _ => match enter(rt, alloc, shared, seat, event) {
            Ok(_) => Ok(()),
            Err(fault) => Err(fault),
        },
    }
}

// Enters what a board holds before the call: four records for a publication, five published ones for a fold.
fn prepare<N: Name, R: Wait>(
    rt: &R,
    alloc: Global,
    shared: &Shared<N>,
    seat: &mut Seat<N>,
    work: Work,
) -> Result<(), Fault>
    ensures { seat.new.parts ≡ seat.old.parts }
{
    let count: usize = match work {
        Work::CatchUp => 4,
        Work::Fold => 5,
        _ => 0,
    };
    for place in 0..count {
        let event = match earlier(alloc, place) {
            Ok(event) => event,
            Err(fault) => return Err(fault),
        };
        match enter_earlier(rt, alloc, shared, seat, work, event) {
            Ok(()) => {}
            Err(fault) => return Err(fault),
        }
    }
    Ok(())
}

// What work at a board leaves: the seat, the receipts of the work, and what is seen.
#[derive(Drop)]
struct Left<N: Name> {
    seat: Seat<N>,
    receipts: Vec<Receipt>,
    seen: Result<Seen, Fault>,
}

fn left_at_seat<N: Name, R: Wait>(
    rt: &R,
    alloc: Global,
    shared: &Shared<N>,
    mut seat: Seat<N>,
    pass: &mut Pass<N>,
    work: Work,
) -> Left<N>
    requires { N.folds ≡ true }
    ensures { result.seat.parts ≡ seat.parts }
{
    match prepare(rt, alloc, shared, &mut seat, work) {
        Ok(()) => {}
        Err(fault) => return refused(alloc, seat, fault),
    }
    let receipts = match Vec::with_capacity(alloc, RECEIPTS) {
        Ok(receipts) => receipts,
        Err(_) => return refused(alloc, seat, Fault::OutOfMemory),
    };
    let mut seated = Seated {
        rt,
        shared,
        seat,
        receipts,
        pass,
        work,
    };
    let seen = tried(alloc, &mut seated);
    let Seated { seat, receipts, .. } = seated;
    Left {
        seat,
        receipts,
        seen,
    }
}

// What is left where nothing was done.
fn refused<N: Name>(alloc: Global, seat: Seat<N>, fault: Fault) -> Left<N>
    ensures { result.seat.parts ≡ seat.parts }
{
    Left {
        seat,
        receipts: Vec::new(alloc),
        seen: Err(fault),
    }
}

fn left_at_gate<N: Name, R: Wait>(
    rt: &R,
    alloc: Global,
    shared: &Shared<N>,
    seat: Seat<N>,
    pass: &mut Pass<N>,
    change: Change,
) -> Left<N>
    requires { seat.amount ≡ 0 }
    ensures { result.seat.parts ≡ seat.parts }
{
    let mut gated = Gated {
        rt,
        shared,
        gate: SeatGate::new(rt, alloc, shared, seat),
        pass,
        change,
    };
    let seen = tried(alloc, &mut gated);
    let Gated { gate, .. } = gated;
    let (seat, receipts) = gate.into_parts();
    Left {
        seat,
        receipts,
        seen,
    }
}

fn left_by_lines<N: Name, R: Wait>(
    rt: &R,
    alloc: Global,
    shared: &Shared<N>,
    seat: Seat<N>,
    pass: &mut Pass<N>,
    change: Change,
) -> Left<N>
    requires { seat.amount ≡ 0 }
    ensures { result.seat.parts ≡ seat.parts }
{
    let mut gate = SeatGate::new(rt, alloc, shared, seat);
    let told = told_of_lines(rt, alloc, shared, &mut gate, pass, change);
    let (seat, receipts) = gate.into_parts();
    let seen = match told {
        Ok(text) => Ok(Seen::of_text(alloc, text)),
        Err(fault) => Err(fault),
    };
    Left {
        seat,
        receipts,
        seen,
    }
}

fn left_at<N: Name, R: Wait>(
    rt: &R,
    alloc: Global,
    shared: &Shared<N>,
    seat: Seat<N>,
    pass: &mut Pass<N>,
    work: Work,
) -> Left<N>
    requires folds { N.folds ≡ true }
    requires seat { seat.amount ≡ 0 }
    ensures { result.seat.parts ≡ seat.parts }
{
    match work {
        Work::Gate(change) => left_at_gate(rt, alloc, shared, seat, pass, change),
        Work::Lines(change) => left_by_lines(rt, alloc, shared, seat, pass, change),
        _ => left_at_seat(rt, alloc, shared, seat, pass, work),
    }
}

fn seen_by<N: Name, R: Wait>(
    rt: &R,
    alloc: Global,
    opened: Opened,
    table: Table,
    history: History,
    fresh: Fresh,
    work: Work,
) -> Result<Seen, Fault>
    requires folds { N.folds ≡ true }
    requires views { (opened ≡ N.book) × (table ≡ N.opening) }
    requires history { (history.records ≡ []) × (history.folded ≡ 0) × (history.base ≡ N.start)
        × (history.base.table ≡ table) }
    requires fresh { (fresh.name ≡ N.name) × (fresh.parts ≡ N.parts) × (fresh.log ≡ N.log) × (N.parts ≡ 1) }
{
    let (publisher, mut passes) = views::<N>(alloc, opened, table, 1)?;
    let (shared, mut seats) = Shared::begin(rt, alloc, history, publisher, fresh, 1)?;
    let mut pass = passes.pop().unwrap();
    let seat = seats.pop().unwrap();
    let Left {
        seat,
        receipts,
        seen,
    } = left_at(rt, alloc, &shared, seat, &mut pass, work);
    seats.push_reserved(seat);
    let is_confirmed = shared.finish(rt, seats, &receipts).is_ok();
    match seen {
        Ok(seen) => Ok(seen.ended(is_confirmed)),
        Err(fault) => Err(fault),
    }
}

/// Does work at a new board, and returns what is seen of it.
pub(crate) fn seen<R: Wait>(rt: &R, alloc: Global, work: Work) -> Result<Seen, Fault> {
    let history = new_history(alloc)?;
    let table = history.node().table().copy(alloc)?;
    seen_by::<Brand, R>(
        rt,
        alloc,
        Opened::new(),
        table,
        history,
        Fresh::new(1),
        work,
    )
}

/// Makes a call of a board, which does all or nothing.
pub(crate) fn call<R: Wait>(rt: &R, alloc: Global, work: Work) -> Result<Outcome, Fault> {
    let due = seen(rt, alloc, work)?.of_twin()?;
    compared(alloc, &due, seen(rt, alloc, work)?)
}

/// Has an event entered and told. If its publication is refused, the record stands as if it were entered alone.
pub(crate) fn enter_and_tell<R: Wait>(rt: &R, alloc: Global, work: Work) -> Result<Outcome, Fault> {
    let due = seen(rt, alloc, work)?.of_twin()?;
    let kept = seen(rt, alloc, alone(work))?.of_twin()?;
    compared_or_kept(alloc, &due, &kept, seen(rt, alloc, work)?)
}
