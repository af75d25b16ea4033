//! Seats of a board, used in turn: Sets read back and confirmed, a forged receipt refused, publications caught up, and
//! records folded.

ghost use Rattle.std.specs.Prelude.{◌≡◌, ◌<◌, ◌≤◌, true, [], vec_len, vec_capacity};
ghost use Rattle.std.specs.List.{sum_by};

use crate::history::{counted, new_history};
use crate::reading::{Read, change_and_read};
use cg_core::Event;
use cg_history::{History, Receipt};
use cg_locked::{Board, Fresh, Name, Seat, Shared, Unconfirmed};
use cg_table::Table;
use cg_testing::{expect_eq, key};
use cg_types::{Fault, StateText};
use cg_views::{Opened, Pass, Told, views};
use std::alloc::Global;
use std::marker::Brand;
use std::sync::{MutexGuard, Wait};
use std::test::Fail;

// The work that is done on each seat.
#[derive(Clone, Copy)]
enum Work {
    // Sets key 3 to `x`, and reads it back.
    Set,
    // The same, and the receipt's number is raised by one.
    SetAndForge,
    // Sets key 3 to `x`, removes that, reads back what took its place, and is refused the same removal.
    Remove,
    // Reads while the board is locked.
    ReadBorrowed,
    // Enters two Sets, reads, catches up and reads again.
    EnterTwo,
    // Sets twice, each at the second try if memory is refused, folds what is published, and catches up.
    SetAnyway,
    // Enters three Sets, folds between them, and catches up twice.
    Fold,
    // Beats.
    Beat,
}

// Results of the work: numbers in their order, the receipts, and the last fault.
#[derive(Drop)]
struct Notes {
    numbers: Vec<u64>,
    receipts: Vec<Receipt>,
    fault: Option<Fault>,
}

impl Notes {
    // Returns empty notes with room for all that is noted, so that no note is refused.
    fn with_room(alloc: Global) -> Result<Notes, Fail> {
        let numbers = Vec::with_capacity(alloc, 32)?;
        let receipts = Vec::with_capacity(alloc, 32)?;
        Ok(Notes {
            numbers,
            receipts,
            fault: None,
        })
    }

    fn note(&mut self, number: u64) {
        if self.numbers.push(number).is_err() {
            self.fault = Some(Fault::OutOfMemory);
        }
    }

    fn keep(&mut self, receipt: Receipt) {
        if self.receipts.push(receipt).is_err() {
            self.fault = Some(Fault::OutOfMemory);
        }
    }

    fn refused(&mut self, fault: Fault) {
        self.fault = Some(fault);
    }
}

// ---- on one seat

// Reads the version of A's key 3, 0 if there is none.
fn read<N: Name>(pass: &mut Pass<N>) -> Result<u64, Fault> {
    let snapshot = pass.read()?;
    Ok(match snapshot.table().own_entry().get(key(3)) {
        Some((_text, version)) => u64::from(version.get()),
        None => 0,
    })
}

fn note_read<N: Name>(pass: &mut Pass<N>, notes: &mut Notes) {
    match read(pass) {
        Ok(version) => notes.note(version),
        Err(fault) => notes.refused(fault),
    }
}

fn set_of_three(alloc: Global) -> Result<Event, Fault> {
    Ok(Event::Set {
        key: key(3),
        text: StateText::new(alloc, "x")?,
    })
}

// Notes the record's number, the version of the reply, and the version that was read.
fn note_set(told: Read, notes: &mut Notes, forged: u64) {
    let Read {
        mut receipt,
        version,
        snapshot,
    } = told;
    notes.note(receipt.number);
    notes.note(u64::from(version.get()));
    if let Some((_text, version)) = snapshot.table().own_entry().get(key(3)) {
        notes.note(u64::from(version.get()));
    }
    receipt.number = receipt.number.saturating_add(forged);
    notes.keep(receipt);
}

fn set<N: Name, R: Wait>(
    rt: &R,
    alloc: Global,
    shared: &Shared<N>,
    seat: &mut Seat<N>,
    pass: &mut Pass<N>,
    notes: &mut Notes,
    forged: u64,
)
    ensures { seat.new.parts ≡ seat.old.parts }
{
    let Ok(text) = StateText::new(alloc, "x") else {
        return notes.refused(Fault::OutOfMemory);
    };
    match change_and_read(rt, alloc, shared, seat, pass, key(3), Some(text)) {
        Ok(Some(told)) => note_set(told, notes, forged),
        Ok(None) => notes.refused(Fault::OutOfMemory),
        Err(fault) => notes.refused(fault),
    }
}

// Notes the version of the tombstone that was read, or 0 if a text was.
fn note_removal(told: Read, notes: &mut Notes) {
    let Read {
        receipt,
        version: _,
        snapshot,
    } = told;
    if let Some((text, version)) = snapshot.table().own_entry().state(key(3)) {
        notes.note(match text {
            Some(_) => 0,
            None => u64::from(version.get()),
        });
    }
    notes.keep(receipt);
}

// Removes key 3, and notes what is read then, or the number of the fault.
fn remove<N: Name, R: Wait>(
    rt: &R,
    alloc: Global,
    shared: &Shared<N>,
    seat: &mut Seat<N>,
    pass: &mut Pass<N>,
    notes: &mut Notes,
)
    ensures { seat.new.parts ≡ seat.old.parts }
{
    match change_and_read(rt, alloc, shared, seat, pass, key(3), None) {
        Ok(Some(told)) => note_removal(told, notes),
        Ok(None) => notes.refused(Fault::OutOfMemory),
        Err(fault) => notes.note(u64::from(fault.number())),
    }
}

// Enters a Set.
fn enter<N: Name>(alloc: Global, board: &mut Board<N>, seat: &mut Seat<N>) -> Result<Receipt, Fault>
    ensures { seat.new.parts ≡ seat.old.parts }
{
    board.enter(alloc, seat, set_of_three(alloc)?)
}

// Enters a Set; notes the unpublished records and the version read then.
fn note_entered<N: Name>(
    alloc: Global,
    board: &mut Board<N>,
    seat: &mut Seat<N>,
    pass: &mut Pass<N>,
    notes: &mut Notes,
)
    ensures { seat.new.parts ≡ seat.old.parts }
{
    match enter(alloc, board, seat) {
        Ok(receipt) => notes.keep(receipt),
        Err(fault) => notes.refused(fault),
    }
    notes.note(board.unpublished());
    note_read(pass, notes);
}

// Catches up, at the second try if memory is refused; notes the unpublished records, the version read, and the number of
// all records.
fn note_caught_up<N: Name, R: Wait>(
    rt: &R,
    alloc: Global,
    board: &mut Board<N>,
    pass: &mut Pass<N>,
    notes: &mut Notes,
) {
    let told = match board.catch_up(rt, alloc) {
        Ok(told) => Ok(told),
        Err(_) => board.catch_up(rt, alloc),
    };
    match told {
        Ok(told) => pass.learn(told),
        Err(_) => notes.refused(Fault::OutOfMemory),
    }
    notes.note(board.unpublished());
    note_read(pass, notes);
    notes.note(counted(board.history()));
}

// Folds, at the second try if memory is refused.
fn fold<N: Name>(alloc: Global, board: &mut Board<N>, keep: usize, notes: &mut Notes)
    requires folds { N.folds ≡ true }
{
    let done = match board.fold(alloc, keep) {
        Ok(()) => Ok(()),
        Err(_) => board.fold(alloc, keep),
    };
    if done.is_err() {
        notes.refused(Fault::OutOfMemory);
    }
}

// Folds; notes the records folded, those kept, and those unpublished.
fn note_fold<N: Name>(alloc: Global, board: &mut Board<N>, keep: usize, notes: &mut Notes)
    requires folds { N.folds ≡ true }
{
    fold(alloc, board, keep, notes);
    notes.note(board.history().folded());
    notes.note(board.history().records().len() as u64);
    notes.note(board.unpublished());
}

// Notes 1 if all receipts are confirmed; folds all that it can, and notes by how many those kept are more than those
// unpublished.
fn note_confirmed_and_folded<N: Name>(alloc: Global, board: &mut Board<N>, notes: &mut Notes)
    requires folds { N.folds ≡ true }
{
    let confirmed = board.history().confirms(&notes.receipts).is_ok();
    notes.note(u64::from(confirmed));
    fold(alloc, board, 0, notes);
    let kept = board.history().records().len() as u64;
    notes.note(kept.saturating_sub(board.unpublished()));
}

fn submit<N: Name, R: Wait>(
    rt: &R,
    alloc: Global,
    shared: &Shared<N>,
    seat: &mut Seat<N>,
) -> Result<(Receipt, Option<Told<N>>), Fault>
    ensures { seat.new.parts ≡ seat.old.parts }
{
    shared.submit(rt, alloc, seat, set_of_three(alloc)?)
}

// Sets, at the second try if memory is refused. A Set that was not published is unpublished: one of both is 1.
fn note_set_anyway<N: Name, R: Wait>(
    rt: &R,
    alloc: Global,
    shared: &Shared<N>,
    seat: &mut Seat<N>,
    notes: &mut Notes,
)
    ensures { seat.new.parts ≡ seat.old.parts }
{
    let done = match submit(rt, alloc, shared, seat) {
        Ok(done) => Ok(done),
        Err(_) => submit(rt, alloc, shared, seat),
    };
    match done {
        Ok((receipt, told)) => {
            let board = shared.lend(rt);
            let unpublished = board.unpublished();
            MutexGuard::unlock(board);
            notes.note(unpublished.saturating_add(u64::from(told.is_some())));
            notes.keep(receipt);
        }
        Err(fault) => notes.refused(fault),
    }
}

fn beat<N: Name, R: Wait>(
    rt: &R,
    alloc: Global,
    shared: &Shared<N>,
    seat: &mut Seat<N>,
    notes: &mut Notes,
)
    ensures { seat.new.parts ≡ seat.old.parts }
{
    match shared.submit(rt, alloc, seat, Event::Beat) {
        Ok((receipt, _told)) => {
            notes.note(u64::from(receipt.caller));
            notes.keep(receipt);
        }
        Err(fault) => notes.refused(fault),
    }
}

fn set_and_remove_twice<N: Name, R: Wait>(
    rt: &R,
    alloc: Global,
    shared: &Shared<N>,
    seat: &mut Seat<N>,
    pass: &mut Pass<N>,
    notes: &mut Notes,
)
    ensures { seat.new.parts ≡ seat.old.parts }
{
    set(rt, alloc, shared, seat, pass, notes, 0);
    remove(rt, alloc, shared, seat, pass, notes);
    remove(rt, alloc, shared, seat, pass, notes);
}

fn read_borrowed<N: Name, R: Wait>(
    rt: &R,
    shared: &Shared<N>,
    pass: &mut Pass<N>,
    notes: &mut Notes,
) {
    let board = shared.lend(rt);
    note_read(pass, notes);
    MutexGuard::unlock(board);
}

fn enter_two<N: Name, R: Wait>(
    rt: &R,
    alloc: Global,
    shared: &Shared<N>,
    seat: &mut Seat<N>,
    pass: &mut Pass<N>,
    notes: &mut Notes,
)
    ensures { seat.new.parts ≡ seat.old.parts }
{
    let mut board = shared.lend(rt);
    note_entered(alloc, &mut board, seat, pass, notes);
    note_entered(alloc, &mut board, seat, pass, notes);
    note_caught_up(rt, alloc, &mut board, pass, notes);
    MutexGuard::unlock(board);
}

fn set_anyway_twice<N: Name, R: Wait>(
    rt: &R,
    alloc: Global,
    shared: &Shared<N>,
    seat: &mut Seat<N>,
    pass: &mut Pass<N>,
    notes: &mut Notes,
)
    requires folds { N.folds ≡ true }
    ensures { seat.new.parts ≡ seat.old.parts }
{
    note_set_anyway(rt, alloc, shared, seat, notes);
    note_set_anyway(rt, alloc, shared, seat, notes);
    let mut board = shared.lend(rt);
    note_confirmed_and_folded(alloc, &mut board, notes);
    note_caught_up(rt, alloc, &mut board, pass, notes);
    MutexGuard::unlock(board);
}

// Catches up, and folds all records but some.
fn note_caught_up_and_fold<N: Name, R: Wait>(
    rt: &R,
    alloc: Global,
    board: &mut Board<N>,
    pass: &mut Pass<N>,
    keep: usize,
    notes: &mut Notes,
)
    requires folds { N.folds ≡ true }
{
    note_caught_up(rt, alloc, board, pass, notes);
    note_fold(alloc, board, keep, notes);
}

fn enter_three_and_fold<N: Name, R: Wait>(
    rt: &R,
    alloc: Global,
    shared: &Shared<N>,
    seat: &mut Seat<N>,
    pass: &mut Pass<N>,
    notes: &mut Notes,
)
    requires folds { N.folds ≡ true }
    ensures { seat.new.parts ≡ seat.old.parts }
{
    let mut board = shared.lend(rt);
    note_entered(alloc, &mut board, seat, pass, notes);
    note_entered(alloc, &mut board, seat, pass, notes);
    note_fold(alloc, &mut board, 0, notes);
    note_caught_up_and_fold(rt, alloc, &mut board, pass, 9, notes);
    note_entered(alloc, &mut board, seat, pass, notes);
    note_fold(alloc, &mut board, 0, notes);
    note_caught_up_and_fold(rt, alloc, &mut board, pass, 1, notes);
    MutexGuard::unlock(board);
}

fn work_on<N: Name, R: Wait>(
    rt: &R,
    alloc: Global,
    shared: &Shared<N>,
    seat: &mut Seat<N>,
    pass: &mut Pass<N>,
    notes: &mut Notes,
    work: Work,
)
    requires folds { N.folds ≡ true }
    ensures { seat.new.parts ≡ seat.old.parts }
{
    match work {
        Work::Set => set(rt, alloc, shared, seat, pass, notes, 0),
        Work::SetAndForge => set(rt, alloc, shared, seat, pass, notes, 1),
        Work::Remove => set_and_remove_twice(rt, alloc, shared, seat, pass, notes),
        Work::ReadBorrowed => read_borrowed(rt, shared, pass, notes),
        Work::EnterTwo => enter_two(rt, alloc, shared, seat, pass, notes),
        Work::SetAnyway => set_anyway_twice(rt, alloc, shared, seat, pass, notes),
        Work::Fold => enter_three_and_fold(rt, alloc, shared, seat, pass, notes),
        Work::Beat => beat(rt, alloc, shared, seat, notes),
    }
}

// ---- on all seats

fn done_on<N: Name, R: Wait>(
    rt: &R,
    alloc: Global,
    shared: &Shared<N>,
    seat: Seat<N>,
    pass: &mut Pass<N>,
    notes: &mut Notes,
    work: Work,
) -> Seat<N>
    requires folds { N.folds ≡ true }
    ensures { result.parts ≡ seat.parts }
{
    let mut seat = seat;
    work_on(rt, alloc, shared, &mut seat, pass, notes, work);
    seat
}

// Works on each seat, and puts it back.
fn done_on_all<N: Name, R: Wait>(
    rt: &R,
    alloc: Global,
    shared: &Shared<N>,
    seats: Vec<Seat<N>>,
    back: Vec<Seat<N>>,
    pass: &mut Pass<N>,
    notes: &mut Notes,
    work: Work,
) -> Vec<Seat<N>>
    requires folds { N.folds ≡ true }
    requires back { (back.items ≡ []) × (vec_len back ≡ 0) × (vec_len seats ≤ vec_capacity back) }
    ensures parts { sum_by (λ s. s.parts) result.items ≡ sum_by (λ s. s.parts) seats.items }
    ensures len { vec_len result ≡ vec_len seats }
{
    let mut back = back;
    for seat in seats {
        back.push_reserved(done_on(rt, alloc, shared, seat, pass, notes, work));
    }
    back
}

// ---- the end

// The notes, the number of all records, and the first unconfirmed receipt: its place, and the number of its fault.
type Left = (Vec<u64>, u64, Option<(usize, u8)>);

// Returns the number of all records, and the first unconfirmed receipt.
fn ended(finished: Result<History, Unconfirmed>) -> (u64, Option<(usize, u8)>) {
    match finished {
        Ok(history) => (counted(&history), None),
        Err(left) => (
            counted(&left.history),
            Some((left.place, left.fault.number())),
        ),
    }
}

fn left_by<N: Name, R: Wait>(
    rt: &R,
    alloc: Global,
    opened: Opened,
    table: Table,
    history: History,
    fresh: Fresh,
    seats: usize,
    work: Work,
) -> Result<Left, Fail>
    requires folds { N.folds ≡ true }
    requires views { (opened ≡ N.book) × (table ≡ N.opening) }
    requires history { (history.records ≡ []) × (history.folded ≡ 0) × (history.base ≡ N.start)
        × (history.base.table ≡ table) }
    requires fresh { (fresh.name ≡ N.name) × (fresh.parts ≡ N.parts) × (fresh.log ≡ N.log) × (N.parts ≡ seats) }
    requires seats { (0 < seats) × (seats ≤ 16) }
{
    let back = Vec::with_capacity(alloc, seats)?;
    let mut notes = Notes::with_room(alloc)?;
    let (publisher, mut passes) = views::<N>(alloc, opened, table, 1)?;
    let (shared, seats) = Shared::begin(rt, alloc, history, publisher, fresh, seats)?;
    let mut pass = passes.pop().unwrap();
    let seats = done_on_all(rt, alloc, &shared, seats, back, &mut pass, &mut notes, work);
    let Notes {
        numbers,
        receipts,
        fault,
    } = notes;
    let (records, unconfirmed) = ended(shared.finish(rt, seats, &receipts));
    match fault {
        Some(fault) => Err(Fail::from(fault)),
        None => Ok((numbers, records, unconfirmed)),
    }
}

fn left<R: Wait>(rt: &R, alloc: Global, seats: usize, work: Work) -> Result<Left, Fail>
    requires { (0 < seats) × (seats ≤ 16) }
{
    let history = new_history(alloc)?;
    let table = history.node().table().copy(alloc)?;
    left_by::<Brand, R>(
        rt,
        alloc,
        Opened::new(),
        table,
        history,
        Fresh::new(seats as u64),
        seats,
        work,
    )
}

#[test]
fn a_set_is_told_read_and_confirmed(rt: HostRuntime) -> Result<(), Fail> {
    let (numbers, records, unconfirmed) = left(&rt, rt.alloc(), 1, Work::Set)?;
    expect_eq!(numbers.as_slice(), [1, 2, 2].as_slice())?;
    expect_eq!((records, unconfirmed), (1, None))
}

#[test]
fn a_removal_is_told_and_read_as_a_tombstone(rt: HostRuntime) -> Result<(), Fail> {
    let (numbers, records, unconfirmed) = left(&rt, rt.alloc(), 1, Work::Remove)?;
    expect_eq!(numbers.as_slice(), [1, 2, 2, 3, 20].as_slice())?;
    expect_eq!((records, unconfirmed), (2, None))
}

#[test]
fn a_receipt_of_another_number_is_a_stranger(rt: HostRuntime) -> Result<(), Fail> {
    let (_, records, unconfirmed) = left(&rt, rt.alloc(), 1, Work::SetAndForge)?;
    expect_eq!((records, unconfirmed), (1, Some((0, 16))))
}

#[test]
fn a_pass_reads_while_its_thread_has_the_board(rt: HostRuntime) -> Result<(), Fail> {
    let (numbers, records, unconfirmed) = left(&rt, rt.alloc(), 1, Work::ReadBorrowed)?;
    expect_eq!(numbers.as_slice(), [0].as_slice())?;
    expect_eq!((records, unconfirmed), (0, None))
}

#[test]
fn records_that_were_not_published_are_caught_up(rt: HostRuntime) -> Result<(), Fail> {
    let (numbers, records, unconfirmed) = left(&rt, rt.alloc(), 1, Work::EnterTwo)?;
    expect_eq!(numbers.as_slice(), [1, 0, 2, 0, 0, 3, 2].as_slice())?;
    expect_eq!((records, unconfirmed), (2, None))
}

// Run with each request for memory refused in turn (`rt try --test --fail-alloc N`), it ends in the same way, or finds
// no memory to begin: a record whose publication was refused is not folded, and the next publication has both.
#[test]
fn refused_publications_are_caught_up(rt: HostRuntime) -> Result<(), Fail> {
    let (numbers, records, unconfirmed) = left(&rt, rt.alloc(), 1, Work::SetAnyway)?;
    expect_eq!(numbers.as_slice(), [1, 1, 1, 0, 0, 3, 2].as_slice())?;
    expect_eq!((records, unconfirmed), (2, Some((0, 18))))
}

// A fold takes no record that is unpublished, and none if more are to be kept than there are.
#[test]
fn published_records_are_folded(rt: HostRuntime) -> Result<(), Fail> {
    let (numbers, records, unconfirmed) = left(&rt, rt.alloc(), 1, Work::Fold)?;
    let due = [
        1, 0, 2, 0, 0, 2, 2, 0, 3, 2, 0, 2, 0, 1, 3, 2, 1, 1, 0, 4, 3, 2, 1, 0,
    ];
    expect_eq!(numbers.as_slice(), due.as_slice())?;
    expect_eq!((records, unconfirmed), (3, Some((0, 18))))
}

#[test]
fn sixteen_seats_have_their_callers(rt: HostRuntime) -> Result<(), Fail> {
    let (numbers, records, unconfirmed) = left(&rt, rt.alloc(), 16, Work::Beat)?;
    let callers = [1, 2, 3, 4, 5, 6, 7, 8, 9, 10, 11, 12, 13, 14, 15, 16];
    expect_eq!(numbers.as_slice(), callers.as_slice())?;
    expect_eq!((records, unconfirmed), (16, None))
}
