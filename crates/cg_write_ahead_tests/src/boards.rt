//! A board at one seat that does a list of events, and what is left of it.

ghost use Rattle.std.specs.Prelude.{◌≡◌, ◌≤◌, true, [], IfOk, vec_len};
ghost use Rattle.std.specs.List.{sum_by};

use cg_core::Event;
use cg_history::History;
use cg_links::{Counted, FailingLink};
use cg_locked::{Fresh, Name, Seat};
use cg_table::Table;
use cg_testing::{A, endpoint, generation, key, settings};
use cg_types::{Fault, StateText};
use cg_views::{Opened, views};
use cg_write_ahead::{Ended, Journaled};
use std::alloc::Global;
use std::marker::Brand;
use std::sync::Wait;
use std::test::Fail;

/// A writer of a journal, of which one call fails.
pub(crate) type Sink = FailingLink<Vec<u8>>;

/// The outcome of a board's life: the number of the fault of each event, or 0 if it was done and published, or 1 if it was done and
/// not published; the number of all records and of those kept; whether a write failed; and the journal.
#[derive(Drop)]
pub(crate) struct Left {
    pub answers: Vec<u8>,
    pub counted: u64,
    pub kept: usize,
    pub torn: bool,
    pub text: Vec<u8>,
}

/// Returns A's history at its start.
pub(crate) fn new_history(alloc: Global) -> Result<History, Fail>
    ensures { IfOk result (λ h. (h.records ≡ []) × (h.folded ≡ 0)) }
{
    Ok(History::begin(alloc, endpoint(A), generation(9), settings(alloc)?)?)
}

/// Returns the event of a letter: a Beat of b, a Set of key 3 to x of s, an Opening of o, a Remove of key 4 of r.
pub(crate) fn event_of(alloc: Global, letter: u8) -> Result<Event, Fault> {
    Ok(match letter {
        b's' => Event::Set {
            key: key(3),
            text: StateText::new(alloc, "x")?,
        },
        b'o' => Event::Opening,
        b'r' => Event::Remove { key: key(4) },
        _ => Event::Beat,
    })
}

// Has the event of a letter done, and returns its answer.
fn answer<N: Name, R: Wait>(
    rt: &R,
    alloc: Global,
    board: &mut Journaled<N, Sink>,
    seat: &mut Seat<N>,
    letter: u8,
) -> u8
    ensures { seat.new.parts ≡ seat.old.parts }
{
    let event = match event_of(alloc, letter) {
        Ok(event) => event,
        Err(fault) => return fault.number(),
    };
    match board.submit(rt, alloc, seat, event) {
        Ok((_receipt, told)) => match told {
            Some(_told) => 0,
            None => 1,
        },
        Err(fault) => fault.number(),
    }
}

// Has the events of all letters done.
fn all_answered<N: Name, R: Wait>(
    rt: &R,
    alloc: Global,
    board: &mut Journaled<N, Sink>,
    seat: &mut Seat<N>,
    letters: &[u8],
) -> Vec<u8>
    ensures { seat.new.parts ≡ seat.old.parts }
{
    let mut answers = Vec::new(alloc);
    for letter in letters {
        let number = answer(rt, alloc, board, seat, *letter);
        if answers.push(number).is_err() {
            break;
        }
    }
    answers
}

// What is left of a board that did not begin: its fault.
fn not_begun(alloc: Global, fault: Fault) -> Result<Left, Fail> {
    Ok(Left {
        answers: vec![in alloc; fault.number()]?,
        counted: 0,
        kept: 0,
        torn: false,
        text: Vec::new(alloc),
    })
}

fn left_by<N: Name, R: Wait>(
    rt: &R,
    alloc: Global,
    opened: Opened,
    table: Table,
    history: History,
    fresh: Fresh,
    turn: u64,
    keep: usize,
    letters: &[u8],
) -> Result<Left, Fail>
    requires folds { N.folds ≡ true }
    requires views { (opened ≡ N.book) × (table ≡ N.opening) }
    requires history { (history.records ≡ []) × (history.folded ≡ 0) × (history.base ≡ N.start)
        × (history.base.table ≡ table) }
    requires fresh { (fresh.name ≡ N.name) × (fresh.parts ≡ N.parts) × (fresh.log ≡ N.log) × (N.parts ≡ 1) }
{
    let (publisher, _passes) = views::<N>(alloc, opened, table, 1)?;
    let sink = Counted::new(FailingLink::new(Vec::new(alloc), turn));
    let (mut board, mut seats) = match Journaled::begin(
        rt, alloc, history, publisher, fresh, 1, sink, keep,
    ) {
        Ok(begun) => begun,
        Err(fault) => return not_begun(alloc, fault),
    };
    let mut seat = seats.pop().unwrap();
    let answers = all_answered(rt, alloc, &mut board, &mut seat, letters);
    seats.push_reserved(seat);
    let Ended {
        history,
        sink,
        torn,
    } = board.finish(rt, seats);
    Ok(Left {
        answers,
        counted: history
            .folded()
            .saturating_add(history.records().len() as u64),
        kept: history.records().len(),
        torn,
        text: sink.into_link().into_link(),
    })
}

/// Has the events of all letters done at a board that keeps this many records. The call of its writer with this number
/// fails.
pub(crate) fn what_is_left<R: Wait>(
    rt: &R,
    alloc: Global,
    turn: u64,
    keep: usize,
    letters: &[u8],
) -> Result<Left, Fail> {
    let history = new_history(alloc)?;
    let table = history.node().table().copy(alloc)?;
    left_by::<Brand, R>(
        rt,
        alloc,
        Opened::new(),
        table,
        history,
        Fresh::new(1),
        turn,
        keep,
        letters,
    )
}
