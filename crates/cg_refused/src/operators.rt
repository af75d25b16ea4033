//! Lines of an operator that set a key or remove it, each a call of its own, and what its pass reads behind them.

ghost use Rattle.cg_locked.specs.Seats.{GoesOn};

use crate::boards::{Work, seen};
use crate::samples::Change;
use crate::trials::Outcome;
use cg_links::Counted;
use cg_locked::{Name, SeatGate, Shared};
use cg_operator::operate;
use cg_testing::key;
use cg_types::Fault;
use cg_views::Pass;
use std::alloc::Global;
use std::fmt::Write;
use std::sync::{MutexGuard, Wait};

// Lines, and the texts that may come of them: what each line shows, with the number of unpublished records behind it, and
// what is read then.
#[derive(Clone, Copy)]
struct Due {
    lines: &'static [&'static str],
    // The text that is due.
    told: &'static str,
    // The text if the first publication is refused: the second one has both.
    told_later: &'static str,
    // The texts of the other refusals: before a record or, for want of room for a text alone, behind it; and of the second
    // publication.
    refused: &'static [&'static str],
}

const SETS: Due = Due {
    lines: &["set 3 x", "set 3 y"],
    told: "version 2, 0 unpublished; version 3, 0 unpublished; y at 3",
    told_later: "version 2 unpublished, 1 unpublished; version 3, 0 unpublished; y at 3",
    refused: &[
        "fault 1 OutOfMemory, 0 unpublished; version 2, 0 unpublished; y at 2",
        "fault 1 OutOfMemory, 0 unpublished; version 3, 0 unpublished; y at 3",
        "version 2, 0 unpublished; version 3 unpublished, 1 unpublished; x at 2",
        "version 2, 0 unpublished; fault 1 OutOfMemory, 0 unpublished; x at 2",
        "version 2, 0 unpublished; fault 1 OutOfMemory, 0 unpublished; y at 3",
    ],
};

// The second removal is refused, unless the first one was not done.
const REMOVALS: Due = Due {
    lines: &["set 3 x", "remove 3", "remove 3"],
    told: "version 2, 0 unpublished; version 3, 0 unpublished; fault 20 NoSuchKey, 0 unpublished; removed at 3",
    told_later: "version 2 unpublished, 1 unpublished; version 3, 0 unpublished; fault 20 NoSuchKey, 0 unpublished; removed at 3",
    refused: &[
        "fault 1 OutOfMemory, 0 unpublished; fault 20 NoSuchKey, 0 unpublished; fault 20 NoSuchKey, 0 unpublished; nothing",
        "fault 1 OutOfMemory, 0 unpublished; version 3, 0 unpublished; fault 20 NoSuchKey, 0 unpublished; removed at 3",
        "version 2, 0 unpublished; version 3 unpublished, 1 unpublished; fault 20 NoSuchKey, 1 unpublished; x at 2",
        "version 2, 0 unpublished; fault 1 OutOfMemory, 0 unpublished; version 3, 0 unpublished; removed at 3",
        "version 2, 0 unpublished; fault 1 OutOfMemory, 0 unpublished; fault 20 NoSuchKey, 0 unpublished; removed at 3",
        "version 2, 0 unpublished; version 3, 0 unpublished; fault 1 OutOfMemory, 0 unpublished; removed at 3",
    ],
};

fn due_of(change: Change) -> Due {
    match change {
        Change::Set => SETS,
        Change::Remove => REMOVALS,
    }
}

// The room for what a line shows, so that the writer requests none.
const ROOM: usize = 200;

// Adds what a line showed, or the fault that ended it.
fn add_shown(
    alloc: Global,
    text: &mut String,
    shown: &[u8],
    ended: Result<(), Fault>,
) -> Result<(), Fault> {
    let Ok(shown) = std::str::from_utf8(shown) else {
        return Err(Fault::BadText);
    };
    text.push_str(shown.trim_end())?;
    if let Err(fault) = ended {
        text.push_str(fault.line(alloc)?.trim_end())?;
    }
    Ok(())
}

// Does a line, and adds what it shows.
fn do_line<N: Name, R: Wait>(
    alloc: Global,
    text: &mut String,
    gate: &mut SeatGate<'_, N, R>,
    pass: &mut Pass<N>,
    line: &str,
) -> Result<(), Fault>
    ensures { GoesOn gate.old gate.new }
{
    let Ok(room) = Vec::with_capacity(alloc, ROOM) else {
        return Err(Fault::OutOfMemory);
    };
    let mut reader = Counted::new(line.as_bytes());
    let mut writer = Counted::new(room);
    let ended = operate(alloc, &mut reader, &mut writer, gate, pass);
    add_shown(alloc, text, &writer.into_link(), ended)
}

// Adds the number of records that are not published.
fn add_unpublished<N: Name, R: Wait>(
    rt: &R,
    text: &mut String,
    shared: &Shared<N>,
) -> Result<(), Fault> {
    let board = shared.lend(rt);
    let unpublished = board.unpublished();
    MutexGuard::unlock(board);
    Ok(write!(text, ", {unpublished} unpublished; ")?)
}

// Adds the text or the tombstone that a pass reads of the key, and its version; or that there is neither.
fn add_read<N: Name>(text: &mut String, pass: &mut Pass<N>) -> Result<(), Fault> {
    let snapshot = pass.read()?;
    let Some((read, version)) = snapshot.table().own_entry().state(key(3)) else {
        return Ok(text.push_str("nothing")?);
    };
    let read = match read {
        Some(read) => read.as_str(),
        None => "removed",
    };
    let version = version.get();
    Ok(write!(text, "{read} at {version}")?)
}

/// Does the lines at a gate, and returns what they show, with the number of unpublished records behind each; and what a
/// pass reads at the end, which learnt what was told.
pub(crate) fn told_of_lines<N: Name, R: Wait>(
    rt: &R,
    alloc: Global,
    shared: &Shared<N>,
    gate: &mut SeatGate<'_, N, R>,
    pass: &mut Pass<N>,
    change: Change,
) -> Result<String, Fault>
    ensures { GoesOn gate.old gate.new }
{
    let mut text = String::new(alloc);
    for line in due_of(change).lines {
        match do_line(alloc, &mut text, gate, pass, line) {
            Ok(()) => {}
            Err(fault) => return Err(fault),
        }
        match add_unpublished(rt, &mut text, shared) {
            Ok(()) => {}
            Err(fault) => return Err(fault),
        }
    }
    match add_read(&mut text, pass) {
        Ok(()) => Ok(text),
        Err(fault) => Err(fault),
    }
}

// Tests whether a text is one of these.
fn is_among(text: &str, others: &[&str]) -> bool {
    for other in others {
        if text == *other {
            return true;
        }
    }
    false
}

/// Has an operator set a key and change it again. If the first publication is refused, the second one tells both.
pub(crate) fn lines<R: Wait>(rt: &R, alloc: Global, change: Change) -> Result<Outcome, Fault> {
    let seen = seen(rt, alloc, Work::Lines(change))?;
    let is_confirmed = seen.is_confirmed();
    let seen = seen.into_answer();
    if !is_confirmed {
        return Ok(Outcome::Third {
            due: String::from_str(alloc, "confirmed")?,
            seen,
        });
    }
    let due = due_of(change);
    if seen.as_str() == due.told {
        return Ok(Outcome::Answered(seen));
    }
    if seen.as_str() == due.told_later {
        return Ok(Outcome::Kept);
    }
    if is_among(seen.as_str(), due.refused) {
        return Ok(Outcome::Refused);
    }
    Ok(Outcome::Third {
        due: String::from_str(alloc, due.told)?,
        seen,
    })
}
