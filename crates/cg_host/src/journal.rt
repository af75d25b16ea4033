//! The journal that a file holds at the end of a life.

ghost use Rattle.std.specs.Prelude.{◌≡◌, IfErr, OnOk};
ghost use Rattle.cg_host.specs.Disk.{Replaces, Unreplaced};
ghost use Rattle.cg_journal.specs.Text.{joined, journal_lines};
ghost use Rattle.cg_host.specs.Kept.{IsTried, Unwritten};

use crate::disk::Disk;
use crate::replacing::Replacement;
use cg_history::History;
use cg_journal::write_journal;
use cg_types::Fault;
use std::alloc::Global;

/// Tries whether a file can hold a journal: a new file is begun beside it, and removed.
///
/// `WriteFault` if that can't be done, `OutOfMemory` if memory is refused.
pub fn try_journal<D: Disk>(disk: &D, alloc: Global, file: &str) -> Result<(), Fault>
    ensures tried { OnOk result (IsTried D.did file.now) }
    ensures err { IfErr result (Unreplaced D.did file.now) }
{
    let place = match disk.place(alloc, file) {
        Ok(place) => place,
        Err(fault) => return Err(fault),
    };
    match Replacement::begin(disk, alloc, place.as_str()) {
        Ok(new) => new.remove(disk),
        Err(fault) => Err(fault),
    }
}

// Writes the journal of a history, of which no record is folded, to a file.
fn write_whole_to<D: Disk>(
    disk: &D,
    alloc: Global,
    file: &str,
    history: &History,
) -> Result<(), Fault>
    requires { history.now.folded ≡ 0 }
    ensures written { OnOk result (Replaces D.did D.File.contents file.now (joined (journal_lines history.now))) }
    ensures err { IfErr result (Unreplaced D.did file.now) }
{
    let place = match disk.place(alloc, file) {
        Ok(place) => place,
        Err(fault) => return Err(fault),
    };
    let mut new = match Replacement::begin(disk, alloc, place.as_str()) {
        Ok(new) => new,
        Err(fault) => return Err(fault),
    };
    match write_journal(alloc, history, &mut new.link) {
        Ok(()) => new.put(disk, place.as_str()),
        Err(fault) => Err(fault),
    }
}

/// Writes the journal of a history to a file, in place of its old text.
///
/// `Folded`, before the disk is called, if a record of the history is folded: the file stays as it was. After a crash
/// the file holds the old text or the new one; no clause speaks of crashes. `WriteFault` if writing fails,
/// `OutOfMemory` if memory is refused.
pub fn write_journal_to<D: Disk>(
    disk: &D,
    alloc: Global,
    file: &str,
    history: &History,
) -> Result<(), Fault>
    ensures written { OnOk result ((history.now.folded ≡ 0)
        × Replaces D.did D.File.contents file.now (joined (journal_lines history.now))) }
    ensures err { IfErr result (Unwritten D.did file.now history.now) }
{
    if history.folded() != 0 {
        return Err(Fault::Folded);
    }
    write_whole_to(disk, alloc, file, history)
}
