//! The generation that a file keeps from one life to the next.

ghost use Rattle.std.specs.Prelude.{◌≡◌, Ok, Err, IfErr, IfOk, MatchResult};
ghost use Rattle.cg_types.specs.declared.fault.Fault.TheVariants as faults;
ghost use Rattle.cg_host.specs.Disk.{Call, OpenedToLock, Locked};
ghost use Rattle.cg_host.specs.Kept.{StoresNext, lock_path, Advances, IsUnkept};

use crate::disk::Disk;
use crate::generation::{store_generation, stored_generation};
use cg_types::{Fault, Generation};
use cg_version::next_generation;
use cg_workers::seconds_since_1970;
use std::alloc::Global;
use std::rt::Clock;
use std::thread;
use std::time::Duration;

// How often a lock that another has is tried again, and the milliseconds between two tries.
const LOCK_TRIES: u32 = 50;

const LOCK_PAUSE: u32 = 100;

// Opens the file whose lock is that of a generation file, if it can be opened.
fn lock_beside<D: Disk>(disk: &D, alloc: Global, file: &str) -> Result<Option<D::File>, Fault>
    ensures ok { IfOk result (λ lock. D.did (OpenedToLock (lock_path D.did D.File.remaining D.File.contents file.now) lock)) }
    ensures err { IfErr result (λ f. f ≡ faults.OutOfMemory) }
{
    let mut path = String::from_str(alloc, file)?;
    path.push_str(".lock")?;
    Ok(disk.open_to_lock(path.as_str()))
}

// Locks a file. Tests whether that was done: it waits a while for a lock that another has.
fn is_locked<D: Disk + Clock>(disk: &D, lock: &D::File) -> bool
    ensures { D.did (Locked lock.now result) }
{
    for _ in 0..LOCK_TRIES {
        if disk.try_lock(lock) {
            return true;
        }
        thread::sleep(disk, Duration::from_millis(u64::from(LOCK_PAUSE)));
    }
    disk.try_lock(lock)
}

// Has a file keep the generation of a start, by the stored one and the seconds since 1970.
fn keep_next<D: Disk>(
    disk: &D,
    alloc: Global,
    file: &str,
    stored: Option<Generation>,
    seconds: u64,
) -> Result<Generation, Fault>
    ensures { StoresNext D.did D.File.remaining D.File.contents file.now stored seconds result }
{
    let generation = match next_generation(stored, seconds) {
        Ok(generation) => generation,
        Err(fault) => return Err(fault),
    };
    match store_generation(disk, alloc, file, generation) {
        Ok(()) => Ok(generation),
        Err(fault) => Err(fault),
    }
}

/// Returns the generation of the life that begins: one more than a stored one, 1 if none is stored, or the seconds
/// since 1970 if these are more.
///
/// The stored one is read from the file, and the file keeps the new one from then on. Meanwhile the file beside it whose
/// name ends with `.lock` is locked, so that no two lives begin in one generation. On a system without locks, or if that
/// file can't be opened, there is no lock.
///
/// `ReadFault` if the file can't be read or another has its lock for 5 seconds, `BadText` if it holds no generation,
/// `VersionsSpent` if there is no greater one, `WriteFault` if it can't be kept; `OutOfMemory` if memory is refused.
pub fn next_life<D: Disk + Clock>(disk: &D, alloc: Global, file: &str) -> Result<Generation, Fault>
    ensures { MatchResult result
        (λ g. Advances D.did D.File.remaining D.File.contents file.now (Ok g))
        (IsUnkept D.did D.File.remaining D.File.contents file.now) }
{
    let lock = match lock_beside(disk, alloc, file) {
        Ok(lock) => lock,
        Err(fault) => return Err(fault),
    };
    if let Some(lock) = &lock {
        if !is_locked(disk, lock) {
            return Err(Fault::ReadFault);
        }
    }
    let stored = match stored_generation(disk, alloc, file) {
        Ok(stored) => stored,
        Err(fault) => return Err(fault),
    };
    keep_next(disk, alloc, file, stored, seconds_since_1970(disk))
}
