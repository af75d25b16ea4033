//! The files of a system, call by call.

ghost use Rattle.std.specs.Prelude.{◌≡◌, Ok, Err, IfErr, IsTrue, MatchResult, string_bytes};
ghost use Rattle.cg_host.specs.Disk.{IsWritingFault, IsOpeningFault, Call, Looked, Opened, Placed, Made, Synced, Renamed, FolderSynced, Compared, OpenedToLock, Locked};

use cg_types::Fault;
use std::alloc::Global;
use std::io::{Read, Write};

/// The files of a system, call by call. Each system with files is one.
///
/// What a file holds is not known, so a contract says which calls were made, and with what: only a call shows that it
/// was made.
pub trait Disk {
    /// An open file.
    type File: Read + Write + Drop;

    // the calls that were made
    ghost did: { Call Self.File → Type 0 } = { λ c. Unit {0} };

    /// Tests whether a path leads to a FIFO, whose opening waits for another program.
    fn is_fifo(&self, path: &str) -> bool
        ensures did { did (Looked path.now result) };

    /// Opens a file to read it; `None` if there is none.
    fn open_to_read(&self, path: &str) -> Result<Option<Self::File>, Fault>
        ensures did { did (Opened path.now result) }
        ensures fault { IfErr result IsOpeningFault };

    /// Returns the place of the file that a path names: where the path is a symlink, the path of what this leads to;
    /// else the path itself. `WriteFault` if the symlink leads to nothing.
    fn place(&self, alloc: Global, path: &str) -> Result<String, Fault>
        ensures did { MatchResult result
            (λ place. did (Placed path.now (Ok (string_bytes place)))) (λ f. did (Placed path.now (Err f))) }
        ensures fault { IfErr result IsWritingFault };

    /// Makes a new, empty file that is to replace the one at a place, with the mode of that one, and with its owner if
    /// the system lets it. What had the new one's name is removed first. `WriteFault` if it can't be made, or if what is
    /// at the place is no regular file.
    fn make(&self, aside: &str, place: &str) -> Result<Self::File, Fault>
        ensures did { did (Made aside.now place.now result) }
        ensures fault { IfErr result IsWritingFault };

    /// Has all of a file on the disk.
    fn sync(&self, file: &Self::File) -> Result<(), Fault>
        ensures did { did (Synced file.now result) }
        ensures fault { IfErr result IsWritingFault };

    /// Renames a file. `WriteFault` if it can't be done, or if what is at the new path is no regular file.
    fn rename(&self, aside: &str, place: &str) -> Result<(), Fault>
        ensures did { did (Renamed aside.now place.now result) }
        ensures fault { IfErr result IsWritingFault };

    /// Has the folder of a file on the disk, if its file system syncs folders.
    fn sync_folder(&self, place: &str) -> Result<(), Fault>
        ensures did { did (FolderSynced place.now result) }
        ensures fault { IfErr result IsWritingFault };

    /// Tests whether two paths name one file: they are equal, or what they lead to is one file of one device.
    fn are_one(&self, one: &str, other: &str) -> bool
        ensures did { did (Compared one.now other.now result) }
        ensures equal { one.now ≡ other.now → IsTrue result };

    /// Opens a file to lock it, and makes it if there is none; `None` if it can't be opened or is a FIFO.
    fn open_to_lock(&self, path: &str) -> Option<Self::File>
        ensures did { did (OpenedToLock path.now result) };

    /// Locks a file until it is closed, unless another open of it has a lock: then the answer is `false`. On a system
    /// without locks it is `true`.
    fn try_lock(&self, file: &Self::File) -> bool
        ensures did { did (Locked file.now result) };

    /// Removes a file.
    fn remove(&self, path: &str) -> Result<(), Fault>
        ensures fault { IfErr result IsWritingFault };
}
