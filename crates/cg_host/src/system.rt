//! The files of the system.

ghost use Rattle.std.specs.Prelude.{◌≡◌, ◌⊎◌, ◌↔◌, IfOk, IfErr, IfSome, IsTrue};
ghost use Rattle.std.specs.IoError.{error_kind};
ghost use Rattle.std.specs.Fs.{file_type, IsFile};
ghost use Rattle.cg_types.specs.declared.fault.Fault.TheVariants as faults;
ghost use Rattle.cg_host.specs.Disk.{IsWritingFault};

use crate::disk::Disk;
use cg_types::Fault;
use std::alloc::Global;
use std::fs::{File, Metadata, OpenFile, OpenOptions, TryLockError};
use std::io::{Error, ErrorKind};
use std::os::unix::fs::{FileTypeExt, MetadataExt, OpenOptionsExt};
use std::rt::Files;
use std::{fs, io};

// Returns the fault of a call that failed: `OutOfMemory` if memory was refused, else the given one.
fn fault_of(error: &Error, other: Fault) -> Fault
    ensures { (result ≡ faults.OutOfMemory) ⊎ (result ≡ other) }
{
    match error.kind() {
        ErrorKind::OutOfMemory => Fault::OutOfMemory,
        _ => other,
    }
}

// Returns what a call that writes answered, with its fault.
fn written<T: Drop>(answer: io::Result<T>) -> Result<T, Fault>
    ensures { IfErr result IsWritingFault }
{
    match answer {
        Ok(value) => Ok(value),
        Err(error) => Err(fault_of(&error, Fault::WriteFault)),
    }
}

// Returns the folder that a file is in: the part of its path before the last slash, or the root, or the folder in which
// the program runs.
fn folder_of(path: &str) -> &str {
    match path.rsplit_once('/') {
        Some((folder, _)) => { if folder.is_empty() { "/" } else { folder } }
        None => ".",
    }
}

// Returns what is known of the file at a path, if there is one. `WriteFault` if it is no regular file.
fn standing<R: Files>(rt: &R, path: &str) -> Result<Option<Metadata>, Fault>
    ensures file { IfOk result (λ found. IfSome found (λ m. IsFile (file_type m))) }
    ensures err { IfErr result IsWritingFault }
{
    match fs::symlink_metadata(rt, path) {
        Ok(found) => {
            if found.is_file() {
                Ok(Some(found))
            } else {
                Err(Fault::WriteFault)
            }
        }
        Err(error) => match error.kind() {
            ErrorKind::NotFound => Ok(None),
            _ => Err(fault_of(&error, Fault::WriteFault)),
        },
    }
}

// The mode of a new file that has yet to get that of an old one: no other user opens it.
const PRIVATE: u32 = 0o600;

// Makes a new, empty file, with the mode of the old one if there is one, and with its owner if the system lets it. What
// had its name is removed first, so no symlink is followed.
fn made_anew<R: Files>(rt: &R, path: &str, old: Option<Metadata>) -> io::Result<R::File> {
    match fs::remove_file(rt, path) {
        Ok(()) => {}
        Err(error) if error.kind() == ErrorKind::NotFound => {}
        Err(error) => return Err(error),
    }
    let Some(old) = old else {
        return File::create_new(rt, path);
    };
    let mut options = OpenOptions::new();
    options.write(true).create_new(true).mode(PRIVATE);
    let file = options.open(rt, path)?;
    let _ = rt.lchown(path, Some(old.uid()), Some(old.gid()));
    file.set_permissions(old.permissions())?;
    Ok(file)
}

// Tests whether an error says that a file system does not sync folders.
fn syncs_none(error: &Error) -> bool
    ensures { IsTrue result ↔ ((error_kind error.now ≡ ErrorKind.InvalidInput) ⊎ (error_kind error.now ≡ ErrorKind.Unsupported)) }
{
    match error.kind() {
        ErrorKind::InvalidInput | ErrorKind::Unsupported => true,
        _ => false,
    }
}

// Syncs a folder, if its file system syncs folders.
fn sync_folder<R: Files>(rt: &R, folder: &str) -> io::Result<()> {
    match fs::open(rt, folder)?.sync_all() {
        Err(error) if syncs_none(&error) => Ok(()),
        synced => synced,
    }
}

// Tests whether two paths lead to one file of one device.
fn lead_to_one<R: Files>(rt: &R, one: &str, other: &str) -> bool {
    match (fs::metadata(rt, one), fs::metadata(rt, other)) {
        (Ok(one), Ok(other)) => one.dev() == other.dev() && one.ino() == other.ino(),
        _ => false,
    }
}

// Tests whether a path leads to a FIFO.
fn leads_to_fifo<R: Files>(rt: &R, path: &str) -> bool {
    match fs::metadata(rt, path) {
        Ok(found) => found.file_type().is_fifo(),
        Err(_) => false,
    }
}

impl<R: Files<File = File>> Disk for R {
    type File = File;

    fn is_fifo(&self, path: &str) -> bool {
        leads_to_fifo(self, path)
    }

    fn open_to_read(&self, path: &str) -> Result<Option<File>, Fault> {
        match fs::open(self, path) {
            Ok(file) => Ok(Some(file)),
            Err(error) => match error.kind() {
                ErrorKind::NotFound => Ok(None),
                _ => Err(fault_of(&error, Fault::ReadFault)),
            },
        }
    }

    fn place(&self, alloc: Global, path: &str) -> Result<String, Fault> {
        match fs::symlink_metadata(self, path) {
            Ok(found) if found.is_symlink() => match self.canonicalize(alloc, path) {
                Ok(place) => Ok(place.into_string()),
                Err(error) => Err(fault_of(&error, Fault::WriteFault)),
            },
            _ => Ok(String::from_str(alloc, path)?),
        }
    }

    fn make(&self, aside: &str, place: &str) -> Result<File, Fault> {
        match standing(self, place) {
            Ok(old) => written(made_anew(self, aside, old)),
            Err(fault) => Err(fault),
        }
    }

    fn sync(&self, file: &File) -> Result<(), Fault> {
        written(file.sync_all())
    }

    fn rename(&self, aside: &str, place: &str) -> Result<(), Fault> {
        match standing(self, place) {
            Ok(_) => written(fs::rename(self, aside, place)),
            Err(fault) => Err(fault),
        }
    }

    fn sync_folder(&self, place: &str) -> Result<(), Fault> {
        written(sync_folder(self, folder_of(place)))
    }

    fn are_one(&self, one: &str, other: &str) -> bool {
        one == other || lead_to_one(self, one, other)
    }

    fn open_to_lock(&self, path: &str) -> Option<File> {
        if leads_to_fifo(self, path) {
            return None;
        }
        OpenOptions::new()
            .write(true)
            .create(true)
            .open(self, path)
            .ok()
    }

    fn try_lock(&self, file: &File) -> bool {
        match file.try_lock() {
            Err(TryLockError::WouldBlock) => false,
            _ => true,
        }
    }

    fn remove(&self, path: &str) -> Result<(), Fault> {
        written(fs::remove_file(self, path))
    }
}
