//! Files that are replaced whole.

ghost use Rattle.std.specs.Prelude.{◌≡◌, IfOk, IfErr, OnOk, string_bytes};
ghost use Rattle.cg_links.specs.Counted.{IsNew, link_of};
ghost use Rattle.cg_host.specs.Disk.{Call, Made, IsWritingFault, Puts, Replaces, Unreplaced};
ghost use Rattle.cg_host.specs.Replacing.{aside_of, link_in, aside_path};

use crate::disk::Disk;
use cg_links::{Counted, write_bytes};
use cg_types::Fault;
use std::alloc::{AllocError, Global};

/// A new file that is to replace another. Until then it is beside that file, under its name followed by `.new`.
#[derive(Drop)]
pub struct Replacement<F> {
    /// The link over which the new file is written.
    pub link: Counted<F>,
    /// The path of the new file.
    pub aside: String,
}

// The path of the new file.
fn path_aside(alloc: Global, path: &str) -> Result<String, AllocError>
    ensures { IfOk result (λ aside. string_bytes aside ≡ aside_of path.now) }
{
    let mut aside = String::from_str(alloc, path)?;
    aside.push_str(".new")?;
    Ok(aside)
}

impl<F> Replacement<F> {
    /// Begins a new, empty file beside the one at the path; an older one under its name is removed. It has the mode of
    /// the one at the path, and its owner if the system lets it.
    ///
    /// `WriteFault` if it can't be made, or if a folder, a device, a symlink or anything else that is no regular file is
    /// at the path: then nothing changes. `OutOfMemory` if its path finds no memory.
    pub fn begin<D: Disk<File = F>>(
        disk: &D,
        alloc: Global,
        path: &str,
    ) -> Result<Replacement<F>, Fault>
        ensures link { IfOk result (λ r. IsNew (link_in r)) }
        ensures aside { IfOk result (λ r. aside_path r ≡ aside_of path.now) }
        ensures made { IfOk result (λ r. D.did (Made (aside_path r) path.now (Ok (link_of (link_in r))))) }
        ensures err { IfErr result IsWritingFault }
    {
        let aside = path_aside(alloc, path)?;
        match disk.make(aside.as_str(), path) {
            Ok(file) => Ok(Replacement {
                link: Counted::new(file),
                aside,
            }),
            Err(fault) => Err(fault),
        }
    }
}

impl<F: Drop> Replacement<F> {
    /// Removes the new file; the one at the path stays. `WriteFault` if it can't be removed.
    pub fn remove<D: Disk>(self, disk: &D) -> Result<(), Fault>
        ensures { IfErr result IsWritingFault }
    {
        match disk.remove(self.aside.as_str()) {
            Ok(()) => Ok(()),
            Err(fault) => Err(fault),
        }
    }

    /// Puts the new file in the place of the one at the path.
    ///
    /// It first syncs the new file, so that all of it is on the disk. At the end it syncs the folder, so that no crash
    /// brings the old file back. `WriteFault` if a step fails or what is at the path is no regular file, `OutOfMemory`
    /// if memory is refused: the file at the path may then be the old one or the new one. No clause speaks of crashes.
    pub fn put<D: Disk<File = F>>(self, disk: &D, path: &str) -> Result<(), Fault>
        ensures put { OnOk result (Puts D.did (link_of (link_in self)) (aside_path self) path.now) }
        ensures err { IfErr result IsWritingFault }
    {
        let Replacement { link, aside } = self;
        let file = link.into_link();
        match disk.sync(&file) {
            Ok(()) => {}
            Err(fault) => return Err(fault),
        }
        match disk.rename(aside.as_str(), path) {
            Ok(()) => {}
            Err(fault) => return Err(fault),
        }
        match disk.sync_folder(path) {
            Ok(()) => Ok(()),
            Err(fault) => Err(fault),
        }
    }
}

/// Replaces a file by these bytes, or makes it. A symlink stays, and the file that it leads to is replaced.
///
/// After a crash it has the old bytes or the new ones; no clause speaks of crashes. `WriteFault` if replacing fails,
/// `OutOfMemory` if memory is refused: then, too, it has the old bytes or the new ones.
pub fn replace<D: Disk>(disk: &D, alloc: Global, path: &str, bytes: &[u8]) -> Result<(), Fault>
    ensures replaced { OnOk result (Replaces D.did D.File.contents path.now bytes.now) }
    ensures err { IfErr result (Unreplaced D.did path.now) }
{
    let place = match disk.place(alloc, path) {
        Ok(place) => place,
        Err(fault) => return Err(fault),
    };
    let mut new = match Replacement::begin(disk, alloc, place.as_str()) {
        Ok(new) => new,
        Err(fault) => return Err(fault),
    };
    match write_bytes(&mut new.link, bytes) {
        Ok(()) => new.put(disk, place.as_str()),
        Err(fault) => Err(fault),
    }
}
