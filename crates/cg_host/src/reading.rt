//! Files that are read.

ghost use Rattle.std.specs.Prelude.{◌≡◌, ◌⊎◌, ◌≤◌, ◌<◌, length, Err, IfOk, IfErr, IfSome, MatchResult, option_map};
ghost use Rattle.cg_types.specs.declared.fault.Fault.TheVariants as faults;
ghost use Rattle.cg_host.specs.Disk.{Found, Unfound};

use crate::disk::Disk;
use cg_links::{Counted, read_all};
use cg_types::Fault;
use std::alloc::Global;
use std::io::Read;

// Reads all that a link has, up to `most` bytes.
fn read_up_to<L: Read + Drop>(alloc: Global, link: L, most: u32) -> Result<Vec<u8>, Fault>
    ensures most { IfOk result (λ v. length v.items ≤ most) }
    ensures all { IfOk result (λ v. IfSome (L.remaining link) (λ known. v.items ≡ known)) }
    ensures long { (result ≡ Err faults.BadText) → IfSome (L.remaining link) (λ known. most < length known) }
    ensures err { IfErr result (λ f. (f ≡ faults.OutOfMemory) ⊎ ((f ≡ faults.BadText) ⊎ (f ≡ faults.ReadFault))) }
{
    let mut link = Counted::new(link.take(u64::from(most) + 1));
    let bytes = match read_all(alloc, &mut link) {
        Ok(bytes) => bytes,
        Err(fault) => return Err(fault),
    };
    if bytes.len() > most as usize {
        return Err(Fault::BadText);
    }
    Ok(bytes)
}

/// Reads the bytes of a file; `None` if there is no file.
///
/// `BadText` if it has more than `most` bytes, of which no more are read; `ReadFault` if it can't be opened or read,
/// `OutOfMemory` if the bytes find no memory.
pub fn read_file<D: Disk>(
    disk: &D,
    alloc: Global,
    path: &str,
    most: u32,
) -> Result<Option<Vec<u8>>, Fault>
    ensures { MatchResult result
        (λ found. Found D.did D.File.remaining path.now most (option_map (λ v. v.items) found))
        (Unfound D.did D.File.remaining path.now most) }
{
    let file = match disk.open_to_read(path) {
        Ok(Some(file)) => file,
        Ok(None) => return Ok(None),
        Err(fault) => return Err(fault),
    };
    match read_up_to(alloc, file, most) {
        Ok(bytes) => Ok(Some(bytes)),
        Err(fault) => Err(fault),
    }
}
