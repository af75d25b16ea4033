//! The generation that a node keeps from one life to the next.

ghost use Rattle.std.specs.Prelude.{◌≡◌, ◌⊎◌, IfOk, IfErr, OnOk, MatchResult, string_bytes};
ghost use Rattle.cg_types.specs.declared.fault.Fault.TheVariants as faults;
ghost use Rattle.cg_host.specs.Disk.{Replaces, Unreplaced};
ghost use Rattle.cg_host.specs.Storing.{Holds, HoldsNone, Stored, Unstored};
ghost use Rattle.cg_host.specs.Generation as spec;
ghost use Rattle.cg_host.specs.Generation.{kept_text_of};

use crate::disk::Disk;
use crate::reading::read_file;
use crate::replacing::replace;
use cg_types::{Fault, Generation, cut};
use std::alloc::{AllocError, Global};
use std::fmt::Write;

// The length of the longest file that holds a generation: ten digits and a line feed.
const MOST: u32 = 11;

/// Reads a generation in bytes: one decimal number with no leading zero, and perhaps a line feed.
#[tactic(auto, unfolding(crate::specs::Generation::kept_generation_in))]
pub fn kept_generation_in(bytes: &[u8]) -> Option<Generation>
    ensures { result ≡ spec.kept_generation_in bytes.now }
{
    let Some((digits, rest)) = cut(bytes, b'\n') else {
        return Generation::from_bytes(bytes);
    };
    if rest.is_empty() {
        Generation::from_bytes(digits)
    } else {
        None
    }
}

/// Returns the text of a generation: its number and a line feed.
#[tactic(auto, unfolding(crate::specs::Generation::kept_text_of))]
pub fn generation_text(alloc: Global, generation: Generation) -> Result<String, AllocError>
    ensures { IfOk result (λ text. string_bytes text ≡ kept_text_of generation) }
{
    let mut text = String::new(alloc);
    let generation = generation.get();
    writeln!(&mut text, "{generation}")?;
    Ok(text)
}

// Reads the generation in a file; `None` if there is no file.
fn held_generation<D: Disk>(
    disk: &D,
    alloc: Global,
    path: &str,
) -> Result<Option<Generation>, Fault>
    ensures { MatchResult result
        (Holds D.did D.File.remaining path.now) (HoldsNone D.did D.File.remaining path.now) }
{
    match read_file(disk, alloc, path, MOST) {
        Ok(Some(bytes)) => match kept_generation_in(&bytes) {
            Some(generation) => Ok(Some(generation)),
            None => Err(Fault::BadText),
        },
        Ok(None) => Ok(None),
        Err(fault) => Err(fault),
    }
}

/// Reads the generation that a file keeps; `None` if there is no file.
///
/// `BadText` if it holds anything else than one number and perhaps a line feed; `ReadFault` if it can't be read or is a
/// FIFO, which is not opened; `OutOfMemory` if memory is refused.
pub fn stored_generation<D: Disk>(
    disk: &D,
    alloc: Global,
    path: &str,
) -> Result<Option<Generation>, Fault>
    ensures { MatchResult result
        (Stored D.did D.File.remaining path.now) (Unstored D.did D.File.remaining path.now) }
{
    if disk.is_fifo(path) {
        return Err(Fault::ReadFault);
    }
    match held_generation(disk, alloc, path) {
        Ok(stored) => Ok(stored),
        Err(fault) => Err(fault),
    }
}

/// Stores a generation in a file, in place of the old one.
///
/// After a crash the file keeps the old one or the new one; no clause speaks of crashes. `WriteFault` if storing fails,
/// `OutOfMemory` if memory is refused.
pub fn store_generation<D: Disk>(
    disk: &D,
    alloc: Global,
    path: &str,
    generation: Generation,
) -> Result<(), Fault>
    ensures stored { OnOk result (Replaces D.did D.File.contents path.now (kept_text_of generation)) }
    ensures err { IfErr result (λ f. (f ≡ faults.OutOfMemory) ⊎ Unreplaced D.did path.now f) }
{
    let text = generation_text(alloc, generation)?;
    match replace(disk, alloc, path, text.as_bytes()) {
        Ok(()) => Ok(()),
        Err(fault) => Err(fault),
    }
}
