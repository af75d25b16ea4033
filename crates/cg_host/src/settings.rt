//! The settings that a file holds.

ghost use Rattle.std.specs.Prelude.{◌≡◌, ◌⊎◌, None, Some, MatchResult};
ghost use Rattle.cg_types.specs.declared.fault.Fault.TheVariants.{OutOfMemory, BadText};
ghost use Rattle.cg_settings_file.specs.Seen.{settings_view, told_key};
ghost use Rattle.cg_settings_file.specs.AgentSeen.{agent_view};
ghost use Rattle.cg_host.specs.Disk.{HasBytes};
ghost use Rattle.cg_host.specs.Kept.{AreApart, AreShared, IsUnreadable, Settles, Unsettled};
ghost use Rattle.cg_host.specs.declared.settings.TheConstants.{SETTINGS_MOST};
ghost use Rattle.cg_host.specs.AgentKept.{AgentSettles, AgentUnsettled};

use crate::disk::Disk;
use crate::reading::read_file;
use cg_settings_file::{AgentSettings, ServeSettings, Unset, agent_or_key, settings_or_key};
use cg_types::Fault;
use std::alloc::Global;

/// The most bytes that a settings file may have.
pub const SETTINGS_MOST: u32 = 65536;

// Returns a fault that is of no key.
fn without_key(fault: Fault) -> Unset
    ensures fault { result.fault ≡ fault }
    ensures key { told_key result ≡ None }
{
    Unset { fault, key: None }
}

// Returns the fault of a file that is one with another, with the key of one.
fn shared(alloc: Global, key: &str) -> Unset
    ensures { ((result.fault ≡ OutOfMemory) × (told_key result ≡ None)) ⊎ ((result.fault ≡ BadText) × (told_key result ≡ Some key.now)) }
{
    match String::from_str(alloc, key) {
        Ok(key) => Unset {
            fault: Fault::BadText,
            key: Some(key),
        },
        Err(_) => without_key(Fault::OutOfMemory),
    }
}

// Returns the bytes of a settings file.
fn settings_bytes<D: Disk>(disk: &D, alloc: Global, file: &str) -> Result<Vec<u8>, Unset>
    ensures { MatchResult result
        (λ bytes. HasBytes D.did D.File.remaining file.now SETTINGS_MOST bytes.items)
        (λ u. (told_key u ≡ None) × IsUnreadable D.did D.File.remaining file.now u.fault) }
{
    match read_file(disk, alloc, file, SETTINGS_MOST) {
        Ok(Some(bytes)) => Ok(bytes),
        Ok(None) => Err(without_key(Fault::ReadFault)),
        Err(fault) => Err(without_key(fault)),
    }
}

// Refuses settings by which two are one of their own file, the generation's and the journal, with the key of one.
fn apart<D: Disk>(disk: &D, file: &str, settings: &ServeSettings) -> Result<(), &'static str>
    ensures { MatchResult result
        (λ _. AreApart D.did D.File.remaining D.File.contents file.now (settings_view settings.now))
        (λ key. AreShared D.did D.File.remaining D.File.contents file.now (settings_view settings.now) key.now) }
{
    let generation_file = settings.generation_file.as_str();
    let journal = settings.journal.as_str();
    if disk.are_one(file, generation_file) {
        return Err("generation_file");
    }
    if disk.are_one(file, journal) {
        return Err("journal");
    }
    if disk.are_one(generation_file, journal) {
        return Err("journal");
    }
    Ok(())
}

/// Reads the settings in a file. `ReadFault` if it is missing or can't be read; `BadText` if it has more than
/// `SETTINGS_MOST` bytes, holds no settings, or if two are one of this file, the generation's and the journal;
/// `OutOfMemory` if memory is refused. Of `BadText` the key is told, as `settings_or_key` does, or that of a file that
/// is one with another.
pub fn settings_telling<D: Disk>(
    disk: &D,
    alloc: Global,
    file: &str,
) -> Result<ServeSettings, Unset>
    ensures { MatchResult result
        (λ s. Settles D.did D.File.remaining D.File.contents file.now (settings_view s))
        (λ u. Unsettled D.did D.File.remaining D.File.contents file.now u.fault (told_key u)) }
{
    let bytes = match settings_bytes(disk, alloc, file) {
        Ok(bytes) => bytes,
        Err(unset) => return Err(unset),
    };
    let settings = match settings_or_key(alloc, &bytes) {
        Ok(settings) => settings,
        Err(unset) => return Err(unset),
    };
    match apart(disk, file, &settings) {
        Ok(()) => Ok(settings),
        Err(key) => Err(shared(alloc, key)),
    }
}

/// Reads the settings in a file of a node that runs until it is stopped, as `settings_telling` does. `BadText` too if the
/// generation's file is this one.
pub fn agent_settings_telling<D: Disk>(
    disk: &D,
    alloc: Global,
    file: &str,
) -> Result<AgentSettings, Unset>
    ensures { MatchResult result
        (λ s. AgentSettles D.did D.File.remaining file.now (agent_view s))
        (λ u. AgentUnsettled D.did D.File.remaining file.now u.fault (told_key u)) }
{
    let bytes = match settings_bytes(disk, alloc, file) {
        Ok(bytes) => bytes,
        Err(unset) => return Err(unset),
    };
    let settings = match agent_or_key(alloc, &bytes) {
        Ok(settings) => settings,
        Err(unset) => return Err(unset),
    };
    if disk.are_one(file, settings.generation_file.as_str()) {
        return Err(shared(alloc, "generation_file"));
    }
    Ok(settings)
}
