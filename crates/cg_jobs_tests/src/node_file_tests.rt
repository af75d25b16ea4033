//! The files of a node: its settings, its generation and its journal, in the folder where the tests run.

use crate::settings_tests::FEW;
use cg_core::Event;
use cg_history::History;
use cg_host::{SETTINGS_MOST, next_life, settings_telling, try_journal, write_journal_to};
use cg_life_samples::{generation_of, journal_of, remove_file, write_file};
use cg_testing::{A, endpoint, expect, expect_eq, generation, settings};
use cg_types::Fault;
use std::alloc::Global;
use std::fs::File;
use std::rt::Files;
use std::test::Fail;

// The port at which the settings of a file have the node listen, or their fault.
fn port_in<R: Files<File = File>>(rt: &R, alloc: Global, file: &str) -> Result<u16, Fault> {
    match settings_telling(rt, alloc, file) {
        Ok(settings) => Ok(settings.listen.port()),
        Err(unset) => Err(unset.fault),
    }
}

#[test]
fn settings_of_a_file(rt: HostRuntime) -> Result<(), Fail> {
    let (alloc, name) = (rt.alloc(), "cg_jobs_settings");
    write_file(&rt, alloc, name, "toml", FEW.as_bytes())?;
    expect_eq!(port_in(&rt, alloc, "cg_jobs_settings.toml"), Ok(7000))
}

#[test]
fn files_that_hold_no_settings(rt: HostRuntime) -> Result<(), Fail> {
    let (alloc, name) = (rt.alloc(), "cg_jobs_unset");
    remove_file(&rt, alloc, name, "toml")?;
    expect_eq!(
        port_in(&rt, alloc, "cg_jobs_unset.toml"),
        Err(Fault::ReadFault)
    )?;
    write_file(&rt, alloc, name, "toml", b"cluster = \"c1\"\n")?;
    expect_eq!(
        port_in(&rt, alloc, "cg_jobs_unset.toml"),
        Err(Fault::BadText)
    )
}

// Settings, and empty lines until they have `length` bytes.
fn settings_of_length(alloc: Global, length: usize) -> Result<Vec<u8>, Fail> {
    let mut bytes = FEW.as_bytes().to_vec(alloc)?;
    for _ in bytes.len()..length {
        bytes.push(b'\n')?;
    }
    Ok(bytes)
}

#[test]
fn the_longest_settings(rt: HostRuntime) -> Result<(), Fail> {
    let (alloc, name) = (rt.alloc(), "cg_jobs_longest");
    let longest = SETTINGS_MOST as usize;
    write_file(
        &rt,
        alloc,
        name,
        "toml",
        &settings_of_length(alloc, longest)?,
    )?;
    expect_eq!(port_in(&rt, alloc, "cg_jobs_longest.toml"), Ok(7000))?;
    write_file(
        &rt,
        alloc,
        name,
        "toml",
        &settings_of_length(alloc, longest + 1)?,
    )?;
    expect_eq!(
        port_in(&rt, alloc, "cg_jobs_longest.toml"),
        Err(Fault::BadText)
    )
}

#[test]
fn the_last_generation_has_no_next_life(rt: HostRuntime) -> Result<(), Fail> {
    let (alloc, name) = (rt.alloc(), "cg_jobs_lives");
    write_file(&rt, alloc, name, "generation", b"2147483646\n")?;
    for due in [Ok(generation(2147483647)), Err(Fault::VersionsSpent)] {
        expect_eq!(next_life(&rt, alloc, "cg_jobs_lives.generation"), due)?;
        expect!(generation_of(&rt, alloc, name)? == Ok(Some(2147483647)))?;
    }
    Ok(())
}

// A's history at its start.
fn new_history(alloc: Global) -> Result<History, Fail> {
    Ok(History::begin(alloc, endpoint(A), generation(9), settings(alloc)?)?)
}

#[test]
fn a_journal_in_a_file(rt: HostRuntime) -> Result<(), Fail> {
    let (alloc, name) = (rt.alloc(), "cg_jobs_journal");
    remove_file(&rt, alloc, name, "journal")?;
    let history = new_history(alloc)?;
    write_journal_to(&rt, alloc, "cg_jobs_journal.journal", &history)?;
    expect!(journal_of(&rt, alloc, name)? == Some((endpoint(A), generation(9), 0)))?;
    expect_eq!(
        write_journal_to(&rt, alloc, "cg_jobs_no_folder/journal", &history),
        Err(Fault::WriteFault)
    )
}

// Beats a history once, and folds the record.
fn fold_a_beat(alloc: Global, history: &mut History) -> Result<(), Fail> {
    history.apply(alloc, 0, Event::Beat)?;
    if history.records().len() == 1 {
        history.fold_front(alloc, 1)?;
    }
    Ok(())
}

// Writes the journal of A's history, and expects that it can't be written once a record is folded.
fn write_and_fold<R: Files<File = File>>(rt: &R, alloc: Global) -> Result<(), Fail> {
    let mut history = new_history(alloc)?;
    write_journal_to(rt, alloc, "cg_jobs_folded.journal", &history)?;
    fold_a_beat(alloc, &mut history)?;
    for file in ["cg_jobs_folded.journal", "cg_jobs_no_folder/journal"] {
        expect_eq!(
            write_journal_to(rt, alloc, file, &history),
            Err(Fault::Folded)
        )?;
    }
    Ok(())
}

#[test]
fn a_journal_of_a_folded_history(rt: HostRuntime) -> Result<(), Fail> {
    let (alloc, name) = (rt.alloc(), "cg_jobs_folded");
    write_and_fold(&rt, alloc)?;
    // the old text stays, and no file is begun
    expect!(journal_of(&rt, alloc, name)? == Some((endpoint(A), generation(9), 0)))?;
    expect_eq!(
        port_in(&rt, alloc, "cg_jobs_folded.journal.new"),
        Err(Fault::ReadFault)
    )
}

#[test]
fn a_place_of_a_journal_is_tried(rt: HostRuntime) -> Result<(), Fail> {
    let (alloc, name) = (rt.alloc(), "cg_jobs_tried");
    remove_file(&rt, alloc, name, "journal")?;
    try_journal(&rt, alloc, "cg_jobs_tried.journal")?;
    expect!(journal_of(&rt, alloc, name)?.is_none())?;
    expect_eq!(
        port_in(&rt, alloc, "cg_jobs_tried.journal.new"),
        Err(Fault::ReadFault)
    )?;
    for file in ["cg_jobs_no_folder/journal", ".", "/dev/full"] {
        expect_eq!(try_journal(&rt, alloc, file), Err(Fault::WriteFault))?;
    }
    Ok(())
}
