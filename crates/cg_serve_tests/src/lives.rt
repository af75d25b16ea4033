//! Lives of a node that serves alone, and lives that settings, files or a port in use prevent.

use cg_life_samples::{
    free_port, generation_of, journal_of, remove_file, write_file, write_settings,
};
use cg_links::Counted;
use cg_serve::serve;
use cg_testing::{expect, expect_eq};
use cg_types::{Endpoint, Fault, Generation};
use std::alloc::Global;
use std::fs;
use std::fs::File;
use std::net::TcpListener;
use std::os::unix::fs::symlink;
use std::rt::Files;
use std::test::Fail;

// Expects that a life ended with this status, and that it wrote this text.
fn ended(writer: Counted<Vec<u8>>, status: u8, due: u8, text: &str) -> Result<(), Fail> {
    expect_eq!(status, due)?;
    expect!(writer.into_link().as_slice() == text.as_bytes())
}

// Expects that a life by the settings in a file ends with this status, and that it writes this text. Only a test itself
// can start the life's threads.
macro_rules! ends {
    ($rt:expr, $alloc:expr, $file:expr, $status:expr, $text:expr) => {{
        let mut writer = Counted::new(Vec::new($alloc));
        let status = serve($rt, $alloc, $file, &mut writer);
        ended(writer, status, $status, $text)
    }};
}

// Expects that the journal is of one life, in the greatest generation, with two records.
fn is_of_the_last_life<R: Files<File = File>>(
    rt: &R,
    alloc: Global,
    name: &str,
    port: u16,
) -> Result<(), Fail> {
    let own = Endpoint::new([127, 0, 0, 1], port).ok_or("endpoint")?;
    let generation = Generation::new(2147483647).ok_or("generation")?;
    expect!(journal_of(rt, alloc, name)? == Some((own, generation, 2)))
}

#[test]
fn a_node_alone(rt: HostRuntime) -> Result<(), Fail> {
    let (alloc, name) = (rt.alloc(), "cg_serve_alone");
    let port = free_port(&rt)?;
    let settings = write_settings(&rt, alloc, name, port)?;
    remove_file(&rt, alloc, name, "journal")?;
    write_file(&rt, alloc, name, "generation", b"2147483646\n")?;
    ends!(&rt, alloc, settings.as_str(), 0, "")?;
    expect!(generation_of(&rt, alloc, name)? == Ok(Some(2147483647)))?;
    is_of_the_last_life(&rt, alloc, name, port)?;
    // there is no greater generation, and the journal of the first life stays
    ends!(&rt, alloc, settings.as_str(), 1, "fault 4 VersionsSpent\n")?;
    is_of_the_last_life(&rt, alloc, name, port)
}

// The generation that its file keeps.
fn kept_generation<R: Files<File = File>>(rt: &R, alloc: Global, name: &str) -> Result<u32, Fail> {
    let kept = generation_of(rt, alloc, name)?;
    Ok(kept.ok().flatten().ok_or("generation")?)
}

#[test]
fn a_first_life_is_in_the_generation_of_its_second(rt: HostRuntime) -> Result<(), Fail> {
    let (alloc, name) = (rt.alloc(), "cg_serve_first");
    let settings = write_settings(&rt, alloc, name, free_port(&rt)?)?;
    remove_file(&rt, alloc, name, "generation")?;
    ends!(&rt, alloc, settings.as_str(), 0, "")?;
    let first = kept_generation(&rt, alloc, name)?;
    expect!(first > 1700000000)?;
    ends!(&rt, alloc, settings.as_str(), 0, "")?;
    expect!(kept_generation(&rt, alloc, name)? > first)
}

// Writes settings of a node that begins no round and takes no exchange, with its files and its port.
fn settle<R: Files<File = File>>(
    rt: &R,
    alloc: Global,
    name: &str,
    generation_file: &str,
    journal: &str,
    port: u16,
) -> Result<(), Fail> {
    let text = format!(in alloc;
        "cluster = \"c1\"\nlisten = \"127.0.0.1:{port}\"\ngeneration_file = \"{generation_file}\"\n\
         journal = \"{journal}\"\nrounds = 0\nexchanges = 0\n"
    )?;
    write_file(rt, alloc, name, "toml", text.as_bytes())
}

// In the next three tests each step mends one fault, and the next one shows.

#[test]
fn faults_of_settings_in_their_order(rt: HostRuntime) -> Result<(), Fail> {
    let (alloc, name, file) = (rt.alloc(), "cg_serve_unset", "cg_serve_unset.toml");
    remove_file(&rt, alloc, name, "toml")?;
    ends!(&rt, alloc, file, 1, "fault 14 ReadFault\n")?;
    write_file(&rt, alloc, name, "toml", b"cluster = \"\xff\"\n")?;
    ends!(&rt, alloc, file, 1, "fault 2 BadText\n")?;
    // the text is read, and two of the three files are one
    settle(
        &rt,
        alloc,
        name,
        file,
        "cg_serve_no_folder/file",
        free_port(&rt)?,
    )?;
    ends!(&rt, alloc, file, 1, "fault 2 BadText\n")
}

#[test]
fn faults_of_a_generation_in_their_order(rt: HostRuntime) -> Result<(), Fail> {
    let (alloc, name, file) = (rt.alloc(), "cg_serve_faults", "cg_serve_faults.toml");
    let (generation, lost) = ("cg_serve_faults.generation", "cg_serve_no_folder/file");
    settle(&rt, alloc, name, ".", lost, free_port(&rt)?)?;
    ends!(&rt, alloc, file, 1, "fault 14 ReadFault\n")?;
    settle(&rt, alloc, name, generation, lost, free_port(&rt)?)?;
    write_file(&rt, alloc, name, "generation", b"five\n")?;
    ends!(&rt, alloc, file, 1, "fault 2 BadText\n")?;
    write_file(&rt, alloc, name, "generation", b"2147483647\n")?;
    ends!(&rt, alloc, file, 1, "fault 4 VersionsSpent\n")?;
    settle(
        &rt,
        alloc,
        name,
        "cg_serve_no_folder/other",
        lost,
        free_port(&rt)?,
    )?;
    ends!(&rt, alloc, file, 1, "fault 15 WriteFault\n")
}

// Has the generation's path lead to this.
fn lead<R: Files<File = File>>(rt: &R, alloc: Global, to: &str) -> Result<(), Fail> {
    remove_file(rt, alloc, "cg_serve_led", "generation")?;
    symlink(rt, to, "cg_serve_led.generation")?;
    Ok(())
}

// What the path of a generation names is a symlink, and so no regular file, or leads to none.
#[test]
fn faults_of_a_generation_that_is_no_regular_file(rt: HostRuntime) -> Result<(), Fail> {
    let (alloc, name, file) = (rt.alloc(), "cg_serve_led", "cg_serve_led.toml");
    let (generation, lost) = ("cg_serve_led.generation", "cg_serve_no_folder/file");
    settle(&rt, alloc, name, generation, lost, free_port(&rt)?)?;
    lead(&rt, alloc, ".")?;
    ends!(&rt, alloc, file, 1, "fault 14 ReadFault\n")?;
    lead(&rt, alloc, "/dev/null")?;
    ends!(&rt, alloc, file, 1, "fault 2 BadText\n")?;
    write_file(&rt, alloc, name, "number", b"2147483647\n")?;
    lead(&rt, alloc, "cg_serve_led.number")?;
    ends!(&rt, alloc, file, 1, "fault 4 VersionsSpent\n")?;
    // it leads to nothing: there is no number to read, and nothing to replace
    remove_file(&rt, alloc, name, "number")?;
    ends!(&rt, alloc, file, 1, "fault 15 WriteFault\n")?;
    expect!(fs::symlink_metadata(&rt, generation)?.is_symlink())?;
    remove_file(&rt, alloc, name, "generation")
}

#[test]
fn faults_behind_a_kept_generation_in_their_order(rt: HostRuntime) -> Result<(), Fail> {
    let (alloc, name, file) = (rt.alloc(), "cg_serve_taken", "cg_serve_taken.toml");
    let (generation, lost) = ("cg_serve_taken.generation", "cg_serve_no_folder/file");
    let taken = TcpListener::bind(&rt, "127.0.0.1:0")?;
    write_file(&rt, alloc, name, "generation", b"2147483600\n")?;
    settle(
        &rt,
        alloc,
        name,
        generation,
        lost,
        taken.local_addr()?.port(),
    )?;
    ends!(&rt, alloc, file, 1, "fault 14 ReadFault\n")?;
    expect!(generation_of(&rt, alloc, name)? == Ok(Some(2147483601)))?;
    settle(&rt, alloc, name, generation, lost, free_port(&rt)?)?;
    ends!(&rt, alloc, file, 1, "fault 15 WriteFault\n")?;
    expect!(generation_of(&rt, alloc, name)? == Ok(Some(2147483602)))
}

#[test]
fn a_fault_before_the_life_leaves_no_journal(rt: HostRuntime) -> Result<(), Fail> {
    let (alloc, name) = (rt.alloc(), "cg_serve_unborn");
    let settings = write_settings(&rt, alloc, name, free_port(&rt)?)?;
    write_file(&rt, alloc, name, "generation", b"five\n")?;
    remove_file(&rt, alloc, name, "journal")?;
    ends!(&rt, alloc, settings.as_str(), 1, "fault 2 BadText\n")?;
    expect!(generation_of(&rt, alloc, name)? == Err(Fault::BadText))?;
    expect!(journal_of(&rt, alloc, name)?.is_none())
}

#[test]
fn files_that_are_one(rt: HostRuntime) -> Result<(), Fail> {
    let (alloc, name, file) = (rt.alloc(), "cg_serve_one", "cg_serve_one.toml");
    let (generation, journal) = ("cg_serve_one.generation", "cg_serve_one.journal");
    remove_file(&rt, alloc, name, "generation")?;
    remove_file(&rt, alloc, name, "journal")?;
    settle(&rt, alloc, name, generation, journal, free_port(&rt)?)?;
    ends!(&rt, alloc, file, 0, "")?;
    // a journal with a second name
    remove_file(&rt, alloc, name, "generation")?;
    rt.hard_link(journal, generation)?;
    ends!(&rt, alloc, file, 1, "fault 2 BadText\n")?;
    // settings with a second name
    remove_file(&rt, alloc, name, "generation")?;
    rt.hard_link(file, generation)?;
    ends!(&rt, alloc, file, 1, "fault 2 BadText\n")?;
    remove_file(&rt, alloc, name, "generation")
}

#[test]
fn a_generation_that_is_locked(rt: HostRuntime) -> Result<(), Fail> {
    let (alloc, name) = (rt.alloc(), "cg_serve_locked");
    let settings = write_settings(&rt, alloc, name, free_port(&rt)?)?;
    write_file(&rt, alloc, name, "generation", b"5\n")?;
    let lock = File::create(&rt, "cg_serve_locked.generation.lock")?;
    lock.lock()?;
    ends!(&rt, alloc, settings.as_str(), 1, "fault 14 ReadFault\n")?;
    expect!(generation_of(&rt, alloc, name)? == Ok(Some(5)))?;
    lock.unlock()?;
    ends!(&rt, alloc, settings.as_str(), 0, "")?;
    fs::remove_file(&rt, "cg_serve_locked.generation.lock")?;
    Ok(())
}

#[test]
fn a_fault_that_is_not_written(rt: HostRuntime) -> Result<(), Fail> {
    let mut none = [0u8; 5];
    let mut writer = Counted::new(none.as_mut_slice());
    let status = serve(&rt, rt.alloc(), "cg_serve_missing.toml", &mut writer);
    expect_eq!((status, writer.failed(), writer.idle()), (1, 0, 1))
}
