//! Vectors of scripts and journals, which are in files of their own.

use cg_links::{Counted, read_all};
use cg_sim::sim;
use cg_tool::audit_files;
use cg_types::Fault;
use std::alloc::Global;
use std::fs;
use std::rt::Files;

/// Reads the contents of a file. ReadFault if it can't be read.
pub fn contents<R: Files + Alloc<A = Global>>(rt: &R, file: &str) -> Result<Vec<u8>, Fault> {
    match fs::open(rt, file) {
        Ok(link) => read_all(rt.alloc(), &mut Counted::new(link)),
        Err(_) => Err(Fault::ReadFault),
    }
}

/// Adds a line if a job ended with another status than the expected one.
pub fn add_status(text: &mut Vec<u8>, status: u8, due: u8) -> Result<(), Fault> {
    if status != due {
        text.extend_from_slice(b"another status\n")?;
    }
    Ok(())
}

/// Returns the text that the script of a file prints, with a line more if it did not end well.
pub fn printed<R: Files + Alloc<A = Global>>(rt: &R, file: &str) -> Result<Vec<u8>, Fault> {
    let script = contents(rt, file)?;
    let mut reader = Counted::new(script.as_slice());
    let mut writer = Counted::new(Vec::new(rt.alloc()));
    let status = sim(rt.alloc(), &mut reader, &mut writer);
    let mut text = writer.into_link();
    add_status(&mut text, status, 0)?;
    Ok(text)
}

// The texts of the files that are named, parted by single spaces.
fn texts<R: Files + Alloc<A = Global>>(rt: &R, files: &str) -> Result<Vec<Vec<u8>>, Fault> {
    let mut texts = Vec::new(rt.alloc());
    for file in files.split(' ') {
        texts.push(contents(rt, file)?)?;
    }
    Ok(texts)
}

// Returns the text of an audit of these journals, with a line more if its status is not 0 for one run and 1 otherwise.
fn said(alloc: Global, journals: &[Vec<u8>]) -> Result<Vec<u8>, Fault> {
    let mut readers = Vec::new(alloc);
    for journal in journals {
        readers.push(Counted::new(journal.as_slice()))?;
    }
    let mut writer = Counted::new(Vec::new(alloc));
    let status = audit_files(alloc, &mut readers, &mut writer);
    let mut text = writer.into_link();
    let due = if text.ends_with(b"one run\n") { 0 } else { 1 };
    add_status(&mut text, status, due)?;
    Ok(text)
}

/// Returns the text of an audit of the journals in the named files.
pub fn verdict<R: Files + Alloc<A = Global>>(rt: &R, files: &str) -> Result<Vec<u8>, Fault> {
    let journals = texts(rt, files)?;
    said(rt.alloc(), &journals)
}
