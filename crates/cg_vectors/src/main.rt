//! Runs the conformance vectors of the folder `data`, with which any implementation can be tested (docs/VECTORS.md).
//!
//! For each vector that does not hold it prints a line: its file, the number of its line and the text found instead of
//! the expected one. For each file it prints the number of vectors that hold, and of all. The status is 1 unless all
//! hold.
#![tactic(auto)]

mod checking;
mod files;
mod frames;
mod keys;
mod messages;
mod requests;
mod rings;
mod silences;
mod subject;
mod vector;
mod words;

use crate::checking::{Tally, check_lines, lines_in};
use crate::files::contents;
use crate::subject::Subject;
use cg_types::Fault;
use std::alloc::Global;
use std::process::ExitCode;
use std::rt::Files;

// Each file of vectors.
const FILES: [(&str, Subject); 7] = [
    ("frames.txt", Subject::Frames),
    ("keys.txt", Subject::Keys),
    ("rings.txt", Subject::Rings),
    ("silences.txt", Subject::Silences),
    ("answers.txt", Subject::Answers),
    ("scripts.txt", Subject::Scripts),
    ("journals.txt", Subject::Journals),
];

// Runs the vectors of a file, and prints the number of those that hold.
fn check_file<R: Files + Print + Alloc<A = Global>>(
    rt: &R,
    file: &str,
    subject: Subject,
) -> Result<Tally, Fault> {
    let bytes = contents(rt, file)?;
    let Ok(text) = std::str::from_utf8(&bytes) else {
        return Err(Fault::BadText);
    };
    let lines = lines_in(rt.alloc(), text)?;
    let tally = check_lines(rt, file, subject, &lines);
    let Tally { held, all } = tally;
    let _ = println!(rt; "{file}: {held} of {all}");
    Ok(tally)
}

// Tests whether each vector of a file holds.
fn file_holds<R: Files + Print + Alloc<A = Global>>(rt: &R, file: &str, subject: Subject) -> bool {
    match check_file(rt, file, subject) {
        Ok(tally) => tally.held == tally.all,
        Err(fault) => {
            let _ = println!(rt; "{file}: fault {fault}");
            false
        }
    }
}

/// Runs each file of vectors.
fn main(rt: HostRuntime) -> ExitCode {
    let mut held = true;
    for (file, subject) in FILES {
        held &= file_holds(&rt, file, subject);
    }
    ExitCode::from(if held { 0 } else { 1 })
}
