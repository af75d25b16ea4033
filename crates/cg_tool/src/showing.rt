//! Runs of the program that are printed, for stored runs.

use crate::running::{Ending, MISUSED, run, run_words};
use std::alloc::Global;
use std::io;
use std::rt::Runtime;

// The words of a line, which single spaces separate.
fn words_in(alloc: Global, line: &str) -> io::Result<Vec<String>> {
    let mut words = Vec::new(alloc);
    for word in line.split(' ') {
        words.push(word.to_string(alloc)?)?;
    }
    Ok(words)
}

// The status of a run. No node is served here.
fn status_of(ending: Ending) -> u8 {
    match ending {
        Ending::Status(status) => status,
        Ending::Serve(_) | Ending::Agent(_) => MISUSED,
    }
}

// Runs the job of a line of words.
fn show<R: Runtime>(rt: &R, alloc: Global, line: &str) {
    let _ = println!(rt; "> {line}");
    let status = status_of(run_words(rt, alloc, words_in(alloc, line)));
    let _ = println!(rt; "< {status}");
}

/// Runs the job of each line of words, after a line that shows them and before one with the status. Then it runs the
/// job of the command line's words, and returns its status. If words ask for a node, none runs, and the status is 2.
pub fn show_run<R: Runtime + AllocGlobal>(rt: &R, lines: &[&str]) -> u8 {
    for line in lines {
        show(rt, rt.alloc(), line);
    }
    status_of(run(rt))
}
