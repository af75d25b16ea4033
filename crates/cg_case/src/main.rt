//! The program `cg` for stored runs: of help, the version, words that can't be read, `audit` over files, and a script.
//!
//! It runs the job of each of a few lines of words, after a line that shows them and before one with the status. Then
//! it runs the job of its own words, and ends with its status. It serves no node. Output on standard error is not among
//! what it prints.
#![tactic(auto)]

use cg_tool::show_run;
use std::process::ExitCode;

/// Runs the jobs of the lines, and then that of the words.
fn main(rt: HostRuntime) -> ExitCode {
    let lines = [
        "cg --help",
        "cg sim --help",
        "cg answer --help",
        "cg serve --help",
        "cg agent --help",
        "cg --version",
        "cg sim x",
        "cg answer x",
        "cg audit a.journal b_without_syn.journal",
        "cg audit b6.journal b.journal",
        "cg audit a.journal cut.journal",
        "cg audit --cut a.journal cut.journal",
        "cg audit --cut torn_a.journal torn_b.journal torn_c.journal",
        "cg audit a.journal missing.journal",
        "cg audit --cut a.journal missing.journal",
        "cg audit a.journal b.journal",
        "cg sim",
    ];
    ExitCode::from(show_run(&rt, &lines))
}
