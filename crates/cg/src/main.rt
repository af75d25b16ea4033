//! The program `cg`: `answer`, `sim`, `audit`, `serve` and `agent`.
#![tactic(auto)]

use cg_agent::agent;
use cg_links::Counted;
use cg_serve::serve;
use cg_tool::{Ending, run};
use std::io;
use std::process::ExitCode;

/// Runs the job that the words of the command line name.
fn main(rt: HostRuntime) -> ExitCode {
    ExitCode::from(match run(&rt) {
        Ending::Status(status) => status,
        Ending::Serve(file) => {
            let mut writer = Counted::new(io::writer(&rt));
            serve(&rt, rt.alloc(), file.as_str(), &mut writer)
        }
        Ending::Agent(file) => agent(&rt, rt.alloc(), file.as_str()),
    })
}
