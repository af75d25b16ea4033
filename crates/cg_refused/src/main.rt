//! Calls that take memory, each beside a twin, so that a request for memory can be refused from outside and each answer
//! and object compared.
//!
//! With no word it does each case and prints its name and answer. With the name of a case it does that one alone. If a
//! request of its call is refused, the line has `refused` in place of the answer, or `kept` where a part of the change may
//! stand. An outcome that is none of these is printed with the texts that differ, with status 3. A refusal before the
//! call ends it with the line of the fault and status 1, and a word that is no case's name with status 2.
#![tactic(auto)]

mod answers;
mod boards;
mod cases;
mod histories;
mod nodes;
mod operators;
mod samples;
mod texts;
mod trials;
mod views;
mod worlds;

use crate::cases::{CASES, Case};
use crate::trials::Outcome;
use cg_types::Fault;
use std::alloc::Global;
use std::env::{Env, FillError};
use std::process::ExitCode;
use std::sync::Wait;

/// The statuses of a fault before the call, of a word that is no name, and of an outcome that may not be.
const FAULTY: u8 = 1;

const MISUSED: u8 = 2;

const DIFFERENT: u8 = 3;

// The room for a name: the longest has 22 bytes.
const WORD: usize = 32;

// Prints what a case came to, and returns the status.
fn print_outcome(rt: &impl Print, name: &str, outcome: Result<Outcome, Fault>) -> u8 {
    match outcome {
        Ok(Outcome::Answered(answer)) => {
            let _ = println!(rt; "{name}: {answer}");
            0
        }
        Ok(Outcome::Refused) => {
            let _ = println!(rt; "{name}: refused");
            0
        }
        Ok(Outcome::Kept) => {
            let _ = println!(rt; "{name}: kept");
            0
        }
        Ok(Outcome::Third { due, seen }) => {
            let _ = println!(rt; "{name}: third outcome\n-- due\n{due}\n-- seen\n{seen}");
            DIFFERENT
        }
        Err(fault) => {
            let _ = println!(rt; "fault {fault}");
            FAULTY
        }
    }
}

// Does a case, and returns the status.
fn show<R: Print + Wait>(rt: &R, alloc: Global, name: &str, case: Case) -> u8 {
    print_outcome(rt, name, case.outcome(rt, alloc))
}

// Does all cases, and returns the greatest status.
fn show_all<R: Print + Wait>(rt: &R, alloc: Global) -> u8 {
    let mut status = 0;
    for (name, case) in CASES {
        status = show(rt, alloc, name, case).max(status);
    }
    status
}

// Does the case of this name.
fn show_named<R: Print + Wait>(rt: &R, alloc: Global, word: &[u8]) -> u8 {
    for (name, case) in CASES {
        if name.as_bytes() == word {
            return show(rt, alloc, name, case);
        }
    }
    MISUSED
}

fn run<R: Print + Wait + Env>(rt: &R, alloc: Global) -> u8 {
    let mut word = [0u8; WORD];
    match rt.arg(1, &mut word) {
        Ok(length) => show_named(rt, alloc, &word[..length]),
        Err(FillError::TooLong) => MISUSED,
        Err(_) => show_all(rt, alloc),
    }
}

fn main(rt: HostRuntime) -> ExitCode {
    ExitCode::from(run(&rt, rt.alloc()))
}
