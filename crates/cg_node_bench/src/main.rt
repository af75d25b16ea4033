//! Measures the work of a node: its steps, exchanges over links, histories and scripts.
//!
//! With no words it runs each case once and prints a digest of its results, which no clock and no machine changes. With
//! the word `time` it measures each. With the word `keep` and a number it makes that number of records of heartbeats at
//! a whole table. It keeps them to its end, so that their memory can be measured from outside. With the word `fold` it
//! does the same, and folds all but the last hundred whenever a thousand and one hundred are kept. With the word `hold`
//! it makes a table of so many endpoints whose states came each in a message of its own. With the word `runs` it has
//! `World::run` do three starts, and prints how many nodes run then, or that there is no world.
#![tactic(auto)]

mod cases;
mod claims;
mod histories;
mod links;
mod nodes;
mod pieces;
mod runs;
mod scripts;
mod work;

use crate::cases::{ALL, LARGEST};
use crate::histories::{counts, kept};
use crate::pieces::in_pieces;
use crate::runs::print_run;
use crate::work::case_of;
use cg_measure::{Failure, is_first_word, mode_of, run_cases};
use std::alloc::Global;
use std::env::Env;

// The number that these bytes spell, or 0 if it is none.
fn number_of(digits: &[u8]) -> u32 {
    match std::str::from_utf8(digits) {
        Ok(text) => text.parse().unwrap_or(0),
        Err(_) => 0,
    }
}

// The number in the second word, or 0 if it is none.
fn second_number(rt: &impl Env) -> u32 {
    let mut word = [0u8; 8];
    match rt.arg(2, &mut word) {
        Ok(size) => number_of(word.get(..size).unwrap_or(b"")),
        Err(_) => 0,
    }
}

// Makes `count` records, folds them whenever `full` are kept, and prints how many are folded and how many are kept.
fn keep(rt: &impl Print, alloc: Global, count: u32, full: usize) -> Result<(), Failure> {
    let history = kept(alloc, LARGEST, count, full)?;
    let (gone, left) = counts(&history);
    println!(rt; "{gone} records folded, {left} kept")?;
    Ok(())
}

// Makes the table of so many endpoints, and prints how many it has.
fn hold(rt: &impl Print, alloc: Global, count: u32) -> Result<(), Failure> {
    let table = in_pieces(alloc, count.min(512) as u16)?;
    println!(rt; "{} endpoints", table.owners().len())?;
    Ok(())
}

fn main(rt: HostRuntime) -> Result<(), Failure> {
    if is_first_word(&rt, *b"keep") {
        return keep(&rt, rt.alloc(), second_number(&rt), usize::MAX);
    }
    if is_first_word(&rt, *b"fold") {
        return keep(&rt, rt.alloc(), second_number(&rt), 1100);
    }
    if is_first_word(&rt, *b"hold") {
        return hold(&rt, rt.alloc(), second_number(&rt));
    }
    if is_first_word(&rt, *b"runs") {
        return print_run(&rt, rt.alloc());
    }
    let mode = mode_of(&rt);
    for case in ALL {
        run_cases(&rt, rt.alloc(), mode, &[case_of(rt.alloc(), case)?])?;
    }
    Ok(())
}
