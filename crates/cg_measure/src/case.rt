//! One case: a task with a name, run once for its digest, or measured.

use crate::failure::Failure;
use crate::sampling::samples;
use md5::{Digest, Md5};
use std::alloc::Global;
use std::rt::Clock;

/// The mode of cases: run once, or measured.
#[derive(Clone, Copy)]
pub enum Mode {
    Once,
    Timed,
}

/// The name of a case: the work, its subject, and a tag for the subject's shape.
#[derive(Clone, Copy)]
pub struct CaseName {
    pub work: &'static str,
    pub on: &'static str,
    pub tag: &'static str,
}

/// A task that is measured, with all that it works on.
pub trait Work {
    /// The result of one turn.
    type Made: Drop;

    /// Does the work once.
    fn turn(&self, alloc: Global) -> Result<Self::Made, Failure>;

    /// Adds the result of a turn to a digest.
    fn add(alloc: Global, digest: &mut Md5, made: &Self::Made) -> Result<(), Failure>;
}

// Computes the MD5 of a turn's result, in hexadecimal digits.
fn digest_of<W: Work>(alloc: Global, work: &W) -> Result<String, Failure> {
    let made = work.turn(alloc)?;
    let mut digest = Md5::new();
    W::add(alloc, &mut digest, &made)?;
    Ok(hex::encode(alloc, &digest.finalize())?)
}

fn print_digest(rt: &impl Print, name: CaseName, digest: &str) -> Result<(), Failure> {
    let CaseName { work, on, tag } = name;
    println!(rt; "case ours_{work}_{on}_{tag} {digest}")?;
    Ok(())
}

// Prints the middle and the least of sorted samples, which are tenths of nanoseconds.
fn print_times(rt: &impl Print, name: CaseName, samples: &[u128]) -> Result<(), Failure> {
    let CaseName { work, on, tag } = name;
    let middle = samples.get(samples.len() / 2).copied().unwrap_or(0);
    let least = samples.first().copied().unwrap_or(0);
    println!(rt;
        "bench ours_{work}_{on}_{tag} ns_per_op {}.{} least {}.{}",
        middle / 10,
        middle % 10,
        least / 10,
        least % 10,
    )?;
    Ok(())
}

fn run_case<W: Work>(
    rt: &(impl Clock + Print),
    alloc: Global,
    mode: Mode,
    name: CaseName,
    work: &W,
) -> Result<(), Failure> {
    match mode {
        Mode::Once => print_digest(rt, name, &digest_of(alloc, work)?),
        Mode::Timed => print_times(rt, name, &samples(rt, alloc, work)?),
    }
}

/// Runs or measures each case, and prints a line for it.
///
/// The line is `case NAME DIGEST` of the work's result, or, measured, `bench NAME ns_per_op N least L`: the middle and
/// the least of nine samples.
pub fn run_cases<W: Work>(
    rt: &(impl Clock + Print),
    alloc: Global,
    mode: Mode,
    cases: &[(CaseName, W)],
) -> Result<(), Failure> {
    for (name, work) in cases {
        run_case(rt, alloc, mode, *name, work)?;
    }
    Ok(())
}
