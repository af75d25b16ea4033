//! Measures a board: events that threads have done on a node whose table has 256 owners, beside the same events on a
//! history alone; beats of two threads that fold the board's records; and beats whose journal is written ahead, with
//! and without folds.
//!
//! With no words it does each event a hundred times and prints the number of records. With the word `time` it measures
//! each, and with the word `few` it does each twice, with a table of three.
#![tactic(auto)]

mod ahead;
mod alone;
mod boards;
mod counts;
mod inputs;

use crate::ahead::measure_ahead;
use crate::alone::measure_alone;
use crate::boards::{Workers, measure};
use crate::counts::{Counts, counts_by_word};
use crate::inputs::Work;
use anyhow::Result;
use std::alloc::Global;
use std::rt::Clock;
use std::sync::Wait;
use std::thread::Threads;

// Measures the work on a history alone, and on boards by one, two and four threads.
fn measure_all<R: Threads + Wait + Sync + Clock + Print>(
    rt: &R,
    alloc: Global,
    work: Work,
    counts: Counts,
    name: &str,
) -> Result<()> {
    measure_alone(rt, alloc, work, counts, name)?;
    for workers in [Workers::One, Workers::Two, Workers::Four] {
        measure(rt, alloc, workers, work, counts, name)?;
    }
    Ok(())
}

fn main(rt: HostRuntime) -> Result<()> {
    let counts = counts_by_word(&rt);
    let alloc = rt.alloc();
    measure_all(&rt, alloc, Work::Beat, counts, "beat")?;
    measure_all(&rt, alloc, Work::Set, counts, "set")?;
    measure(
        &rt,
        alloc,
        Workers::Two,
        Work::BeatAndFold,
        counts,
        "beat_and_fold",
    )?;
    measure_ahead(&rt, alloc, usize::MAX, counts, "ahead_beat_by_1")?;
    measure_ahead(&rt, alloc, 1_000, counts, "ahead_beat_by_1_folds")
}
