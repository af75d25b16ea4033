//! Samples of the time that a task takes.

use crate::case::Work;
use crate::failure::Failure;
use std::alloc::Global;
use std::hint::black_box;
use std::rt::Clock;
use std::time::Instant;

const SAMPLES: usize = 9;

// The nanoseconds of a sample.
const SAMPLE: u128 = 15_000_000;

// A number of turns that no sample reaches.
const MOST_TURNS: u64 = 1 << 40;

// Does one turn, and keeps nothing of it.
fn pass<W: Work>(alloc: Global, work: &W) -> Result<(), Failure> {
    black_box(work.turn(alloc)?);
    Ok(())
}

// Finds the number of turns that make a sample.
fn turns_of_a_sample<W: Work>(clock: &impl Clock, alloc: Global, work: &W) -> Result<u64, Failure> {
    let start = Instant::now(clock)?;
    for count in 1..MOST_TURNS {
        pass(alloc, work)?;
        if start.elapsed(clock)?.as_nanos() >= SAMPLE {
            return Ok(count);
        }
    }
    Ok(MOST_TURNS)
}

// Measures the tenths of a nanosecond that each of this number of turns takes.
fn sample<W: Work>(
    clock: &impl Clock,
    alloc: Global,
    turns: u64,
    work: &W,
) -> Result<u128, Failure> {
    let start = Instant::now(clock)?;
    for _ in 0..turns {
        pass(alloc, work)?;
    }
    let tenths = start.elapsed(clock)?.as_nanos().saturating_mul(10);
    Ok(tenths.checked_div(u128::from(turns)).unwrap_or(0))
}

/// Takes nine samples, sorted: tenths of a nanosecond a turn.
pub(crate) fn samples<W: Work>(
    clock: &impl Clock,
    alloc: Global,
    work: &W,
) -> Result<Vec<u128>, Failure> {
    let turns = turns_of_a_sample(clock, alloc, work)?;
    let mut samples = Vec::with_capacity(alloc, SAMPLES)?;
    for _ in 0..SAMPLES {
        samples.push(sample(clock, alloc, turns, work)?)?;
    }
    samples.sort_unstable();
    Ok(samples)
}
