//! Rounds of a fleet in which nothing changes but heartbeats, measured.

use crate::spread::spread_of;
use anyhow::Result;
use cg_fleet::{Chance, Fleet};
use rand_core::Rng;
use std::alloc::Global;
use std::rt::Clock;
use std::time::Instant;

// The rounds before those that are measured.
const FIRST: u32 = 10;

// The rounds that are measured.
const MEASURED: u64 = 20;

/// The bytes and the nanoseconds of one node's round.
#[derive(Clone, Copy)]
pub(crate) struct Quiet {
    /// The bytes that a node sends, on average.
    pub bytes: u64,
    /// The bytes of the node that sends most.
    pub busiest: u64,
    /// The median of the nanoseconds.
    pub median: u64,
    /// The least nanoseconds.
    pub least: u64,
}

// The nanoseconds that a round takes, for each node.
fn timed<G: Rng + Drop>(
    rt: &impl Clock,
    alloc: Global,
    chance: &mut Chance<G>,
    fleet: &mut Fleet,
) -> Result<u64> {
    let start = Instant::now(rt)?;
    fleet.round(alloc, chance)?;
    let spent = u64::try_from(start.elapsed(rt)?.as_nanos()).unwrap_or(u64::MAX);
    Ok(spent.checked_div(fleet.nodes().len() as u64).unwrap_or(0))
}

fn sum(numbers: &[u64]) -> u64 {
    let mut sum = 0u64;
    for number in numbers {
        sum = sum.saturating_add(*number);
    }
    sum
}

fn greatest(numbers: &[u64]) -> u64 {
    let mut greatest = 0;
    for number in numbers {
        greatest = greatest.max(*number);
    }
    greatest
}

// The same fleet after some rounds, which has sent nothing yet.
fn warm<G: Rng + Drop>(alloc: Global, chance: &mut Chance<G>, fleet: &mut Fleet) -> Result<Fleet> {
    for _ in 0..FIRST {
        fleet.round(alloc, chance)?;
    }
    Ok(fleet.copy(alloc)?)
}

/// Has a fleet do some rounds, and then measures more.
pub(crate) fn measured<G: Rng + Drop>(
    rt: &impl Clock,
    alloc: Global,
    chance: &mut Chance<G>,
    fleet: &mut Fleet,
) -> Result<Quiet> {
    *fleet = warm(alloc, chance, fleet)?;
    let mut times = Vec::new(alloc);
    for _ in 0..MEASURED {
        times.push(timed(rt, alloc, chance, fleet)?)?;
    }
    let median = spread_of(&mut times).median;
    let rounds = MEASURED.saturating_mul(fleet.nodes().len() as u64);
    Ok(Quiet {
        bytes: sum(fleet.sent()).checked_div(rounds).unwrap_or(0),
        busiest: greatest(fleet.sent()) / MEASURED,
        median,
        least: times.first().copied().unwrap_or(0),
    })
}
