//! The same events on a history that nobody shares.

use crate::counts::{Counts, print_line};
use crate::inputs::{Work, event, filling, new_history};
use anyhow::Result;
use cg_history::History;
use std::alloc::Global;
use std::rt::Clock;
use std::time::Instant;

fn apply_all(alloc: Global, history: &mut History, work: Work, counts: Counts) -> Result<()> {
    for _ in 0..counts.events {
        let event = event(alloc, work, counts)?;
        history.apply(alloc, 1, event)?;
    }
    Ok(())
}

/// Measures the work on a history of its own.
pub(crate) fn measure_alone(
    rt: &(impl Clock + Print),
    alloc: Global,
    work: Work,
    counts: Counts,
    name: &str,
) -> Result<()> {
    let mut history = new_history(alloc)?;
    history.apply(alloc, 1, filling(alloc, counts)?)?;
    let start = Instant::now(rt)?;
    apply_all(alloc, &mut history, work, counts)?;
    let label = format!(in alloc; "apply_{name}")?;
    print_line(
        rt,
        label.as_str(),
        counts,
        history.records().len() as u64,
        start,
    )
}
