//! The amounts of work, and the lines printed of it.

use anyhow::Result;
use std::env::Env;
use std::rt::Clock;
use std::time::Instant;

/// The amounts of work: owners of the table, states of each, bytes of a state's text, and events; and whether times are
/// printed.
#[derive(Clone, Copy)]
pub(crate) struct Counts {
    pub(crate) owners: u16,
    pub(crate) states: u8,
    pub(crate) text: usize,
    pub(crate) events: u32,
    is_timed: bool,
}

const TIMED: Counts = Counts {
    owners: 256,
    states: 16,
    text: 1024,
    events: 20_000,
    is_timed: true,
};

const FEW: Counts = Counts {
    owners: 3,
    states: 1,
    text: 4,
    events: 2,
    is_timed: false,
};

const SOME: Counts = Counts {
    owners: 256,
    states: 16,
    text: 64,
    events: 100,
    is_timed: false,
};

/// Reads the counts that the first word after the program's name selects.
pub(crate) fn counts_by_word(rt: &impl Env) -> Counts {
    let mut word = [0u8; 4];
    match rt.arg(1, &mut word) {
        Ok(4) if word == *b"time" => TIMED,
        Ok(3) if word == *b"few\0" => FEW,
        _ => SOME,
    }
}

/// Prints the number of records, or the nanoseconds that each of them took.
pub(crate) fn print_line(
    rt: &(impl Clock + Print),
    name: &str,
    counts: Counts,
    records: u64,
    start: Instant,
) -> Result<()> {
    if counts.is_timed {
        let each = start
            .elapsed(rt)?
            .as_nanos()
            .checked_div(u128::from(records))
            .unwrap_or(0);
        println!(rt; "bench {name} ns_per_op {each}")?;
    } else {
        println!(rt; "case {name} {records}")?;
    }
    Ok(())
}
