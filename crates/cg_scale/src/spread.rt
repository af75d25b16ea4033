//! Numbers of rounds: the median, the 99th of a hundred, and the greatest.

use std::fmt;

/// Three places of a sorted list of numbers.
#[derive(Clone, Copy, Debug, PartialEq, Eq)]
pub(crate) struct Spread {
    pub median: u64,
    pub most: u64,
    pub greatest: u64,
}

// The number at which so many of a hundred of a sorted list are no greater, or 0 of an empty one.
fn at_percent(sorted: &[u64], percent: usize) -> u64 {
    let count = (sorted.len().saturating_mul(percent)).div_ceil(100);
    sorted.get(count.saturating_sub(1)).copied().unwrap_or(0)
}

/// The places of a list of numbers, which it sorts.
pub(crate) fn spread_of(numbers: &mut [u64]) -> Spread {
    numbers.sort_unstable();
    Spread {
        median: at_percent(numbers, 50),
        most: at_percent(numbers, 99),
        greatest: at_percent(numbers, 100),
    }
}

impl fmt::Display for Spread {
    fn fmt<W: fmt::Write>(&self, f: &mut fmt::Formatter<W>) -> fmt::Result {
        let Spread {
            median,
            most,
            greatest,
        } = *self;
        write!(f, "median {median}, 99th {most}, greatest {greatest}")
    }
}
