//! Clocks: one that fails shows its last time, one that never ran 0; whole seconds; the system's own.

use cg_testing::{expect, expect_eq};
use cg_workers::{HostClock, Milliseconds, seconds_since_1970};
use std::rt::Clock;
use std::sync::atomic::{AtomicU64, Ordering};
use std::test::Fail;
use std::time::Duration;
use std::{io, thread};

// A clock that is read at most `most` times, and goes on by half a second at each.
#[derive(Drop)]
struct ShortClock {
    readings: AtomicU64,
    most: u64,
}

impl ShortClock {
    fn new(most: u64) -> ShortClock {
        ShortClock {
            readings: AtomicU64::new(0),
            most,
        }
    }

    fn next(&self) -> io::Result<Duration> {
        let readings = self.readings.fetch_add(1, Ordering::SeqCst);
        if readings >= self.most {
            return Err(io::Error::from(io::ErrorKind::Other));
        }
        Ok(Duration::from_millis(readings.saturating_mul(500)))
    }
}

impl Clock for ShortClock {
    fn monotonic(&self) -> io::Result<Duration> {
        self.next()
    }

    fn since_1970(&self) -> io::Result<Duration> {
        self.next()
    }
}

#[test]
fn a_clock_that_fails_shows_what_it_showed_last() -> Result<(), Fail> {
    let short = ShortClock::new(4);
    let clock = HostClock::new(&short);
    let shown = [
        clock.now(),
        clock.now(),
        clock.now(),
        clock.now(),
        clock.now(),
    ];
    expect_eq!(shown, [500, 1000, 1500, 1500, 1500])
}

#[test]
fn a_clock_that_never_runs_shows_nothing() -> Result<(), Fail> {
    let short = ShortClock::new(0);
    let clock = HostClock::new(&short);
    expect_eq!([clock.now(), clock.now()], [0, 0])?;
    expect_eq!(seconds_since_1970(&short), 0)
}

#[test]
fn seconds_are_whole() -> Result<(), Fail> {
    let short = ShortClock::new(9);
    let seconds = [
        seconds_since_1970(&short),
        seconds_since_1970(&short),
        seconds_since_1970(&short),
        seconds_since_1970(&short),
    ];
    expect_eq!(seconds, [0, 0, 1, 1])
}

#[test]
fn the_system_has_clocks(rt: HostRuntime) -> Result<(), Fail> {
    let clock = HostClock::new(&rt);
    let first = clock.now();
    thread::sleep(&rt, Duration::from_millis(20));
    let next = clock.now();
    expect!(next >= first.saturating_add(20) && next < 60000)?;
    expect!(seconds_since_1970(&rt) > 1700000000)
}
