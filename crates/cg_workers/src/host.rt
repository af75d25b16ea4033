//! The clocks of the system that a program runs on.

ghost use Rattle.std.specs.Prelude.{◌≡◌, ◌-◌, ◌/◌, ◌^◌, min};
ghost use Rattle.std.specs.Duration.{as_nanos};

use crate::clock::Milliseconds;
use std::rt::Clock;
use std::sync::atomic::{AtomicU64, Ordering};
use std::time::{Duration, Instant, SystemTime};

/// The system's clock, in milliseconds since this value was made. If the clock can't be read, it shows its last time, 0
/// at first.
#[derive(Drop)]
pub struct HostClock<'a, R: Clock> {
    rt: &'a R,
    began: Option<Instant>,
    last: AtomicU64,
}

// Returns the whole milliseconds, at most 2^64 - 1.
fn milliseconds_of(duration: Duration) -> u64
    ensures { result ≡ min (as_nanos duration / 1000000) (2 ^ 64 - 1) }
{
    match u64::try_from(duration.as_millis()) {
        Ok(milliseconds) => milliseconds,
        Err(_) => u64::MAX,
    }
}

impl<'a, R: Clock> HostClock<'a, R> {
    /// Makes a clock that begins now.
    pub fn new(rt: &'a R) -> HostClock<'a, R> {
        HostClock {
            rt,
            began: Instant::now(rt).ok(),
            last: AtomicU64::new(0),
        }
    }

    // Returns the time since the clock was made, if it can be read.
    fn elapsed(&self) -> Option<Duration> {
        let began = self.began?;
        began.elapsed(self.rt).ok()
    }
}

impl<'a, R: Clock> Milliseconds for HostClock<'a, R> {
    fn now(&self) -> u64 {
        match self.elapsed() {
            Some(elapsed) => {
                let now = milliseconds_of(elapsed);
                self.last.store(now, Ordering::SeqCst);
                now
            }
            None => self.last.load(Ordering::SeqCst),
        }
    }
}

/// Returns the whole seconds since 1970 by the system's clock; 0 if it can't be read or shows a time before.
pub fn seconds_since_1970<R: Clock>(rt: &R) -> u64 {
    let Ok(now) = SystemTime::now(rt) else {
        return 0;
    };
    match now.duration_since(SystemTime::UNIX_EPOCH) {
        Ok(since) => since.as_secs(),
        Err(_) => 0,
    }
}
