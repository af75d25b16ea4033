//! Lines on standard error about connections.

use crate::limits::LINE_PAUSE;
use std::rt::Clock;
use std::time::{Duration, Instant};

/// The lines that are printed about connections, one a second at most.
#[derive(Drop)]
pub(crate) struct Lines {
    // when the last one was printed
    last: Option<Instant>,
    // `true` if none is printed ever
    is_silent: bool,
}

impl Lines {
    /// Begins with no line.
    pub(crate) fn new() -> Lines {
        Lines {
            last: None,
            is_silent: false,
        }
    }

    /// Prints no line ever.
    pub(crate) fn silent() -> Lines {
        Lines {
            last: None,
            is_silent: true,
        }
    }

    // Tests whether the last line is as old as it has to be before the next one.
    fn is_due(&self, now: Instant) -> bool {
        match self.last {
            Some(last) => {
                let pause = Duration::from_millis(u64::from(LINE_PAUSE));
                now.saturating_duration_since(last) >= pause
            }
            None => true,
        }
    }

    /// Tests whether a line may be printed now, and takes it as printed if so. None may if the clock can't be read.
    pub(crate) fn may_print<R: Clock>(&mut self, rt: &R) -> bool {
        if self.is_silent {
            return false;
        }
        let Ok(now) = Instant::now(rt) else {
            return false;
        };
        let is_due = self.is_due(now);
        if is_due {
            self.last = Some(now);
        }
        is_due
    }
}
