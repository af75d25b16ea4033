//! Waiting for another thread, with an end.

use std::rt::Clock;
use std::sync::atomic::{AtomicBool, Ordering};
use std::thread;
use std::time::Duration;

// The most milliseconds that anything is waited for.
pub(crate) const TURNS: u32 = 10_000;

// Sleeps for a millisecond.
pub(crate) fn pause<R: Clock>(rt: &R) {
    thread::sleep(rt, Duration::from_millis(1));
}

// Waits for a flag; returns `true` if it was raised before the turns were over.
pub(crate) fn is_raised<R: Clock>(rt: &R, flag: &AtomicBool) -> bool {
    for _ in 0..TURNS {
        if flag.load(Ordering::SeqCst) {
            return true;
        }
        pause(rt);
    }
    false
}
