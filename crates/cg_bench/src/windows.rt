//! Windows of silence: their arrivals, and their verdicts.

use cg_silence::{Silence, Verdict, Window};
use std::alloc::{AllocError, Global};
use std::hint::black_box;

/// Returns the settings of a window of a thousand gaps.
pub(crate) fn silence() -> Option<Silence> {
    Silence::new(1000, 2000, 60000, 18421)
}

/// Returns a window that has heard two thousand arrivals, a second apart.
pub(crate) fn heard(alloc: Global, silence: Silence) -> Result<Window, AllocError> {
    let mut window = Window::new(alloc, silence)?;
    for arrival in 0..2000u64 {
        window.arrived(black_box(arrival * 1000));
    }
    Ok(window)
}

/// Returns the verdict of a new window, a second after the last of its arrivals.
pub(crate) fn last_verdict(alloc: Global, silence: Silence) -> Result<Verdict, AllocError> {
    Ok(heard(alloc, silence)?.verdict(2_000_000))
}

// Returns the time of the next verdict, in milliseconds. It depends on the last verdict, so no verdict can be left out.
fn next(now: u64, verdict: Verdict) -> u64 {
    match verdict {
        Verdict::Silent => now.wrapping_add(10),
        Verdict::Alive | Verdict::Unheard => now.wrapping_add(20),
    }
}

/// Returns the last of a thousand verdicts.
pub(crate) fn verdicts(window: &Window) -> Verdict {
    let mut now = 2_000_000;
    let mut last = Verdict::Unheard;
    for _ in 0..1000 {
        last = window.verdict(now);
        now = next(now, last);
    }
    last
}
