//! Vectors of silences: arrivals, and the verdict on their endpoint at a time.

use crate::words::{number_in, place_of, words_in};
use cg_silence::{SharedWindow, Silence, Verdict, Window};
use cg_types::Fault;
use std::alloc::Global;

// A setting.
fn setting_in(word: &str) -> Result<u32, Fault> {
    Ok(number_in(word, u64::from(u32::MAX))? as u32)
}

// The settings of four words: the window, the initial and the greatest gap, the threshold.
fn silence_in(words: &[&str]) -> Result<Silence, Fault> {
    if words.len() != 4 {
        return Err(Fault::BadText);
    }
    let window = setting_in(words[0])?;
    let initial_gap = setting_in(words[1])?;
    let max_gap = setting_in(words[2])?;
    let threshold = setting_in(words[3])?;
    match Silence::new(window as usize, initial_gap, max_gap, threshold) {
        Some(silence) => Ok(silence),
        None => Err(Fault::BadText),
    }
}

// A window after these arrivals.
fn window_of(alloc: Global, silence: Silence, arrivals: &[&str]) -> Result<Window, Fault> {
    let mut window = Window::new(alloc, silence)?;
    for arrival in arrivals {
        window.arrived(number_in(arrival, u64::MAX)?);
    }
    Ok(window)
}

// The window that is shared, after these arrivals.
fn shared_of(alloc: Global, silence: Silence, arrivals: &[&str]) -> Result<SharedWindow, Fault> {
    let mut window = SharedWindow::new(alloc, silence)?;
    for arrival in arrivals {
        window.arrived(alloc, number_in(arrival, u64::MAX)?)?;
    }
    Ok(window)
}

// The name of a verdict on which both windows agree.
fn agreed(window: Verdict, shared: Verdict) -> Result<&'static str, Fault> {
    if window != shared {
        return Err(Fault::Stuck);
    }
    Ok(window.name())
}

/// Returns the verdict on four settings and arrivals, at the time after `at`.
pub fn verdict_text(alloc: Global, given: &str) -> Result<String, Fault> {
    let words = words_in(alloc, given)?;
    let Some(place) = place_of(&words, "at") else {
        return Err(Fault::BadText);
    };
    if place < 4 || words.len() - place != 2 {
        return Err(Fault::BadText);
    }
    let silence = silence_in(&words[..4])?;
    let window = window_of(alloc, silence, &words[4..place])?;
    let shared = shared_of(alloc, silence, &words[4..place])?;
    let now = number_in(words[place + 1], u64::MAX)?;
    Ok(agreed(window.verdict(now), shared.verdict(now))?.to_string(alloc)?)
}
