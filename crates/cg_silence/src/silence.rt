//! Settings by which silence is judged.

ghost use Rattle.std.specs.Prelude.{◌≡◌, ◌↔◌, IsOk, IsSome, IfSome};
ghost use Rattle.cg_silence.specs.Settings.{settings_or_fault};
ghost use Rattle.cg_silence.specs.Values.{IsSilence, silence_of, default_silence};

use crate::fault::SilenceFault;
use crate::limits::{
    DEFAULT_INITIAL_GAP, DEFAULT_MAX_GAP, DEFAULT_THRESHOLD, DEFAULT_WINDOW, GAP_LIMIT,
    THRESHOLD_LIMIT, WINDOW_LIMIT,
};
use cg_types::Shows;
use std::marker::Model;

/// Settings by which silence is judged. Gaps are in milliseconds, and the threshold is in thousandths of the mean gap.
#[derive(Clone, Copy, Debug, PartialEq, Eq)]
pub struct Silence {
    window: usize,
    initial_gap: u32,
    max_gap: u32,
    threshold: u32,
}

impl Model for Silence {
    ghost use Rattle.cg_silence.specs.Values.{SilenceValue, IsSilence, silence_of};

    ghost Value = { SilenceValue };

    ghost view = { λ s. silence_of s.window s.initial_gap s.max_gap s.threshold };

    ghost invariant = { λ s. IsSilence (silence_of s.window s.initial_gap s.max_gap s.threshold) };

    ghost inverse = { λ s.
        record { window = s.window; initial_gap = s.initial_gap; max_gap = s.max_gap; threshold = s.threshold } };
}

impl Shows for Silence {
    ghost use Rattle.cg_silence.specs.Values.{IsSilence};

    ghost Shown = { IsSilence };

    #[inline(always)]
    fn show(&self) {
        self.window();
    }
}

impl Silence {
    /// Makes the settings, or returns the first one that is out of its range. They are tested in this order: the window
    /// is 1 to `WINDOW_LIMIT` gaps, `max_gap` 1 to `GAP_LIMIT`, the initial gap 1 to `max_gap`, and the threshold 1 to
    /// `THRESHOLD_LIMIT`.
    pub fn try_new(
        window: usize,
        initial_gap: u32,
        max_gap: u32,
        threshold: u32,
    ) -> Result<Silence, SilenceFault>
        ensures due { result ≡ settings_or_fault (silence_of window initial_gap max_gap threshold) }
        ensures valid { IsOk result ↔ IsSilence (silence_of window initial_gap max_gap threshold) }
    {
        if window == 0 || window > WINDOW_LIMIT {
            return Err(SilenceFault::Window);
        }
        if max_gap == 0 || max_gap > GAP_LIMIT {
            return Err(SilenceFault::MaxGap);
        }
        if initial_gap == 0 || initial_gap > max_gap {
            return Err(SilenceFault::InitialGap);
        }
        if threshold == 0 || threshold > THRESHOLD_LIMIT {
            return Err(SilenceFault::Threshold);
        }
        Ok(Silence {
            window,
            initial_gap,
            max_gap,
            threshold,
        })
    }

    /// Makes the settings as `try_new` does, with `None` for each fault.
    pub fn new(window: usize, initial_gap: u32, max_gap: u32, threshold: u32) -> Option<Silence>
        ensures valid { IsSome result ↔ IsSilence (silence_of window initial_gap max_gap threshold) }
        ensures value { IfSome result (λ s. s ≡ silence_of window initial_gap max_gap threshold) }
    {
        Silence::try_new(window, initial_gap, max_gap, threshold).ok()
    }

    /// The number of gaps that a window keeps.
    pub fn window(self) -> usize
        ensures value { result ≡ self.window }
        ensures valid { IsSilence self }
    {
        self.window
    }

    /// The gap that the first arrival records, in milliseconds.
    pub fn initial_gap(self) -> u32
        ensures { result ≡ self.initial_gap }
    {
        self.initial_gap
    }

    /// The greatest gap that is recorded, in milliseconds.
    pub fn max_gap(self) -> u32
        ensures { result ≡ self.max_gap }
    {
        self.max_gap
    }

    /// The time that may pass without an arrival, in thousandths of the mean gap.
    pub fn threshold(self) -> u32
        ensures { result ≡ self.threshold }
    {
        self.threshold
    }
}

/// The defaults of `limits`.
impl Default for Silence {
    ghost is_default = { λ s. s ≡ default_silence };

    fn default() -> Silence {
        Silence {
            window: DEFAULT_WINDOW,
            initial_gap: DEFAULT_INITIAL_GAP,
            max_gap: DEFAULT_MAX_GAP,
            threshold: DEFAULT_THRESHOLD,
        }
    }
}
