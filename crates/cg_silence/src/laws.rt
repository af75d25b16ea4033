//! The limits and defaults of silence, as numbers.

ghost use Rattle.cg_silence.specs.Laws.{LimitsAreThese};

/// `WINDOW_LIMIT` is 1,000, `GAP_LIMIT` 86,400,000, `THRESHOLD_LIMIT` 1,000,000,000 and `THRESHOLD_UNIT` 1,000.
///
/// The default settings are a window of 1,000 gaps, an initial gap of 2,000 and a greatest gap of 60,000 milliseconds,
/// and a threshold of 18,421.
pub fn limits_are_these()
    ensures { LimitsAreThese }
{}
