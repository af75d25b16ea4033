//! The limits of the settings, and their defaults.

/// The most gaps in a window.
pub const WINDOW_LIMIT: usize = 1000;

/// The greatest gap that can be recorded, in milliseconds: a day.
pub const GAP_LIMIT: u32 = 86400000;

/// The greatest threshold.
pub const THRESHOLD_LIMIT: u32 = 1000000000;

/// The threshold of one mean gap.
pub const THRESHOLD_UNIT: u32 = 1000;

/// The default number of gaps in a window.
pub const DEFAULT_WINDOW: usize = 1000;

/// The default of the initial gap, in milliseconds.
pub const DEFAULT_INITIAL_GAP: u32 = 2000;

/// The default of the greatest gap that is recorded, in milliseconds.
pub const DEFAULT_MAX_GAP: u32 = 60000;

/// The default threshold: phi 8 of Cassandra's detector is 8 ln 10 mean gaps.
pub const DEFAULT_THRESHOLD: u32 = 18421;
