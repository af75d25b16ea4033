//! Limits and defaults of the settings of a node that serves.

/// The most rounds that a node begins, and the most exchanges that it takes.
pub const TURN_LIMIT: u32 = 1000000;

/// The longest interval between two rounds, in milliseconds: a minute.
pub const INTERVAL_LIMIT: u32 = 60000;

/// The interval between two rounds, in milliseconds, if nothing else is set.
pub const DEFAULT_INTERVAL: u32 = 1000;

/// The seed of the random words, if nothing else is set.
pub const DEFAULT_RANDOM: u64 = 0;

/// The most MiB of journal that a life writes, and the most records that stay in memory.
pub const LOAD_LIMIT: u32 = 1000000;

/// The MiB of journal that a life writes, if nothing else is set.
pub const DEFAULT_JOURNAL_MB: u32 = 1024;

/// The records that stay in memory, if nothing else is set.
pub const DEFAULT_KEEP: u32 = 1000;

/// The most threads that answer connections.
pub const RECEIVER_LIMIT: u32 = 8;

/// The threads that answer connections, if nothing else is set.
pub const DEFAULT_RECEIVERS: u32 = 2;
