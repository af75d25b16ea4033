//! Limits of what stays in memory.

/// The greatest weight of published records that stay in memory: 4 MiB of messages, each byte as two of a journal.
pub const WEIGHT_LIMIT: u64 = 8_388_608;

/// The weight of each member that the message of a reply names: 64 bytes.
pub const MEMBER_WEIGHT: u64 = 128;

/// The number of records past those to be kept at which they are folded.
pub const FOLD_LENGTH: usize = 64;
