//! The limits of this version, and the keys that it reads, each in one place.

/// The most endpoints in a table, and the most members of a list in a message.
pub const MEMBER_LIMIT: usize = 512;

/// The most bytes of a state's text.
pub const TEXT_LIMIT: usize = 4096;

/// The most bytes of a cluster's name.
pub const NAME_LIMIT: usize = 48;

/// The greatest state key; the least is 1.
pub const STATE_LIMIT: u8 = 16;

/// The key of an endpoint's status.
pub const STATUS_KEY: u8 = 1;

/// The key of an endpoint's tokens.
pub const TOKENS_KEY: u8 = 2;

/// The limit of generations and versions: each is below it.
pub const NUMBER_LIMIT: u32 = 2147483648;

/// The only partitioner in use: MD5 tokens, as Cassandra's RandomPartitioner has them.
pub const PARTITIONER: u8 = 1;
