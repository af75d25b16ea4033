//! Limits of a node that runs until it is stopped.

/// The bytes of a MiB.
pub const MEBIBYTE: u64 = 1_048_576;

/// The most bytes of an operator's line, with its line feed.
pub const LINE_MOST: u64 = 8192;

/// The most milliseconds for which a worker sleeps, or waits for standard input, before it asks whether the node is to
/// end.
pub const NAP: u64 = 200;

/// The fewest milliseconds between two syncs of the journal, and between two lines about broken exchanges.
pub const PAUSE: u64 = 1000;

/// The threads that answer requests over HTTP, if it is served.
pub const WEB_LIMIT: usize = 2;

/// The milliseconds that a connection over HTTP has.
pub const WEB_TIME: u32 = 1000;
