//! The callers of the workers, and the number of workers.

/// The number by which records and receipts name the receiver.
pub const RECEIVER: u32 = 1;

/// The number by which records and receipts name the sender.
pub const SENDER: u32 = 2;

/// The number by which records and receipts name the ticker.
pub const TICKER: u32 = 3;

/// The number by which records and receipts name the operator.
pub const OPERATOR: u32 = 4;

/// The number of workers.
pub const WORKERS: usize = 4;
