//! The limit of passes.

/// The most passes that the views of a table can have.
pub const PASS_LIMIT: usize = 16;
