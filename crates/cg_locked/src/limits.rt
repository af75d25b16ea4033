//! The limit of seats.

/// The most seats that a board can have.
pub const SEAT_LIMIT: usize = 16;
