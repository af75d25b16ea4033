//! Limits of connections: the time that they may last, and the number of tries.

ghost use Rattle.std.specs.Prelude.{◌≡◌, ◌/◌, min, max};

/// The most milliseconds that an exchange lasts if another side began it.
pub const RESPOND_LIMIT: u32 = 2000;

/// The fewest milliseconds of an exchange, with dialing if this side began it, and of the wait for its first byte.
pub const LEAST_LIMIT: u32 = 100;

/// The most times that an interrupted call is made.
pub const CALL_TRIES: u32 = 16;

/// Milliseconds before the next connection is waited for if one could not be taken.
pub const ACCEPT_PAUSE: u32 = 100;

/// The fewest milliseconds between two lines about connections that could not be taken.
pub const LINE_PAUSE: u32 = 1000;

/// Returns the milliseconds for dialing a peer and the exchange with it, given those between two rounds: a third of
/// these, and at least `LEAST_LIMIT`. So three peers that are gone do not hold up the next round, unless `LEAST_LIMIT`
/// is more than the third.
pub fn limit_for(interval: u32) -> u32
    ensures { result ≡ max (interval / 3) LEAST_LIMIT }
{
    (interval / 3).max(LEAST_LIMIT)
}

/// Returns the milliseconds for an exchange that another side began, given those between two rounds: as many as a
/// dialer with this interval has, and at most `RESPOND_LIMIT`.
pub fn answer_limit(interval: u32) -> u32
    ensures { result ≡ min (max (interval / 3) LEAST_LIMIT) RESPOND_LIMIT }
{
    limit_for(interval).min(RESPOND_LIMIT)
}

/// Returns the milliseconds within which the first byte of an exchange has to come that another side began, given those
/// for the exchange: a quarter of these, and at least `LEAST_LIMIT`.
pub fn first_byte_limit(limit: u32) -> u32
    ensures { result ≡ max (limit / 4) LEAST_LIMIT }
{
    (limit / 4).max(LEAST_LIMIT)
}
