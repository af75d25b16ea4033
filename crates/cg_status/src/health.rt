//! The health of a node: if its rounds go on.

ghost use Rattle.std.specs.Prelude.{◌≡◌};
ghost use Rattle.cg_status.specs.Health as spec;

/// Returns `true` if the last round was done less than three intervals ago; where there is no interval, if a round was
/// done at all. Times are in milliseconds of one clock.
pub fn is_healthy(last: Option<u64>, interval: u32, now: u64) -> bool
    ensures { result ≡ spec.is_healthy last interval now }
{
    match last {
        Some(last) => interval == 0 || now.saturating_sub(last) < u64::from(interval) * 3,
        None => false,
    }
}
