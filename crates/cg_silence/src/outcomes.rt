//! The outcomes that count as arrivals.

ghost use Rattle.std.specs.Prelude.{◌≡◌};
ghost use Rattle.cg_silence.specs.Windows as spec;

use cg_entry::Took;
use cg_messages::Outcome;

/// Tests whether a delta was taken.
pub fn was_taken(outcome: &Outcome) -> bool
    ensures { result ≡ spec.was_taken outcome.now.took }
{
    matches!(outcome.took, Took::Taken)
}

/// Tests whether any delta was taken.
pub fn any_taken(outcomes: &[Outcome]) -> bool
    ensures { result ≡ spec.any_taken outcomes.now }
{
    outcomes.iter().any(was_taken)
}
