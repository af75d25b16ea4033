//! The generation of a start.

ghost use Rattle.std.specs.Prelude.{◌≡◌};
ghost use Rattle.cg_types.specs.Answer.{AnswersExactly};
ghost use Rattle.cg_version.specs.Version as spec;
ghost use Rattle.cg_version.specs.Version.{generation_at_start};

use cg_types::{Fault, Generation};

// Returns one more than the stored generation, or 1 if none is stored.
fn generation_after(stored: Option<Generation>) -> u32
    ensures { result ≡ spec.generation_after stored }
{
    match stored {
        None => 1,
        Some(generation) => generation.get() + 1,
    }
}

/// Returns the generation of a start at `now_secs` seconds since 1970. It is one more than the stored one (1 if none is
/// stored), or the seconds if these are more. `VersionsSpent` above 2,147,483,647; no other refusal comes.
pub fn next_generation(stored: Option<Generation>, now_secs: u64) -> Result<Generation, Fault>
    ensures { AnswersExactly (λ g. g) (generation_at_start stored now_secs) result }
{
    let next = u64::from(generation_after(stored)).max(now_secs);
    u32::try_from(next)
        .ok()
        .and_then(Generation::new)
        .ok_or(Fault::VersionsSpent)
}
