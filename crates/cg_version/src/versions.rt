//! The one generator of a node's versions, as Cassandra's VersionGenerator.

ghost use Rattle.std.specs.Prelude.{◌≡◌, ◌↔◌, ◌<◌, Err, IsTrue, IfOk, OnErr};
ghost use Rattle.cg_types.specs.declared.limits.TheConstants.{NUMBER_LIMIT};
ghost use Rattle.cg_types.specs.Answer.{AnswersExactly};
ghost use Rattle.cg_types.specs.declared.fault.Fault.TheVariants.{VersionsSpent};
ghost use Rattle.cg_version.specs.Version.{next_version};

use cg_types::{Fault, NUMBER_LIMIT, Version};
use std::marker::Model;

/// A generator of versions from 1 on, each greater than the last one given. A copy gives the same versions again. A
/// contract sees the last one given, 0 before the first.
#[derive(Clone, Copy, Debug, PartialEq, Eq)]
pub struct Versions {
    last: u32,
}

impl Model for Versions {
    ghost use Rattle.std.specs.Prelude.{ℕ, ◌<◌};
    ghost use Rattle.cg_types.specs.declared.limits.TheConstants.{NUMBER_LIMIT};

    ghost Value = { ℕ };

    ghost view = { λ v. v.last };

    ghost invariant = { λ v. v.last < NUMBER_LIMIT };

    ghost inverse = { λ n. record { last = n } };
}

impl Versions {
    /// A generator that has given no version yet.
    pub fn new() -> Versions
        ensures { result ≡ 0 }
    {
        Versions { last: 0 }
    }

    /// A generator whose last version given is `version`: it gives those after it.
    pub fn after(version: Version) -> Versions
        ensures { result ≡ version }
    {
        Versions {
            last: version.get(),
        }
    }

    /// The last version given, or 0.
    pub fn last(self) -> u32
        ensures value { result ≡ self }
        ensures range { result < NUMBER_LIMIT }
    {
        self.last
    }

    /// Tests whether the greatest version was given: none is left for `next`.
    pub fn is_spent(self) -> bool
        ensures { IsTrue result ↔ (next_version self ≡ Err VersionsSpent) }
    {
        Version::new(self.last + 1).is_none()
    }

    /// Gives the version after the last one, which is then the last. `VersionsSpent` after 2,147,483,647, which stays
    /// the last; no other refusal comes.
    pub fn next(&mut self) -> Result<Version, Fault>
        ensures value { AnswersExactly (λ v. v) (next_version self.old) result }
        ensures ok { IfOk result (λ v. self.new ≡ v) }
        ensures err { OnErr result (self.new ≡ self.old) }
    {
        match Version::new(self.last + 1) {
            Some(version) => {
                *self = Versions::after(version);
                Ok(version)
            }
            None => Err(Fault::VersionsSpent),
        }
    }
}
