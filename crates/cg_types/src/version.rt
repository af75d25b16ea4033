//! Versions.

ghost use Rattle.std.specs.Prelude.{◌≡◌, ◌↔◌, ℕ, ◌≢◌, IsSome, IfSome, IfNone, decimal};
ghost use Rattle.cg_types.specs.Numbers.{IsVersion};
ghost use Rattle.cg_types.specs.Words.{generation_in};

use crate::limits::NUMBER_LIMIT;
use crate::shows::Shows;
use crate::words::number_between;
use std::marker::Model;

/// A version: the number of a change within a generation, 1 to 2,147,483,647.
#[derive(Clone, Copy, Debug, PartialEq, Eq, PartialOrd, Ord)]
pub struct Version {
    number: u32,
}

impl Model for Version {
    ghost use Rattle.std.specs.Prelude.{ℕ};
    ghost use Rattle.cg_types.specs.Numbers.{IsVersion};

    ghost Value = { ℕ };

    ghost view = { λ v. v.number };

    ghost invariant = { λ v. IsVersion v.number };

    ghost inverse = { λ n. record { number = n } };
}

impl Shows for Version {
    ghost use Rattle.cg_types.specs.Numbers.{IsVersion};

    ghost Shown = { IsVersion };

    #[inline(always)]
    fn show(&self) {
        self.get();
    }
}

impl Version {
    /// The version of a start.
    pub fn first() -> Version
        ensures { result ≡ 1 }
    {
        Version { number: 1 }
    }

    /// Makes a version of its number; `None` unless the number is 1 to 2,147,483,647.
    pub fn new(number: u32) -> Option<Version>
        ensures valid { IsSome result ↔ IsVersion number }
        ensures value { IfSome result (λ v. v ≡ number) }
    {
        if number == 0 || number >= NUMBER_LIMIT {
            return None;
        }
        Some(Version { number })
    }

    /// Reads a version from its text, in decimal digits with no leading zero.
    pub fn from_bytes(text: &[u8]) -> Option<Version>
        ensures value { result ≡ generation_in text.now }
        ensures some { IfSome result (λ v. text.now ≡ decimal v) }
        ensures none { IfNone result ((n : ℕ) → IsVersion n → text.now ≢ decimal n) }
    {
        let number = number_between(text, 1, u64::from(NUMBER_LIMIT) - 1)?;
        Some(Version {
            number: number as u32,
        })
    }

    /// The version's number, 1 to 2,147,483,647.
    pub fn get(self) -> u32
        ensures value { result ≡ self }
        ensures range { IsVersion result }
    {
        self.number
    }
}
