//! Generations of endpoints.

ghost use Rattle.std.specs.Prelude.{◌≡◌, ◌↔◌, ℕ, ◌≢◌, IsSome, IfSome, IfNone, decimal};
ghost use Rattle.cg_types.specs.Numbers.{IsGeneration};
ghost use Rattle.cg_types.specs.Words.{generation_in};

use crate::limits::NUMBER_LIMIT;
use crate::shows::Shows;
use crate::words::number_between;
use std::marker::Model;

/// A generation: the number of a start of an endpoint, 1 to 2,147,483,647 (as in Cassandra's `HeartBeatState`).
#[derive(Clone, Copy, Debug, PartialEq, Eq, PartialOrd, Ord)]
pub struct Generation {
    number: u32,
}

impl Model for Generation {
    ghost use Rattle.std.specs.Prelude.{ℕ};
    ghost use Rattle.cg_types.specs.Numbers.{IsGeneration};

    ghost Value = { ℕ };

    ghost view = { λ g. g.number };

    ghost invariant = { λ g. IsGeneration g.number };

    ghost inverse = { λ n. record { number = n } };
}

impl Shows for Generation {
    ghost use Rattle.cg_types.specs.Numbers.{IsGeneration};

    ghost Shown = { IsGeneration };

    #[inline(always)]
    fn show(&self) {
        self.get();
    }
}

impl Generation {
    /// Makes a generation of its number; `None` unless the number is 1 to 2,147,483,647.
    pub fn new(number: u32) -> Option<Generation>
        ensures valid { IsSome result ↔ IsGeneration number }
        ensures value { IfSome result (λ g. g ≡ number) }
    {
        if number == 0 || number >= NUMBER_LIMIT {
            return None;
        }
        Some(Generation { number })
    }

    /// Reads a generation from its text, in decimal digits with no leading zero.
    pub fn from_bytes(text: &[u8]) -> Option<Generation>
        ensures value { result ≡ generation_in text.now }
        ensures some { IfSome result (λ g. text.now ≡ decimal g) }
        ensures none { IfNone result ((n : ℕ) → IsGeneration n → text.now ≢ decimal n) }
    {
        let number = number_between(text, 1, u64::from(NUMBER_LIMIT) - 1)?;
        Some(Generation {
            number: number as u32,
        })
    }

    /// The generation's number, 1 to 2,147,483,647.
    pub fn get(self) -> u32
        ensures value { result ≡ self }
        ensures range { IsGeneration result }
    {
        self.number
    }
}
