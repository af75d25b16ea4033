//! The keys of states.

ghost use Rattle.std.specs.Prelude.{◌≡◌, ◌↔◌, ℕ, ◌≢◌, IsSome, IfSome, IfNone, decimal};
ghost use Rattle.cg_types.specs.Numbers.{IsKey};
ghost use Rattle.cg_types.specs.Words.{key_in};
ghost use Rattle.cg_types.specs.Key.{key_name};

use crate::limits::{STATE_LIMIT, STATUS_KEY, TOKENS_KEY};
use crate::shows::Shows;
use crate::words::number_between;
use std::marker::Model;

/// The key of a state, 1 to 16, as Cassandra's ApplicationState. The numbers are this project's own.
#[derive(Clone, Copy, Debug, PartialEq, Eq, PartialOrd, Ord)]
pub struct StateKey {
    number: u8,
}

impl Model for StateKey {
    ghost use Rattle.std.specs.Prelude.{ℕ};
    ghost use Rattle.cg_types.specs.Numbers.{IsKey};

    ghost Value = { ℕ };

    ghost view = { λ k. k.number };

    ghost invariant = { λ k. IsKey k.number };

    ghost inverse = { λ n. record { number = n } };
}

impl Shows for StateKey {
    ghost use Rattle.cg_types.specs.Numbers.{IsKey};

    ghost Shown = { IsKey };

    #[inline(always)]
    fn show(&self) {
        self.get();
    }
}

impl StateKey {
    /// Makes a key of its number; `None` if the number is 0 or over 16.
    pub fn new(number: u8) -> Option<StateKey>
        ensures valid { IsSome result ↔ IsKey number }
        ensures value { IfSome result (λ k. k ≡ number) }
    {
        if number == 0 || number > STATE_LIMIT {
            return None;
        }
        Some(StateKey { number })
    }

    /// Reads a key from its text, in decimal digits with no leading zero.
    pub fn from_bytes(text: &[u8]) -> Option<StateKey>
        ensures value { result ≡ key_in text.now }
        ensures some { IfSome result (λ k. text.now ≡ decimal k) }
        ensures none { IfNone result ((n : ℕ) → IsKey n → text.now ≢ decimal n) }
    {
        let number = number_between(text, 1, u64::from(STATE_LIMIT))?;
        Some(StateKey {
            number: number as u8,
        })
    }

    /// The key's number, 1 to 16.
    pub fn get(self) -> u8
        ensures value { result ≡ self }
        ensures range { IsKey result }
    {
        self.number
    }

    /// The key's name, as `STATUS` for 1.
    #[tactic(auto, unfolding(crate::specs::Key::key_name))]
    pub fn name(self) -> &'static str
        ensures { result.now ≡ key_name self }
    {
        match self.number {
            STATUS_KEY => "STATUS",
            TOKENS_KEY => "TOKENS",
            3 => "LOAD",
            4 => "SCHEMA",
            5 => "DC",
            6 => "RACK",
            7 => "RELEASE_VERSION",
            8 => "RPC_ADDRESS",
            9 => "HOST_ID",
            10 => "INTERNAL_IP",
            11 => "NET_VERSION",
            12 => "SEVERITY",
            13 => "RPC_READY",
            14 => "X1",
            15 => "X2",
            _ => "X3",
        }
    }
}
