//! Tokens, which are places on a ring, and the token of a key.

ghost use Rattle.std.specs.Prelude.{◌≡◌, ◌↔◌, ◌≤◌, IsSome, IfSome, Some, nat_eq};
ghost use Rattle.std.specs.Ordering.{nat_cmp};
ghost use Rattle.std.specs.Cmp.{nat_eq_equiv, nat_cmp_total, unsigned_po, partial_equiv_from_equiv};
ghost use Rattle.std.specs.Cmp.Rules.{comparing};
ghost use Rattle.std.proofs.Common.{rules};
ghost use Rattle.cg_tokens.specs.Tokens.{IsToken, token_of, token_text};

use crate::limits::TOKEN_LIMIT;
use md5::{Digest, Md5};
use std::cmp::Ordering;
use std::fmt;
use std::marker::Model;

/// A token: a place on the ring, 0 to `TOKEN_LIMIT`, by default 0. Tokens are ordered as their numbers.
#[derive(Clone, Copy, Debug, Default)]
pub struct Token {
    number: u128,
}

/// A contract sees a token as its number.
impl Model for Token {
    ghost use Rattle.std.specs.Prelude.{ℕ};
    ghost use Rattle.cg_tokens.specs.Tokens.{IsToken};

    ghost Value = { ℕ };

    ghost view = { λ t. t.number };

    ghost invariant = { λ t. IsToken t.number };

    ghost inverse = { λ n. record { number = n } };
}

impl PartialEq for Token {
    ghost eq = { nat_eq };

    ghost laws = { partial_equiv_from_equiv nat_eq_equiv };

    fn eq(&self, other: &Token) -> bool {
        self.number == other.number
    }
}

impl Eq for Token {
    ghost laws = { nat_eq_equiv };
}

impl PartialOrd for Token {
    ghost partial_cmp = { λ x y. Some (nat_cmp x y) };

    ghost laws = { unsigned_po };

    fn partial_cmp(&self, other: &Token) -> Option<Ordering> {
        Some(self.cmp(other))
    }
}

impl Ord for Token {
    ghost cmp = { nat_cmp };

    ghost total = { nat_cmp_total };

    ghost matches_partial_cmp = { Prim.search (comparing, rules) };

    ghost matches_eq = { Prim.search (comparing, rules) };

    fn cmp(&self, other: &Token) -> Ordering {
        self.number.cmp(&other.number)
    }
}

/// Writes a token as 32 lower-case hexadecimal digits.
impl fmt::Display for Token {
    ghost output = { λ t. Some (token_text t) };

    fn fmt<W: fmt::Write>(&self, f: &mut fmt::Formatter<W>) -> fmt::Result {
        let high = (self.number >> 64) as u64;
        let low = (self.number % (1 << 64)) as u64;
        write!(f, "{high:016x}{low:016x}")
    }
}

impl Token {
    /// Makes a token of its number; `None` if the number is over `TOKEN_LIMIT`.
    pub fn new(number: u128) -> Option<Token>
        ensures valid { IsSome result ↔ IsToken number }
        ensures value { IfSome result (λ t. t ≡ number) }
    {
        if number > TOKEN_LIMIT {
            return None;
        }
        Some(Token { number })
    }

    /// The token's number, 0 to `TOKEN_LIMIT`.
    pub fn number(self) -> u128
        ensures value { result ≡ self }
        ensures range { IsToken result }
    {
        self.number
    }
}

/// The token of a key's bytes: their MD5, read as a big-endian two's complement number, in absolute value.
pub fn token_of(key: &[u8]) -> Token
    ensures { result ≡ token_of key.now }
{
    let digest = Md5::digest(key);
    Token {
        number: u128::from_be_bytes(digest).cast_signed().unsigned_abs(),
    }
}
