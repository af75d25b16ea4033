//! Laws of limits, rings and claims, each the contract of an empty function.

ghost use Rattle.cg_tokens.specs.Laws.{LimitsAreThese};
ghost use Rattle.cg_tokens.specs.RingLaws.{KeptClaimsAreAlike, RingStays};

/// `TOKEN_LIMIT` is 2 to the 127, `TOKEN_DIGITS` is 32, and `TOKEN_COUNT_LIMIT` is 16.
pub fn limits_are_these()
    ensures { LimitsAreThese }
{}

/// An entry that keeps the claims of its owner (`keeps_claims`) claims the same tokens as the entry held before.
pub fn kept_claims_are_alike()
    ensures { KeptClaimsAreAlike }
{}

/// The ring stays the same if an owner's new entry keeps the claims of its old one. It has to claim the same tokens in
/// the same generation, or none if nothing was held.
pub fn ring_stays()
    ensures { RingStays }
{}
