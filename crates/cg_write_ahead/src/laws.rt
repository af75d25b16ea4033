//! The law of the limits, as the contract of a function that does nothing.

ghost use Rattle.cg_write_ahead.specs.Limits.{LimitsAreThese};

/// The limits have the values that are documented.
pub fn limits_are_these()
    ensures { LimitsAreThese }
{}
