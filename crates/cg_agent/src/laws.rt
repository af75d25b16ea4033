//! The law of an agent's limits, as the contract of a function that does nothing.

ghost use Rattle.cg_agent.specs.Limits.{LimitsAreThese};

/// The limits have the values that are documented.
pub fn limits_are_these()
    ensures { LimitsAreThese }
{}
