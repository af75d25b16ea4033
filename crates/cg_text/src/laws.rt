//! The law of the greatest number in a line.

ghost use Rattle.cg_text.specs.Limits.{LimitValues};

/// The greatest number in a line is 2^64 - 1.
pub fn limits_have_their_values()
    ensures { LimitValues }
{}
