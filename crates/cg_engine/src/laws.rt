//! The law of a message's reads and of the fault of another kind.

ghost use Rattle.cg_engine.specs.Laws.{LimitsAreThese};

/// `PIECE_LIMIT` is 4,096, `MOST_TURNS` is 40,000,010, and `UNEXPECTED` is `BadFrame` at 5 with the cause `Unexpected`.
pub fn limits_are_these()
    ensures { LimitsAreThese }
{}
