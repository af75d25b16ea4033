//! Laws of the bounds on reads of a link and on their bytes, each the contract of an empty function.

ghost use Rattle.cg_links.specs.Laws.{LimitsAreThese};
ghost use Rattle.cg_links.specs.LineLaws.{PieceLimitIsThis};

/// `MOST_READS`, the most reads made to reach a link's end, is 4,294,967,295.
pub fn limits_are_these()
    ensures { LimitsAreThese }
{}

/// `PIECE_LIMIT`, the most bytes of a text that one read asks for, is 4,096.
pub fn piece_limit_is_this()
    ensures { PieceLimitIsThis }
{}
