//! Laws of told Sets, of receipts and of the limit: contracts of functions that do nothing.

ghost use Rattle.cg_locked.specs.Board.{NoneIsFolded};
ghost use Rattle.cg_locked.specs.Entry.{ConfirmedStay, EntriesAreConfirmed, ShownChangesAreRead};
ghost use Rattle.cg_locked.specs.Limits.{SeatLimitValue};

/// A Set or a Remove that `submit` or a gate over a seat told is read: a pass that learnt the `Told` reads the key at the
/// reply's version or a later one.
pub fn shown_changes_are_read()
    ensures { ShownChangesAreRead }
{}

/// The receipts of a seat's events are confirmed by the records that it has seen, and rise.
pub fn entries_are_confirmed()
    ensures { EntriesAreConfirmed }
{}

/// Records confirm all receipts that a prefix of them confirms.
pub fn confirmed_stay()
    ensures { ConfirmedStay }
{}

/// A board's history keeps all records that its log lists, if none is folded, and its base is then the node that started.
pub fn none_is_folded()
    ensures { NoneIsFolded }
{}

/// The limit of seats has the value that is documented.
pub fn seat_limit_has_its_value()
    ensures { SeatLimitValue }
{}
