//! An event that is entered at a board, and not yet told to anybody.

ghost use Rattle.std.specs.Prelude.{◌≡◌, ◌+◌, ◌<◌, Ok, Err, None, IfOk, OnOk, OnErr, MatchResult};
ghost use mathlib.Core.List.{IsPrefix};
ghost use Rattle.cg_locked.specs.Entry.{IsEntered};
ghost use Rattle.cg_write_ahead.specs.Submitting.{IsOneMore};

use cg_core::Event;
use cg_history::Receipt;
use cg_locked::{Board, Name, Seat};
use cg_types::Fault;
use std::alloc::Global;

/// Enters an event by `Board::enter`: its record is the last one of all, and of those kept.
pub(crate) fn entered<N: Name>(
    board: &mut Board<N>,
    alloc: Global,
    seat: &mut Seat<N>,
    event: Event,
) -> Result<Receipt, Fault>
    ensures entry { MatchResult result (λ q. IsEntered N.start seat.old event seat.new.seen (Ok (q, None)))
        (λ f. IsEntered N.start seat.old event seat.new.seen (Err f)) }
    ensures log { IfOk result (λ q. IsOneMore event q.reply board.old.log board.new.log) }
    ensures records { IfOk result (λ q. IsOneMore event q.reply board.old.history.records board.new.history.records) }
    ensures number { IfOk result (λ q. board.new.history.folded < q.number) }
    ensures seen { seat.new.seen ≡ board.new.log }
    ensures begins { IsPrefix seat.old.seen seat.new.seen }
    ensures amount { OnOk result (seat.new.amount ≡ seat.old.amount + 1) }
    ensures published { board.new.published ≡ board.old.published }
    ensures err { OnErr result ((board.new.history ≡ board.old.history) × (board.new.log ≡ board.old.log)
        × (seat.new.amount ≡ seat.old.amount)) }
    ensures seat { (seat.new.caller ≡ seat.old.caller) × (seat.new.parts ≡ seat.old.parts) }
{
    let _records = board.history().records();
    board.enter(alloc, seat, event)
}
