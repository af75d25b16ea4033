//! Laws of the words, of the room for rounds, of a ticker's turns, and of a connection's limits, each the contract of an
//! empty function.

ghost use Rattle.cg_workers.specs.Laws.{RoomIsThis};
ghost use Rattle.cg_workers.specs.Limits.{LimitValues};
ghost use Rattle.cg_workers.specs.RoundLaws.{RoomHasItsValue};
ghost use Rattle.cg_workers.specs.Words.{WordsAreTheGenerators};
ghost use Rattle.cg_workers.specs.TickLaws.{TicksMakeRounds};

use crate::clock::Milliseconds;
use cg_history::Enter;

/// `ROUNDS_AT_ONCE`, the number of rounds for whose numbers room is made at once, is 1,000,000.
pub fn room_is_this()
    ensures { RoomIsThis }
{}

/// The words of ticks, drawn one tick after the other, are the first of the generator's stream, four by four.
pub fn words_are_the_generators()
    ensures { WordsAreTheGenerators }
{}

/// `ROOM`, the number of rounds for which the channel has room, is 16.
pub fn room_has_its_value()
    ensures { RoomHasItsValue }
{}

/// The rounds that were put in are those of the ticks that were done, in their order; if the ticker stopped, the last
/// of these has none there. The ticks are at times that the clock showed. If no tick was refused, their words are the
/// generator's, four by four.
pub fn ticks_make_rounds<E: Enter, C: Milliseconds>()
    ensures { TicksMakeRounds E.receipts E.does E.refuses C.shows }
{}

/// `RESPOND_LIMIT` is 2,000 ms, `LEAST_LIMIT` 100 ms, `CALL_TRIES` 16, `ACCEPT_PAUSE` 100 ms and `LINE_PAUSE`
/// 1,000 ms.
pub fn limits_have_their_values()
    ensures { LimitValues }
{}
