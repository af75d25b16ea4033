//! Laws of journals, each the contract of an empty function.

ghost use Rattle.cg_journal.specs.Laws.{ReadHistoriesAreOfTheirLines, FrontsAreRead, WrittenEventsAreRead, WrittenHistoriesAreRead, WritableHistoriesGoOn, ReadHistoriesAreReadAgain};

/// A journal is read as a history that began as its first line says, with one record for each other line, in order. The
/// record has the line's event, for caller 0.
pub fn each_line_makes_one_record()
    ensures { ReadHistoriesAreOfTheirLines }
{}

/// A journal that is cut after a line feed is read as a history that the whole journal's history continues.
pub fn fronts_are_read()
    ensures { FrontsAreRead }
{}

/// The text of an event is one line, and that line is read as the event, for all events that there can be.
pub fn written_events_are_read()
    ensures { WrittenEventsAreRead }
{}

/// The text of a writable history is read as that history, each record for caller 0, and what was read is written as
/// the same text.
///
/// The law `writable_histories_go_on` says which histories these are. The history that was read has the same node that it began
/// with, the same records, and the same node at its end.
pub fn written_histories_are_read()
    ensures { WrittenHistoriesAreRead }
{}

/// A history of a node that starts meets the premise of the law of written histories, and does so after any events.
pub fn writable_histories_go_on()
    ensures { WritableHistoriesGoOn }
{}

/// The text of a history that was read is read as the same history, whatever journal was read.
pub fn read_histories_are_read_again()
    ensures { ReadHistoriesAreReadAgain }
{}
