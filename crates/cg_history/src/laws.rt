//! Laws of histories, each the contract of an empty function.

ghost use Rattle.cg_history.specs.Laws.{
  AllConfirmedAreKept,
  ConfirmedBeforeAFold,
  ConfirmedPastAFold,
  ConfirmedStandOnce,
  ConfirmedUncounted,
  EachEventMakesOneRecord,
  EachRecordHasItsReceipt,
  FoldedHistoriesGoOn,
  FoldingChangesNoAnswer,
  FoldsAddUp,
  PutsOfRecordsLead,
  RecordsAreStepsByPlaces,
  RecordsReplay,
};

/// The events of the records, done one after the other, lead to the node, with the records' replies.
pub fn records_replay()
    ensures { RecordsReplay }
{}

/// The puts of the records lead from the table before them to the node's, each later than what was held. The own entry keeps its generation and its keys, and the node's table is one that a member may hold.
pub fn puts_of_records_lead()
    ensures { PutsOfRecordsLead }
{}

/// An event that is done makes one step of the node, one record of it at the end, and the receipt of that record.
pub fn each_event_makes_one_record()
    ensures { EachEventMakesOneRecord }
{}

/// An event is one step by places, if the node's table spells its places and the event's message, if any, was sent.
/// Both are of one world: the message says one that was sent there. The receipt's reply says the message sent there and
/// the outcomes of the spans.
pub fn records_are_steps_by_places()
    ensures { RecordsAreStepsByPlaces }
{}

/// No two confirmed receipts are of one record.
pub fn confirmed_stand_once()
    ensures { ConfirmedStandOnce }
{}

/// Each record that is kept has a confirmed receipt if there are as many confirmed receipts as such records.
pub fn each_record_has_its_receipt()
    ensures { EachRecordHasItsReceipt }
{}

/// If there are as many confirmed receipts as a history has records, those folded among them, then none was folded.
pub fn all_confirmed_are_kept()
    ensures { AllConfirmedAreKept }
{}

/// A fold changes no later answer, receipt or number.
pub fn folding_changes_no_answer()
    ensures { FoldingChangesNoAnswer }
{}

/// Folding m records and then n is folding m + n.
pub fn folds_add_up()
    ensures { FoldsAddUp }
{}

/// A receipt whose number is past the folded records stays confirmed.
pub fn confirmed_past_a_fold()
    ensures { ConfirmedPastAFold }
{}

/// A receipt that is confirmed after a fold was confirmed before it.
pub fn confirmed_before_a_fold()
    ensures { ConfirmedBeforeAFold }
{}

/// Confirmed receipts are confirmed by the kept records alone, once their numbers do not count the folded ones.
pub fn confirmed_uncounted()
    ensures { ConfirmedUncounted }
{}

/// The list of all records, of which a history folded the first, goes on with the history.
pub fn folded_histories_go_on()
    ensures { FoldedHistoriesGoOn }
{}
