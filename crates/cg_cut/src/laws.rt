//! Laws of journals that are cut: contracts of functions that do nothing.

ghost use Rattle.cg_cut.specs.Laws.{CutRunsAreRuns, CutJournalsAreRead};

/// Lives of which each is cut behind some of its records, or gone, are one run wherever the whole lives are, if each
/// message that an item left handles was sent before by an item left. They are so by the items left of the order.
pub fn cut_runs_are_runs()
    ensures { CutRunsAreRuns }
{}

/// The whole lines of a journal that is cut anywhere are read as a history that the whole journal's history continues,
/// if there are any.
pub fn cut_journals_are_read()
    ensures { CutJournalsAreRead }
{}
