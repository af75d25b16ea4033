//! Laws of histories and deltas, each the contract of an empty function.

ghost use Rattle.cg_entry.specs.Laws.{
  DeltasSpellSpans,
  EntriesRise,
  HistoriesGrow,
  SpelledDeltasAreTaken,
  VersionsNameEntries,
};

/// Starts, heartbeats, sets and removals make histories.
pub fn histories_grow()
    ensures { HistoriesGrow }
{}

/// Along a history the generation rises, or in one generation the newest version.
pub fn entries_rise()
    ensures { EntriesRise }
{}

/// A generation and a version name at most one entry of a history.
pub fn versions_name_entries()
    ensures { VersionsNameEntries }
{}

/// A delta that spells a span is taken exactly as the span is, and leads to the whole entry at its end.
pub fn spelled_deltas_are_taken()
    ensures { SpelledDeltasAreTaken }
{}

/// The part of an entry above an earlier one of its generation, or above none, spells the span between them.
pub fn deltas_spell_spans()
    ensures { DeltasSpellSpans }
{}
