//! The history that the tests of a board begin with, and the number of its records.

ghost use Rattle.std.specs.Prelude.{◌≡◌, [], IfOk};

use cg_history::History;
use cg_testing::{A, endpoint, generation, settings};
use std::alloc::Global;
use std::test::Fail;

/// Returns A's history at its start.
pub(crate) fn new_history(alloc: Global) -> Result<History, Fail>
    ensures { IfOk result (λ h. (h.records ≡ []) × (h.folded ≡ 0)) }
{
    Ok(History::begin(alloc, endpoint(A), generation(9), settings(alloc)?)?)
}

/// Returns the number of all records, folded ones too.
pub(crate) fn counted(history: &History) -> u64 {
    history
        .folded()
        .saturating_add(history.records().len() as u64)
}
