//! The sample history that a board begins with.

ghost use Rattle.std.specs.Prelude.{◌≡◌, [], IfOk};

use cg_history::History;
use cg_testing::{A, endpoint, generation, settings};
use std::alloc::Global;
use std::test::Fail;

/// A's history at its start.
pub(crate) fn new_history(alloc: Global) -> Result<History, Fail>
    ensures { IfOk result (λ h. (h.records ≡ []) × (h.folded ≡ 0)) }
{
    Ok(History::begin(alloc, endpoint(A), generation(9), settings(alloc)?)?)
}
