//! The name that a board, its seats and its passes have in common.

use cg_views::Naming;
use std::marker::Brand;
use std::sync::ledger::Ledger;

/// A common name of the seats' ledger, the log of records, the views, and the node that the history began with; and
/// whether records may be folded. A caller passes `Brand`.
pub trait Name: Ledger + Naming {
    ghost use Rattle.std.specs.Prelude.{Bool};
    ghost use Rattle.logbook.specs.Pages.{Book};
    ghost use Rattle.cg_core.specs.Values.{NodeValue};

    ghost log: { Book };

    ghost start: { NodeValue };

    // true if the board may fold records
    ghost folds: { Bool };
}

impl Name for Brand {
    ghost use Rattle.std.specs.Prelude.{false};
    ghost use Rattle.cg_locked.specs.Entry.{any_start};

    ghost log = { record { number = 0; log_name = 0; cells_name = 0 } };

    ghost start = { any_start };

    ghost folds = { false };
}
