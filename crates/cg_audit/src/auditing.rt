//! The audit of lives: one run, or none.

ghost use Rattle.std.specs.Prelude.{IsTrue};
ghost use Rattle.cg_audit.specs.Lives.{differ};
ghost use Rattle.cg_audit.specs.Audit.{IsAudited};

use crate::item::{AuditFault, Order};
use crate::laws::{heads_can_not_go, orders_are_runs, stuck_lives_are_no_run};
use crate::lives::{Lives, all_rise, are_whole};
use crate::turns::by_turns;
use cg_types::{Fault, show_all};
use std::alloc::Global;

/// Returns an order in which the lives of all endpoints can have been one run, or the heads that are left if there is
/// none.
///
/// At each turn the least endpoint goes whose next item can go. The heads come with `Stuck`. `NotRising` comes before
/// all else, if the generations of an endpoint do not rise; then `Folded`, if a record of a life is folded;
/// `OutOfMemory` only in place of an order or of heads.
///
/// No two of the lives may be of one endpoint (`endpoints_differ`). There may be more endpoints than a table holds, and
/// lives may have settings of their own. For each item the audit takes one step for each endpoint. A step may look up,
/// by a hash, the message that the endpoint's next item handles; the message that the item sends is looked up too.
pub fn audit(alloc: Global, lives: &[Lives]) -> Result<Order, AuditFault>
    requires { IsTrue (differ lives.now) }
    ensures { IsAudited lives.now result }
{
    if !all_rise(lives) {
        return Err(AuditFault::Other(Fault::NotRising));
    }
    if !are_whole(lives) {
        return Err(AuditFault::Other(Fault::Folded));
    }
    show_all(lives);
    orders_are_runs();
    stuck_lives_are_no_run();
    heads_can_not_go();
    by_turns(alloc, lives)
}
