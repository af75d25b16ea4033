//! The numbers by which C is told outcomes.

ghost use Rattle.std.specs.Prelude.{◌≡◌};
ghost use Rattle.cg_types.specs.Fault.{fault_number};

use cg_types::Fault;

/// The answer of a call that did its work.
pub(crate) const DONE: u32 = 0;

/// The number of a fault.
pub(crate) fn number(fault: Fault) -> u32
    ensures { result ≡ fault_number fault }
{
    u32::from(fault.number())
}
