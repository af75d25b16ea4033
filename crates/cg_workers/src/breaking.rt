//! The faults that break exchanges off.

ghost use Rattle.std.specs.Prelude.{◌≡◌};
ghost use Rattle.cg_workers.specs.Workers.{fault_in};

use cg_engine::{Broken, Ended};
use cg_types::Fault;

/// Returns the fault that broke an exchange off, if one did.
pub(crate) fn broken_by(ended: Result<Ended, Broken>) -> Option<Fault>
    ensures { result ≡ fault_in ended }
{
    match ended {
        Ok(_) => None,
        Err(broken) => Some(broken.fault),
    }
}
