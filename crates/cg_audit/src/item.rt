//! Items of lives, orders of them, and the faults of an audit.

ghost use Rattle.std.specs.Prelude.{◌≡◌};
ghost use Rattle.cg_types.specs.declared.fault.Fault.TheVariants.{OutOfMemory};
ghost use Rattle.cg_audit.specs.declared.item.AuditFault.TheVariants.{Other};

use cg_types::{Endpoint, Fault, Generation};
use std::alloc::{AllocError, AllocFailed};
use thiserror::Error;

/// An item of a life: its start, which is number 0, or one of its records, which are numbered from 1.
#[derive(Clone, Copy, Debug, PartialEq, Eq)]
pub struct LifeItem {
    pub endpoint: Endpoint,
    pub generation: Generation,
    pub number: u64,
}

/// All items of all lives, in an order in which they can have been one run.
#[derive(Debug, Drop)]
pub struct Order {
    pub items: Vec<LifeItem>,
}

/// The fault of an audit that returns no order.
#[derive(Debug, Drop, Error)]
pub enum AuditFault {
    /// The generations of an endpoint do not rise, a record of a life is folded, or the memory that an answer needs was
    /// refused.
    #[error("{0}")]
    Other(Fault),
    /// The lives are not of one run. These are the heads, in the order of the lives handed over: the next item of each
    /// endpoint that has one left. Each handles a message that no item which had gone sent.
    #[error("17 Stuck")]
    Stuck(Vec<LifeItem>),
}

impl From<AllocError> for AuditFault {
    ghost from_gives = { λ _ e. e ≡ Other OutOfMemory };

    fn from(_e: AllocError) -> AuditFault {
        AuditFault::Other(Fault::OutOfMemory)
    }
}

impl<T: Drop> From<AllocFailed<T>> for AuditFault {
    ghost from_gives = { λ _ e. e ≡ Other OutOfMemory };

    fn from(_e: AllocFailed<T>) -> AuditFault {
        AuditFault::Other(Fault::OutOfMemory)
    }
}
