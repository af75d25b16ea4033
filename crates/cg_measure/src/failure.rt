//! Failures of cases.

use cg_types::Fault;
use std::alloc::{AllocError, AllocFailed};
use std::io;

/// The failure of a case that was not run.
#[derive(Clone, Copy, Debug)]
pub enum Failure {
    /// A fault of the core, or memory that was refused.
    Refused(Fault),
    /// The clock or the standard output failed.
    Outside,
    /// A value of this kind is needed, and there is none: a case is not written as it should be.
    Lacking(&'static str),
}

impl From<Fault> for Failure {
    fn from(fault: Fault) -> Failure {
        Failure::Refused(fault)
    }
}

impl From<AllocError> for Failure {
    fn from(_error: AllocError) -> Failure {
        Failure::Refused(Fault::OutOfMemory)
    }
}

impl<T: Drop> From<AllocFailed<T>> for Failure {
    fn from(_error: AllocFailed<T>) -> Failure {
        Failure::Refused(Fault::OutOfMemory)
    }
}

impl From<io::Error> for Failure {
    fn from(_error: io::Error) -> Failure {
        Failure::Outside
    }
}
