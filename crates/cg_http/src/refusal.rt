//! Why a request is refused.

ghost use Rattle.std.specs.Prelude.{◌≡◌, IfOk, string_bytes};
ghost use Rattle.cg_types.specs.declared.fault.Fault.TheVariants as faults;
ghost use Rattle.cg_http.specs.declared.refusal.Refusal.TheVariants as refusals;
ghost use Rattle.cg_http.specs.Refusals as spec;

use crate::call::Methods;
use cg_types::Fault;
use std::alloc::{AllocError, Global};

/// Why a request is refused.
#[derive(Clone, Copy, Debug, PartialEq, Eq)]
pub enum Refusal {
    /// A part can't be read, or the call itself was refused.
    Fault(Fault),
    /// The request may not write.
    Forbidden,
    /// The path names nothing.
    NotFound,
    /// The path has other methods.
    NotAllowed(Methods),
    /// The body is over `BODY_LIMIT`.
    TooLarge,
}

impl From<AllocError> for Refusal {
    ghost from_gives = { λ _ r. r ≡ refusals.Fault faults.OutOfMemory };

    fn from(_e: AllocError) -> Refusal {
        Refusal::Fault(Fault::OutOfMemory)
    }
}

// The status of a fault.
fn fault_status(fault: Fault) -> u16
    ensures { result ≡ spec.fault_status fault }
{
    match fault {
        Fault::OutOfMemory | Fault::WriteFault | Fault::NoSuchNode => 503,
        Fault::NoSuchKey => 404,
        _ => 400,
    }
}

impl Refusal {
    /// The number of the status: 400, 403, 404, 405, 413 or 503.
    pub fn status(self) -> u16
        ensures { result ≡ spec.status_of self }
    {
        match self {
            Refusal::Fault(fault) => fault_status(fault),
            Refusal::Forbidden => 403,
            Refusal::NotFound => 404,
            Refusal::NotAllowed(_) => 405,
            Refusal::TooLarge => 413,
        }
    }

    /// Writes the body: a fault's line, or words, with a line feed. `AllocError` if there is no memory for it.
    #[tactic(auto, unfolding(crate::specs::Refusals::words_of))]
    pub fn body(self, alloc: Global) -> Result<String, AllocError>
        ensures { IfOk result (λ text. string_bytes text ≡ spec.words_of self) }
    {
        match self {
            Refusal::Fault(fault) => fault.line(alloc),
            Refusal::Forbidden => String::from_str(alloc, "forbidden\n"),
            Refusal::NotFound => String::from_str(alloc, "not found\n"),
            Refusal::NotAllowed(_) => String::from_str(alloc, "method not allowed\n"),
            Refusal::TooLarge => String::from_str(alloc, "body too large\n"),
        }
    }
}
