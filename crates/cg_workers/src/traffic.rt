//! The bytes of connections.

ghost use Rattle.std.specs.Prelude.{◌≡◌, IfErr};
ghost use Rattle.cg_types.specs.declared.fault.Fault.TheVariants as faults;

use cg_types::Fault;
use std::alloc::Global;
use std::sync::Arc;
use std::sync::atomic::{AtomicU64, Ordering};

/// The numbers of bytes that came and that went over the connections that share it.
#[derive(Drop)]
pub struct Traffic {
    read: AtomicU64,
    written: AtomicU64,
}

impl Traffic {
    /// No bytes so far.
    pub fn new() -> Traffic {
        Traffic {
            read: AtomicU64::new(0),
            written: AtomicU64::new(0),
        }
    }

    /// The bytes that were read.
    pub fn read(&self) -> u64 {
        self.read.load(Ordering::SeqCst)
    }

    /// The bytes that were written.
    pub fn written(&self) -> u64 {
        self.written.load(Ordering::SeqCst)
    }
}

/// The traffic that a connection is counted in, if it is.
#[derive(Drop)]
pub(crate) struct Counting(Option<Arc<Traffic, Global>>);

impl Counting {
    /// Counts in no traffic.
    pub(crate) fn none() -> Counting {
        Counting(None)
    }

    /// Counts in this traffic.
    pub(crate) fn of(traffic: Arc<Traffic, Global>) -> Counting {
        Counting(Some(traffic))
    }

    /// The same. It takes no memory; `OutOfMemory` could come only if a count of owners is full.
    pub(crate) fn copy(&self) -> Result<Counting, Fault>
        ensures { IfErr result (λ f. f ≡ faults.OutOfMemory) }
    {
        let Some(traffic) = &self.0 else {
            return Ok(Counting::none());
        };
        match Arc::try_clone(traffic) {
            Ok(traffic) => Ok(Counting::of(traffic)),
            Err(_) => Err(Fault::OutOfMemory),
        }
    }

    /// Counts bytes that were read.
    pub(crate) fn add_read(&self, count: usize) {
        if let Some(traffic) = &self.0 {
            traffic.read.fetch_add(count as u64, Ordering::SeqCst);
        }
    }

    /// Counts bytes that were written.
    pub(crate) fn add_written(&self, count: usize) {
        if let Some(traffic) = &self.0 {
            traffic.written.fetch_add(count as u64, Ordering::SeqCst);
        }
    }
}
