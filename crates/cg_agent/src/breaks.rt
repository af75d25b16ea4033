//! The exchanges that broke off, by their faults.

use crate::tally::Tally;
use cg_types::Fault;
use std::alloc::{AllocError, Global};

// One more than the greatest number of a fault.
const FAULTS: usize = 21;

/// The exchanges that broke off: those that no line told of yet, and all by the number of their fault.
#[derive(Drop)]
pub(crate) struct Breaks {
    pub(crate) untold: Tally,
    all: [u64; FAULTS],
}

impl Breaks {
    /// Begins with none.
    pub(crate) fn new() -> Breaks {
        Breaks {
            untold: Tally::new(),
            all: [0; FAULTS],
        }
    }

    /// Counts one that broke off by this fault.
    pub(crate) fn add(&mut self, fault: Fault) {
        self.untold.add(fault);
        if let Some(count) = self.all.get_mut(usize::from(fault.number())) {
            *count = count.saturating_add(1);
        }
    }

    /// Returns the counts that are not 0, by the number of the fault.
    pub(crate) fn counted(&self, alloc: Global) -> Result<Vec<(u8, u64)>, AllocError> {
        let mut counted = Vec::new(alloc);
        for (number, count) in self.all.iter().enumerate() {
            if *count > 0 {
                counted.push((number as u8, *count))?;
            }
        }
        Ok(counted)
    }
}
