//! Entries asked for what is newer in them than a version.

use crate::cases::{Above, SMALL_SHAPE};
use cg_entry::{Delta, Entry};
use cg_measure::{Failure, Held, table};
use cg_messages::{Ack2, Message, OwnerDelta};
use cg_testing::endpoint;
use std::alloc::{AllocError, Global};

// The number of the owner whose entry is asked.
const ASKED: u16 = 7;

impl Above {
    fn held(self) -> Held {
        match self {
            Above::Beat => Held::Plain,
            Above::Newest | Above::Below | Above::Zero => Held::FirstState,
        }
    }

    fn version(self, entry: &Entry) -> u32 {
        match self {
            Above::Newest => entry.newest().get(),
            Above::Below | Above::Beat => entry.newest().get() - 1,
            Above::Zero => 0,
        }
    }
}

/// Makes the entry that is asked.
pub(crate) fn asked(alloc: Global, above: Above) -> Result<Entry, Failure> {
    let table = table(alloc, above.held(), SMALL_SHAPE)?;
    let Some(entry) = table.get(endpoint(ASKED)) else {
        return Err(Failure::Lacking("an entry"));
    };
    Ok(entry.copy(alloc)?)
}

/// Returns the version that an entry is asked by, a thousand times.
pub(crate) fn versions(alloc: Global, above: Above, entry: &Entry) -> Result<Vec<u32>, AllocError> {
    let mut versions = Vec::with_capacity(alloc, 1000)?;
    for _ in 0..1000 {
        versions.push(above.version(entry))?;
    }
    Ok(versions)
}

/// Asks an entry for what is newer than each of these versions, and returns the last answer.
pub(crate) fn last_above(
    alloc: Global,
    entry: &Entry,
    versions: &[u32],
) -> Result<Option<Delta>, AllocError> {
    let mut last = None;
    for version in versions {
        last = entry.above(alloc, *version)?;
    }
    Ok(last)
}

/// Returns the ACK2 that brings a delta of the owner, or nothing.
pub(crate) fn bringing(alloc: Global, delta: Option<&Delta>) -> Result<Message, Failure> {
    let mut deltas = Vec::new(alloc);
    if let Some(delta) = delta {
        let delta = delta.copy(alloc)?;
        let endpoint = endpoint(ASKED);
        deltas.push(OwnerDelta { endpoint, delta })?;
    }
    let ack2 = Ack2::new(deltas).ok_or(Failure::Lacking("an ACK2"))?;
    Ok(Message::Ack2(ack2))
}
