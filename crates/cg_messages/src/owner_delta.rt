//! Deltas as messages carry them.

ghost use Rattle.std.specs.Prelude.{◌≡◌, ◌↔◌, IsTrue, IfOk};

use cg_entry::Delta;
use cg_types::{Endpoint, Shows};
use std::alloc::{AllocError, Global};

/// A delta, and the endpoint that it is about. It is a member of the map from endpoints to their `EndpointState` in
/// Apache Cassandra's `GossipDigestAck` and `GossipDigestAck2`.
#[derive(Debug, Drop)]
pub struct OwnerDelta {
    pub endpoint: Endpoint,
    pub delta: Delta,
}

impl PartialEq for OwnerDelta {
    ghost use Rattle.cg_messages.specs.Values.{owner_delta_code};
    ghost use Rattle.cg_types.specs.Equality.{same_by, same_by-partial};

    ghost eq = { same_by owner_delta_code };

    ghost laws = { same_by-partial owner_delta_code };

    /// Returns `true` if both are the same delta about the same endpoint.
    fn eq(&self, other: &OwnerDelta) -> bool
        ensures { IsTrue result ↔ (self.now ≡ other.now) }
    {
        self.endpoint == other.endpoint && self.delta.is_same(&other.delta)
    }
}

impl Eq for OwnerDelta {
    ghost use Rattle.cg_messages.specs.Values.{owner_delta_code};
    ghost use Rattle.cg_types.specs.Equality.{same_by-laws};

    ghost laws = { same_by-laws owner_delta_code };
}

impl Shows for OwnerDelta {
    ghost use Rattle.cg_messages.specs.Contents.{IsOwnerDelta};

    ghost Shown = { IsOwnerDelta };

    #[inline(always)]
    fn show(&self) {
        self.endpoint.show();
        self.delta.show();
    }
}

impl OwnerDelta {
    /// The same delta about the same endpoint, which shares the texts of its states. `AllocError` if there is no memory
    /// for the list of the states.
    pub fn copy(&self, alloc: Global) -> Result<OwnerDelta, AllocError>
        ensures { IfOk result (λ d. d ≡ self.now) }
    {
        Ok(OwnerDelta {
            endpoint: self.endpoint,
            delta: self.delta.copy(alloc)?,
        })
    }
}

pub(crate) fn copies(alloc: Global, deltas: &[OwnerDelta]) -> Result<Vec<OwnerDelta>, AllocError>
    ensures { IfOk result (λ v. v.items ≡ deltas.now) }
{
    let mut copies = Vec::with_capacity(alloc, deltas.len())?;
    for sent in deltas {
        copies.push(sent.copy(alloc)?)?;
    }
    Ok(copies)
}
