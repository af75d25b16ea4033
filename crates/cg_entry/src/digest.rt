//! Digests.

use cg_types::{Endpoint, Generation, Owned, Shows, Version};

/// A digest: the generation held of an endpoint, and the greatest version held of that generation (Apache Cassandra's
/// `GossipDigest`).
#[derive(Clone, Copy, Debug, PartialEq, Eq)]
pub struct Digest {
    pub endpoint: Endpoint,
    pub generation: Generation,
    pub newest: Version,
}

impl Owned for Digest {
    ghost owner_of = { λ d. d.endpoint };

    fn owner(&self) -> Endpoint {
        self.endpoint
    }
}

impl Shows for Digest {
    ghost use Rattle.cg_entry.specs.Contents.{IsDigest};

    ghost Shown = { IsDigest };

    #[inline(always)]
    fn show(&self) {
        self.endpoint.show();
        self.generation.show();
        self.newest.show();
    }
}
