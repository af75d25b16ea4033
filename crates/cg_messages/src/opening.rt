//! The message that opens an exchange.

ghost use Rattle.std.specs.Prelude.{◌≡◌, ◌↔◌, IsTrue, IfOk, IfSome, is_some};
ghost use Rattle.cg_messages.specs.Members.{AreListed, is_member_list, endpoints_of_digests};
ghost use Rattle.cg_messages.specs.Contents.{IsSyn};

use crate::owned::are_listed;
use cg_entry::Digest;
use cg_types::{Cluster, Shows, show_all};
use std::alloc::{AllocError, Global};
use std::marker::Model;

/// A SYN: the sender's cluster, and a digest of each entry that it holds (Apache Cassandra's `GossipDigestSyn`). The
/// digests rise strictly by endpoint and are at most `MEMBER_LIMIT`.
#[derive(Debug, Drop)]
pub struct Syn {
    cluster: Cluster,
    digests: Vec<Digest>,
}

impl Model for Syn {
    ghost use Rattle.cg_messages.specs.Values.{SynValue};
    ghost use Rattle.cg_messages.specs.Contents.{IsSyn};

    ghost Value = { SynValue };

    ghost view = { λ s. record { cluster = s.cluster; digests = s.digests.items } };

    ghost invariant = { λ s. IsSyn (record { cluster = s.cluster; digests = s.digests.items }) };
}

impl PartialEq for Syn {
    ghost use Rattle.cg_messages.specs.Values.{syn_code};
    ghost use Rattle.cg_types.specs.Equality.{same_by, same_by-partial};

    ghost eq = { same_by syn_code };

    ghost laws = { same_by-partial syn_code };

    /// Returns `true` if both are of the same cluster and have the same digests.
    fn eq(&self, other: &Syn) -> bool
        ensures { IsTrue result ↔ (self.now ≡ other.now) }
    {
        self.cluster == other.cluster && self.digests == other.digests
    }
}

impl Eq for Syn {
    ghost use Rattle.cg_messages.specs.Values.{syn_code};
    ghost use Rattle.cg_types.specs.Equality.{same_by-laws};

    ghost laws = { same_by-laws syn_code };
}

impl Shows for Syn {
    ghost use Rattle.cg_messages.specs.Contents.{IsSyn};

    ghost Shown = { IsSyn };

    #[inline(always)]
    fn show(&self) {
        self.digests();
    }
}

impl Syn {
    /// Makes a SYN of a cluster and digests. `None` unless the digests rise strictly by endpoint and are at most
    /// `MEMBER_LIMIT`.
    pub fn new(cluster: Cluster, digests: Vec<Digest>) -> Option<Syn>
        ensures when { is_some result ≡ is_member_list (endpoints_of_digests digests.items) }
        ensures value { IfSome result (λ s. s ≡ record { cluster = cluster; digests = digests.items }) }
    {
        if !are_listed(&digests) {
            return None;
        }
        Some(Syn::of_parts(cluster, digests))
    }

    /// Makes a SYN of digests that can be in a message. It takes the list unchanged, no memory, and refuses nothing:
    /// `new` is for a list that may not be such.
    pub fn of_parts(cluster: Cluster, digests: Vec<Digest>) -> Syn
        requires { AreListed (endpoints_of_digests digests.items) }
        ensures { result ≡ record { cluster = cluster; digests = digests.items } }
    {
        show_all(&digests);
        Syn { cluster, digests }
    }

    /// The sender's cluster.
    pub fn cluster(&self) -> &Cluster
        ensures { result.now ≡ self.now.cluster }
    {
        &self.cluster
    }

    /// The digests, rising by endpoint.
    pub fn digests(&self) -> &[Digest]
        ensures value { result.now ≡ self.now.digests }
        ensures listed { AreListed (endpoints_of_digests self.now.digests) }
        ensures valid { IsSyn self.now }
    {
        &self.digests
    }

    /// The same message, which shares the cluster's name. `AllocError` if there is no memory for the digests.
    pub fn copy(&self, alloc: Global) -> Result<Syn, AllocError>
        ensures { IfOk result (λ s. s ≡ self.now) }
    {
        Ok(Syn {
            cluster: self.cluster.copy()?,
            digests: self.digests.to_vec(alloc)?,
        })
    }
}
