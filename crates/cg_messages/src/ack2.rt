//! The answer to an ACK.

ghost use Rattle.std.specs.Prelude.{◌≡◌, ◌↔◌, IsTrue, IfOk, IfSome, is_some};
ghost use Rattle.cg_messages.specs.Members.{AreListed, is_member_list, endpoints_of_deltas};
ghost use Rattle.cg_messages.specs.Contents.{IsAck2};

use crate::owned::are_listed;
use crate::owner_delta::{OwnerDelta, copies};
use cg_types::{Shows, show_all};
use std::alloc::{AllocError, Global};
use std::marker::Model;

/// An answer to an ACK: the deltas for its sender's requests (Apache Cassandra's `GossipDigestAck2`). They rise
/// strictly by endpoint and are at most `MEMBER_LIMIT`.
#[derive(Debug, Drop)]
pub struct Ack2 {
    deltas: Vec<OwnerDelta>,
}

impl Model for Ack2 {
    ghost use Rattle.cg_messages.specs.Values.{Ack2Value, ack2_code};
    ghost use Rattle.cg_messages.specs.Contents.{IsAck2};

    ghost Value = { Ack2Value };

    ghost coded = { ack2_code };

    ghost view = { λ a. record { deltas = a.deltas.items } };

    ghost invariant = { λ a. IsAck2 (record { deltas = a.deltas.items }) };
}

impl PartialEq for Ack2 {
    ghost use Rattle.cg_messages.specs.Values.{ack2_code};
    ghost use Rattle.cg_types.specs.Equality.{same_by, same_by-partial};

    ghost eq = { same_by ack2_code };

    ghost laws = { same_by-partial ack2_code };

    /// Returns `true` if both have the same deltas.
    fn eq(&self, other: &Ack2) -> bool
        ensures { IsTrue result ↔ (self.now ≡ other.now) }
    {
        self.deltas == other.deltas
    }
}

impl Eq for Ack2 {
    ghost use Rattle.cg_messages.specs.Values.{ack2_code};
    ghost use Rattle.cg_types.specs.Equality.{same_by-laws};

    ghost laws = { same_by-laws ack2_code };
}

impl Shows for Ack2 {
    ghost use Rattle.cg_messages.specs.Contents.{IsAck2};

    ghost Shown = { IsAck2 };

    #[inline(always)]
    fn show(&self) {
        self.deltas();
    }
}

impl Ack2 {
    /// Makes an ACK2 of its deltas. `None` unless they rise strictly by endpoint and are at most `MEMBER_LIMIT`.
    pub fn new(deltas: Vec<OwnerDelta>) -> Option<Ack2>
        ensures when { is_some result ≡ is_member_list (endpoints_of_deltas deltas.items) }
        ensures value { IfSome result (λ a. a ≡ record { deltas = deltas.items }) }
    {
        if !are_listed(&deltas) {
            return None;
        }
        Some(Ack2::of_parts(deltas))
    }

    /// Makes an ACK2 of deltas that can be in a message. It takes the list unchanged, no memory, and refuses nothing:
    /// `new` is for a list that may not be such.
    pub fn of_parts(deltas: Vec<OwnerDelta>) -> Ack2
        requires { AreListed (endpoints_of_deltas deltas.items) }
        ensures { result ≡ record { deltas = deltas.items } }
    {
        show_all(&deltas);
        Ack2 { deltas }
    }

    /// The deltas for the sender of the ACK, rising by endpoint.
    pub fn deltas(&self) -> &[OwnerDelta]
        ensures value { result.now ≡ self.now.deltas }
        ensures listed { AreListed (endpoints_of_deltas self.now.deltas) }
        ensures valid { IsAck2 self.now }
    {
        &self.deltas
    }

    /// The same answer, which shares the texts of its states. `AllocError` if there is no memory for its deltas.
    pub fn copy(&self, alloc: Global) -> Result<Ack2, AllocError>
        ensures { IfOk result (λ a. a ≡ self.now) }
    {
        Ok(Ack2 {
            deltas: copies(alloc, &self.deltas)?,
        })
    }
}
