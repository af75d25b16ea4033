//! The answer to a SYN.

ghost use Rattle.std.specs.Prelude.{◌≡◌, ◌&&◌, ◌↔◌, IsTrue, IfOk, IfSome, is_some};
ghost use Rattle.cg_messages.specs.Members.{AreListed, is_member_list, endpoints_of_requests, endpoints_of_deltas};
ghost use Rattle.cg_messages.specs.Contents.{IsAck};

use crate::owned::are_listed;
use crate::owner_delta::{OwnerDelta, copies};
use crate::request::Request;
use cg_types::{Shows, show_all};
use std::alloc::{AllocError, Global};
use std::marker::Model;

/// An answer to a SYN: requests to its sender, and deltas for it (Apache Cassandra's `GossipDigestAck`). Both lists
/// rise strictly by endpoint and have at most `MEMBER_LIMIT` members.
#[derive(Debug, Drop)]
pub struct Ack {
    requests: Vec<Request>,
    deltas: Vec<OwnerDelta>,
}

impl Model for Ack {
    ghost use Rattle.cg_messages.specs.Values.{AckValue, ack_code};
    ghost use Rattle.cg_messages.specs.Contents.{IsAck};

    ghost Value = { AckValue };

    ghost coded = { ack_code };

    ghost view = { λ a. record { requests = a.requests.items; deltas = a.deltas.items } };

    ghost invariant = { λ a. IsAck (record { requests = a.requests.items; deltas = a.deltas.items }) };
}

impl PartialEq for Ack {
    ghost use Rattle.cg_messages.specs.Values.{ack_code};
    ghost use Rattle.cg_types.specs.Equality.{same_by, same_by-partial};

    ghost eq = { same_by ack_code };

    ghost laws = { same_by-partial ack_code };

    /// Returns `true` if both have the same requests and the same deltas.
    fn eq(&self, other: &Ack) -> bool
        ensures { IsTrue result ↔ (self.now ≡ other.now) }
    {
        self.requests == other.requests && self.deltas == other.deltas
    }
}

impl Eq for Ack {
    ghost use Rattle.cg_messages.specs.Values.{ack_code};
    ghost use Rattle.cg_types.specs.Equality.{same_by-laws};

    ghost laws = { same_by-laws ack_code };
}

impl Shows for Ack {
    ghost use Rattle.cg_messages.specs.Contents.{IsAck};

    ghost Shown = { IsAck };

    #[inline(always)]
    fn show(&self) {
        self.deltas();
    }
}

impl Ack {
    /// Makes an ACK of its two lists. `None` unless each list rises strictly by endpoint and has at most `MEMBER_LIMIT`
    /// members.
    pub fn new(requests: Vec<Request>, deltas: Vec<OwnerDelta>) -> Option<Ack>
        ensures when { is_some result
            ≡ (is_member_list (endpoints_of_requests requests.items)
            && is_member_list (endpoints_of_deltas deltas.items)) }
        ensures value { IfSome result (λ a. a ≡ record { requests = requests.items; deltas = deltas.items }) }
    {
        if !are_listed(&requests) || !are_listed(&deltas) {
            return None;
        }
        Some(Ack::of_parts(requests, deltas))
    }

    /// Makes an ACK of lists that can be in a message. It takes the lists unchanged, no memory, and refuses nothing:
    /// `new` is for lists that may not be such.
    pub fn of_parts(requests: Vec<Request>, deltas: Vec<OwnerDelta>) -> Ack
        requires requests { AreListed (endpoints_of_requests requests.items) }
        requires deltas { AreListed (endpoints_of_deltas deltas.items) }
        ensures { result ≡ record { requests = requests.items; deltas = deltas.items } }
    {
        show_all(&requests);
        show_all(&deltas);
        Ack { requests, deltas }
    }

    /// The requests to the sender of the SYN, rising by endpoint.
    pub fn requests(&self) -> &[Request]
        ensures value { result.now ≡ self.now.requests }
        ensures listed { AreListed (endpoints_of_requests self.now.requests) }
        ensures valid { IsAck self.now }
    {
        &self.requests
    }

    /// The deltas for the sender of the SYN, rising by endpoint.
    pub fn deltas(&self) -> &[OwnerDelta]
        ensures value { result.now ≡ self.now.deltas }
        ensures listed { AreListed (endpoints_of_deltas self.now.deltas) }
        ensures valid { IsAck self.now }
    {
        &self.deltas
    }

    /// The same answer, which shares the texts of its states. `AllocError` if there is no memory for its lists.
    pub fn copy(&self, alloc: Global) -> Result<Ack, AllocError>
        ensures { IfOk result (λ a. a ≡ self.now) }
    {
        Ok(Ack {
            requests: self.requests.to_vec(alloc)?,
            deltas: copies(alloc, &self.deltas)?,
        })
    }
}
