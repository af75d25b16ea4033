//! An answer to a SYN whose deltas are borrowed from a table: with it an answer is written without a copy of them.

ghost use Rattle.std.specs.Prelude.{◌≡◌, IfOk};
ghost use Rattle.cg_messages.specs.Contents.{IsAck};
ghost use Rattle.cg_messages.specs.Members.{AreListed, endpoints_of_requests, endpoints_of_deltas};

use crate::ack::Ack;
use crate::owner_delta::OwnerDelta;
use crate::request::Request;
use cg_entry::BorrowedDelta;
use cg_types::{Endpoint, Owned, Shows, show_all};
use std::alloc::{AllocError, Global};
use std::marker::Model;

/// A delta where its entry keeps it, and the endpoint that it is about.
#[derive(Drop)]
pub struct BorrowedOwnerDelta<'a> {
    endpoint: Endpoint,
    delta: BorrowedDelta<'a>,
}

/// A contract sees the delta about its endpoint.
impl<'a> Model for BorrowedOwnerDelta<'a> {
    ghost use Rattle.cg_messages.specs.declared.owner_delta.OwnerDelta.{OwnerDelta};
    ghost use Rattle.cg_messages.specs.Values.{owner_delta_code};
    ghost use Rattle.cg_messages.specs.Members.{about};

    ghost Value = { OwnerDelta };

    ghost coded = { owner_delta_code };

    ghost view = { λ d. about d.endpoint d.delta };
}

impl Owned for BorrowedOwnerDelta<'_> {
    ghost owner_of = { λ d. d.endpoint };

    fn owner(&self) -> Endpoint {
        self.endpoint
    }
}

impl Shows for BorrowedOwnerDelta<'_> {
    ghost use Rattle.cg_messages.specs.Contents.{IsOwnerDelta};

    ghost Shown = { IsOwnerDelta };

    #[inline(always)]
    fn show(&self) {
        self.endpoint.show();
        self.delta.show();
    }
}

impl<'a> BorrowedOwnerDelta<'a> {
    ghost use Rattle.cg_messages.specs.Members.{about};

    /// A borrowed delta about an endpoint.
    pub fn new(endpoint: Endpoint, delta: BorrowedDelta<'a>) -> BorrowedOwnerDelta<'a>
        ensures { result ≡ about endpoint delta.entry }
    {
        BorrowedOwnerDelta { endpoint, delta }
    }

    /// The endpoint that the delta is about.
    pub fn endpoint(&self) -> Endpoint
        ensures { result ≡ self.now.endpoint }
    {
        self.endpoint
    }

    /// The same delta about the same endpoint, made as `BorrowedDelta::to_owned` makes it.
    pub fn to_owned(&self, alloc: Global) -> Result<OwnerDelta, AllocError>
        ensures { IfOk result (λ d. d ≡ self.now) }
    {
        Ok(OwnerDelta {
            endpoint: self.endpoint,
            delta: self.delta.to_owned(alloc)?,
        })
    }

    /// The delta.
    pub fn delta(&self) -> &BorrowedDelta<'a>
        ensures { result.now ≡ self.now.delta }
    {
        &self.delta
    }
}

fn owned(alloc: Global, deltas: &[BorrowedOwnerDelta<'_>]) -> Result<Vec<OwnerDelta>, AllocError>
    ensures { IfOk result (λ v. v.items ≡ deltas.now) }
{
    let mut owned = Vec::with_capacity(alloc, deltas.len())?;
    for sent in deltas {
        owned.push(sent.to_owned(alloc)?)?;
    }
    Ok(owned)
}

/// An answer to a SYN, as `Ack` is, whose deltas lie where the entries of a table keep them.
#[derive(Drop)]
pub struct BorrowedAck<'a> {
    requests: Vec<Request>,
    deltas: Vec<BorrowedOwnerDelta<'a>>,
}

/// A contract sees the ACK.
impl<'a> Model for BorrowedAck<'a> {
    ghost use Rattle.cg_messages.specs.Values.{AckValue, ack_code};
    ghost use Rattle.cg_messages.specs.Contents.{IsAck};

    ghost Value = { AckValue };

    ghost coded = { ack_code };

    ghost view = { λ a. record { requests = a.requests.items; deltas = a.deltas.items } };

    ghost invariant = { λ a. IsAck (record { requests = a.requests.items; deltas = a.deltas.items }) };
}

impl<'a> BorrowedAck<'a> {
    /// Makes an ACK of lists that can be in a message, as `Ack::of_parts` does.
    pub fn of_parts(requests: Vec<Request>, deltas: Vec<BorrowedOwnerDelta<'a>>) -> BorrowedAck<'a>
        requires requests { AreListed (endpoints_of_requests requests.items) }
        requires deltas { AreListed (endpoints_of_deltas deltas.items) }
        ensures { result ≡ record { requests = requests.items; deltas = deltas.entry.items } }
    {
        show_all(&requests);
        show_all(&deltas);
        BorrowedAck { requests, deltas }
    }

    /// The same ACK, whose deltas share the texts of the entries. `AllocError` if there is no memory for its list, or for a
    /// block of newer states.
    pub fn into_owned(self, alloc: Global) -> Result<Ack, AllocError>
        ensures { IfOk result (λ a. a ≡ self.entry) }
    {
        let deltas = owned(alloc, &self.deltas)?;
        Ok(Ack::of_parts(self.requests, deltas))
    }

    /// The requests to the sender of the SYN, rising by endpoint.
    pub fn requests(&self) -> &[Request]
        ensures value { result.now ≡ self.now.requests }
        ensures valid { IsAck self.now }
    {
        &self.requests
    }

    /// The deltas for the sender of the SYN, rising by endpoint.
    pub fn deltas(&self) -> &[BorrowedOwnerDelta<'a>]
        ensures value { result.now ≡ self.now.deltas }
        ensures valid { IsAck self.now }
    {
        &self.deltas
    }
}
