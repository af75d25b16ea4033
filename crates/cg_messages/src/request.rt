//! Requests.

ghost use Rattle.std.specs.Prelude.{◌≡◌, ◌↔◌, IsSome, IfSome};
ghost use Rattle.cg_types.specs.Numbers.{IsVersionHeld};

use cg_types::{Endpoint, Generation, NUMBER_LIMIT, Shows};
use std::marker::Model;

/// A request for the part of an endpoint's entry above a version of a generation, or for the whole entry at version 0.
/// It is a `GossipDigest` in the list of Apache Cassandra's `GossipDigestAck`.
#[derive(Clone, Copy, Debug, PartialEq, Eq)]
pub struct Request {
    endpoint: Endpoint,
    generation: Generation,
    version: u32,
}

impl Model for Request {
    ghost use Rattle.cg_types.specs.Numbers.{IsVersionHeld};
    ghost use Rattle.cg_messages.specs.Values.{RequestValue};

    ghost Value = { RequestValue };

    ghost view = { λ r. record { endpoint = r.endpoint; generation = r.generation; version = r.version } };

    ghost invariant = { λ r. IsVersionHeld r.version };

    ghost inverse = { λ r. record { endpoint = r.endpoint; generation = r.generation; version = r.version } };
}

impl Shows for Request {
    ghost use Rattle.cg_messages.specs.Contents.{IsRequest};

    ghost Shown = { IsRequest };

    #[inline(always)]
    fn show(&self) {
        self.endpoint.show();
        self.generation.show();
        self.version();
    }
}

impl Request {
    /// Makes a request. `None` if `version` is neither a version nor 0.
    pub fn new(endpoint: Endpoint, generation: Generation, version: u32) -> Option<Request>
        ensures valid { IsSome result ↔ IsVersionHeld version }
        ensures value { IfSome result (λ r.
            r ≡ record { endpoint = endpoint; generation = generation; version = version }) }
    {
        if version >= NUMBER_LIMIT {
            return None;
        }
        Some(Request {
            endpoint,
            generation,
            version,
        })
    }

    /// The endpoint whose entry is requested.
    pub fn endpoint(self) -> Endpoint
        ensures { result ≡ self.endpoint }
    {
        self.endpoint
    }

    /// The generation that is requested.
    pub fn generation(self) -> Generation
        ensures { result ≡ self.generation }
    {
        self.generation
    }

    /// The greatest version of the generation that the sender of the request holds, or 0 if it holds nothing of it.
    pub fn version(self) -> u32
        ensures value { result ≡ self.version }
        ensures range { IsVersionHeld result }
    {
        self.version
    }
}
