//! Requests, and numbers by which their calls and refusals are told apart.

use cg_http::{Call, Refusal, Request, call_of};
use std::alloc::Global;

/// A request that may write, if writes are allowed.
pub(crate) fn request<'a>(method: &'a str, target: &'a str, body: &'a [u8]) -> Request<'a> {
    Request {
        method: method.as_bytes(),
        target: target.as_bytes(),
        host: Some("127.0.0.1:8080".as_bytes()),
        accept: None,
        mark: Some("1".as_bytes()),
        body,
    }
}

// A number below 20 for each call.
fn number_of(call: &Call) -> u16 {
    match call {
        Call::Page => 1,
        Call::Status => 2,
        Call::Printed(_) => 3,
        Call::ReplicaList { .. } => 4,
        Call::Metrics => 5,
        Call::Health => 6,
        Call::Set { .. } => 7,
        Call::Remove { .. } => 8,
        Call::Stop => 9,
    }
}

/// The number of the call that a request asks for, or the status of its refusal.
pub(crate) fn told(alloc: Global, request: &Request<'_>, writes: bool) -> u16 {
    match call_of(alloc, request, writes) {
        Ok(call) => number_of(&call),
        Err(refusal) => refusal.status(),
    }
}

/// The same of a method and a target, where writes are allowed.
pub(crate) fn asked(alloc: Global, method: &str, target: &str) -> u16 {
    told(alloc, &request(method, target, b"text"), true)
}

/// The refusal of a request, where writes are allowed.
pub(crate) fn refusal_of(alloc: Global, request: &Request<'_>) -> Option<Refusal> {
    match call_of(alloc, request, true) {
        Ok(_) => None,
        Err(refusal) => Some(refusal),
    }
}
