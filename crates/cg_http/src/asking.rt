//! The call that a request asks for.

ghost use Rattle.std.specs.Prelude.{◌≡◌, IfOk, true};
ghost use Rattle.std.specs.Option.{option_copied};
ghost use Rattle.cg_http.specs.Writes.{may_write};
ghost use Rattle.cg_http.specs.Asking as spec;
ghost use Rattle.cg_http.specs.Asking.{Asks, asked, is_write};

use crate::call::{Call, Resource};
use crate::paths::{path, query, resource_at};
use crate::queries::{replicas_in, wants_json};
use crate::refusal::Refusal;
use crate::request::Request;
use crate::writes::may_write;
use cg_text::{View, is_word, state_text_in};
use cg_types::{Fault, StateKey, TEXT_LIMIT};
use std::alloc::Global;

/// The most bytes of a body.
pub const BODY_LIMIT: usize = TEXT_LIMIT;

// The call for a query of `/replicas`, and for the form that the answer is to have.
fn replicas_call(alloc: Global, query: &[u8], is_json: bool) -> Result<Call, Refusal>
    ensures { Asks result (spec.replicas_call query.now is_json) }
{
    let Some((token, rf)) = replicas_in(alloc, query)? else {
        return Err(Refusal::Fault(Fault::BadText));
    };
    if is_json {
        Ok(Call::ReplicaList { token, rf })
    } else {
        Ok(Call::Printed(View::Replicas { token, rf }))
    }
}

// The call that sets a key to the text of a body.
fn set_call(alloc: Global, key: StateKey, body: &[u8]) -> Result<Call, Refusal>
    ensures { Asks result (spec.set_call key body.now) }
{
    match state_text_in(alloc, body) {
        Ok(text) => Ok(Call::Set { key, text }),
        Err(fault) => Err(Refusal::Fault(fault)),
    }
}

// The call that changes a key.
fn state_call(alloc: Global, key: StateKey, request: &Request<'_>) -> Result<Call, Refusal>
    ensures { Asks result (spec.state_call key request.now) }
{
    if is_word(request.method, "PUT") {
        set_call(alloc, key, request.body)
    } else {
        Ok(Call::Remove { key })
    }
}

// The call at a resource, by one of its methods.
fn call_at(alloc: Global, resource: &Resource, request: &Request<'_>) -> Result<Call, Refusal>
    ensures { Asks result (spec.call_at resource.now request.now) }
{
    match *resource {
        Resource::Page => Ok(Call::Page),
        Resource::Status => Ok(Call::Status),
        Resource::Printed(view) => Ok(Call::Printed(view)),
        Resource::Replicas => {
            replicas_call(alloc, query(request.target), wants_json(request.accept))
        }
        Resource::Metrics => Ok(Call::Metrics),
        Resource::Health => Ok(Call::Health),
        Resource::State(key) => state_call(alloc, key, request),
        Resource::Stop => Ok(Call::Stop),
    }
}

// The call at a resource, if the method is one of its own and the request may make it.
fn allowed_call(
    alloc: Global,
    resource: &Resource,
    request: &Request<'_>,
    writes: bool,
) -> Result<Call, Refusal>
    ensures { Asks result (spec.allowed_call resource.now writes request.now) }
{
    let methods = resource.methods();
    if !methods.has(request.method) {
        return Err(Refusal::NotAllowed(methods));
    }
    if methods.are_writes() && !may_write(writes, request) {
        return Err(Refusal::Forbidden);
    }
    call_at(alloc, resource, request)
}

/// Returns the call that a request asks for, where writes are allowed or not.
///
/// | Path | Method | Call |
/// |---|---|---|
/// | `/`, `/status`, `/metrics`, `/health` | `GET`, `HEAD` | `Page`, `Status`, `Metrics`, `Health` |
/// | `/gossipinfo`, `/ring`, `/digests` | the same | `Printed` |
/// | `/replicas?key=K&rf=N` | the same | `ReplicaList` if `accept` names `application/json` first, else `Printed` |
/// | `/states/KEY` | `PUT`, `DELETE` | `Set` to the body, `Remove` |
/// | `/stop` | `POST` | `Stop` |
///
/// KEY is a number or a name, K any bytes, percent-encoded, and N 0 to 2^64 - 1.
///
/// `TooLarge` first of all if the body is over `BODY_LIMIT`; then `NotFound` if the path is another, `NotAllowed` if the
/// method is another, `Forbidden` if it would write and may not. It may write where writes are allowed, `x-cg-write` is
/// 1, and `host` is an IPv4 address or `localhost`, with a port or without. At last `Fault`: `BadText` for another query
/// of `/replicas` and for a text that is not plain, `OutOfMemory` if memory runs out.
pub fn call_of(alloc: Global, request: &Request<'_>, writes: bool) -> Result<Call, Refusal>
    ensures asked { Asks result (asked writes request.now) }
    // Only who may write gets a call that does.
    ensures guarded { IfOk result (λ call. is_write call ≡ true → may_write writes request.now ≡ true) }
{
    if request.body.len() > BODY_LIMIT {
        return Err(Refusal::TooLarge);
    }
    let path = path(alloc, request.target)?;
    match resource_at(path.as_slice()) {
        Some(resource) => allowed_call(alloc, &resource, request, writes),
        None => Err(Refusal::NotFound),
    }
}
