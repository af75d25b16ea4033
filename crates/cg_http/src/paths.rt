//! Targets, and the resources that paths name.

ghost use Rattle.std.specs.Prelude.{◌≡◌, IfOk, bytes_eq, take, drop};
ghost use Rattle.cg_http.specs.Paths as spec;

use crate::call::Resource;
use cg_text::{View, is_word};
use cg_types::{STATE_LIMIT, StateKey, cut};
use percent_encoding::percent_decode;
use std::alloc::{AllocError, Global};

/// The part before the first byte `at`, or all if there is none.
pub(crate) fn front(text: &[u8], at: u8) -> &[u8]
    ensures { result.now ≡ spec.front_of at text.now }
{
    match cut(text, at) {
        Some((front, _)) => front,
        None => text,
    }
}

/// The query of a target: the part after its first question mark.
pub(crate) fn query(target: &[u8]) -> &[u8]
    ensures { result.now ≡ spec.query_of target.now }
{
    match cut(target, b'?') {
        Some((_, query)) => query,
        None => &[],
    }
}

/// The path of a target: the part before its first question mark, decoded.
pub(crate) fn path(alloc: Global, target: &[u8]) -> Result<Vec<u8>, AllocError>
    ensures { IfOk result (λ path. path.items ≡ spec.path_of target.now) }
{
    let mut path = Vec::new(alloc);
    percent_decode(front(target, b'?')).append_to(&mut path)?;
    Ok(path)
}

// The key of a name, as `STATUS`.
fn key_named(name: &[u8]) -> Option<StateKey>
    ensures { result ≡ spec.key_named name.now }
{
    for number in 1..STATE_LIMIT + 1 {
        let key = StateKey::new(number)?;
        if is_word(name, key.name()) {
            return Some(key);
        }
    }
    None
}

// The key of a number or a name.
fn key_called(word: &[u8]) -> Option<StateKey>
    ensures { result ≡ spec.key_called word.now }
{
    match StateKey::from_bytes(word) {
        Some(key) => Some(key),
        None => key_named(word),
    }
}

// The state of a path `/states/KEY`.
fn state_at(path: &[u8]) -> Option<Resource>
    ensures { result ≡ spec.state_at path.now }
{
    let word = path.strip_prefix("/states/".as_bytes())?;
    let key = key_called(word)?;
    Some(Resource::State(key))
}

// The printed form of a path.
#[tactic(auto, unfolding(crate::specs::Paths::printed_at))]
fn printed_at(path: &[u8]) -> Option<Resource>
    ensures { result ≡ spec.printed_at path.now }
{
    if is_word(path, "/gossipinfo") {
        return Some(Resource::Printed(View::Gossipinfo));
    }
    if is_word(path, "/ring") {
        return Some(Resource::Printed(View::Ring));
    }
    if is_word(path, "/digests") {
        return Some(Resource::Printed(View::Digests));
    }
    state_at(path)
}

/// The resource of a path.
#[tactic(auto, unfolding(crate::specs::Paths::resource_at))]
pub(crate) fn resource_at(path: &[u8]) -> Option<Resource>
    ensures { result ≡ spec.resource_at path.now }
{
    if is_word(path, "/") {
        return Some(Resource::Page);
    }
    if is_word(path, "/status") {
        return Some(Resource::Status);
    }
    if is_word(path, "/replicas") {
        return Some(Resource::Replicas);
    }
    if is_word(path, "/metrics") {
        return Some(Resource::Metrics);
    }
    if is_word(path, "/health") {
        return Some(Resource::Health);
    }
    if is_word(path, "/stop") {
        return Some(Resource::Stop);
    }
    printed_at(path)
}
