//! The query of `/replicas`, and the form in which its answer is wanted.

ghost use Rattle.std.specs.Prelude.{◌≡◌, IfOk, bytes_eq, option_map};
ghost use Rattle.std.specs.Option.{option_copied};
ghost use Rattle.cg_http.specs.Queries as spec;

use crate::paths::front;
use cg_text::{count_in, is_word};
use cg_tokens::{Token, token_of};
use cg_types::cut;
use percent_encoding::percent_decode;
use std::alloc::{AllocError, Global};

// The value of `NAME=VALUE`.
#[tactic(auto, unfolding(crate::specs::Queries::value_of))]
fn value_of<'a>(name: &str, pair: &'a [u8]) -> Option<&'a [u8]>
    ensures { option_map (λ v. v.now) result ≡ spec.value_of name.now pair.now }
{
    let (word, value) = cut(pair, b'=')?;
    if is_word(word, name) {
        Some(value)
    } else {
        None
    }
}

// The words of `key=K&rf=N`: K as it stands there, and N.
#[tactic(auto, unfolding(crate::specs::Queries::words_in))]
fn words_in(query: &[u8]) -> Option<(&[u8], u64)>
    ensures { option_map (λ p. (p.0.now, p.1)) result ≡ spec.words_in query.now }
{
    let (key, rf) = cut(query, b'&')?;
    let key = value_of("key", key)?;
    let rf = value_of("rf", rf)?;
    let rf = count_in(rf)?;
    Some((key, rf))
}

/// Reads a query `key=K&rf=N`: the token of the bytes that K decodes to, and the number of replicas.
#[tactic(auto, unfolding(crate::specs::Queries::replicas_in))]
pub(crate) fn replicas_in(alloc: Global, query: &[u8]) -> Result<Option<(Token, u64)>, AllocError>
    ensures { IfOk result (λ r. r ≡ spec.replicas_in query.now) }
{
    let Some((key, rf)) = words_in(query) else {
        return Ok(None);
    };
    let mut bytes = Vec::new(alloc);
    percent_decode(key).append_to(&mut bytes)?;
    Ok(Some((token_of(bytes.as_slice()), rf)))
}

/// Returns `true` if the header `accept` names `application/json` first.
pub(crate) fn wants_json(accept: Option<&[u8]>) -> bool
    ensures { result ≡ spec.wants_json (option_copied accept.entry) }
{
    match accept {
        Some(accept) => is_word(front(front(accept, b','), b';'), "application/json"),
        None => false,
    }
}
