//! The marks by which a request may write.

ghost use Rattle.std.specs.Prelude.{◌≡◌, bytes_eq, option_map, is_some, ◌&&◌, ◌||◌};
ghost use Rattle.std.specs.Option.{option_copied};
ghost use Rattle.cg_http.specs.Writes as spec;

use crate::paths::front;
use crate::request::Request;
use cg_text::is_word;
use cg_types::{cut, number};

// The text after the first dot, if the text before it is a number of at most 255.
#[tactic(auto, unfolding(crate::specs::Writes::after_octet))]
fn after_octet(text: &[u8]) -> Option<&[u8]>
    ensures { option_map (λ t. t.now) result ≡ spec.after_octet text.now }
{
    let (octet, rest) = cut(text, b'.')?;
    number(octet, 255)?;
    Some(rest)
}

// The text behind the first three numbers of an address.
#[tactic(auto, unfolding(crate::specs::Writes::last_octet))]
fn last_octet(text: &[u8]) -> Option<&[u8]>
    ensures { option_map (λ t. t.now) result ≡ spec.last_octet text.now }
{
    let rest = after_octet(text)?;
    let rest = after_octet(rest)?;
    after_octet(rest)
}

// Returns `true` if the text is four numbers of at most 255, with dots between.
fn is_address(text: &[u8]) -> bool
    ensures { result ≡ spec.is_address text.now }
{
    match last_octet(text) {
        Some(octet) => number(octet, 255).is_some(),
        None => false,
    }
}

// Returns `true` if the header `host` names an address or `localhost`.
fn is_near(host: Option<&[u8]>) -> bool
    ensures { result ≡ spec.is_near (option_copied host.entry) }
{
    match host {
        Some(host) => {
            let name = front(host, b':');
            is_address(name) || is_word(name, "localhost")
        }
        None => false,
    }
}

// Returns `true` if the header `x-cg-write` is 1.
fn is_marked(mark: Option<&[u8]>) -> bool
    ensures { result ≡ spec.is_marked (option_copied mark.entry) }
{
    match mark {
        Some(mark) => is_word(mark, "1"),
        None => false,
    }
}

/// Returns `true` if the request may write where writes are allowed, or not.
pub(crate) fn may_write(writes: bool, request: &Request<'_>) -> bool
    ensures { result ≡ spec.may_write writes request.now }
{
    writes && is_marked(request.mark) && is_near(request.host)
}
