//! The parts of a request that say which call it asks for.

ghost use Rattle.std.specs.Prelude.{◌≡◌, codes};
ghost use Rattle.std.specs.Option.{option_copied};
ghost use Rattle.http_header.specs.Token.{lowercase};
ghost use Rattle.http_uri.specs.Uri.{uri_authority, uri_path_and_query};
ghost use Rattle.http.specs.Request.{head_of};
ghost use Rattle.cg_web.specs.Parts.{value_in, target_text, host_text, ArePartsOf};

use bytes::Bytes;
use cg_http::Request;
use http::{HeaderMap, HeaderValue, Uri};

// The first value of a header.
fn value_of<'a>(headers: &'a HeaderMap<HeaderValue>, name: &str) -> Option<&'a [u8]>
    ensures { option_copied result ≡ value_in headers.now (lowercase name.now) }
{
    match headers.get(name) {
        Some(value) => Some(value.as_bytes()),
        None => None,
    }
}

// The path and the query of a target; nothing if it has none.
fn target_of(uri: &Uri) -> &[u8]
    ensures { result.now ≡ target_text (uri_path_and_query uri.now) }
{
    match uri.path_and_query() {
        Some(target) => target.as_str().as_bytes(),
        None => &[],
    }
}

// The host that a request is sent to: that of its target if it names one, else its header.
fn host_of(request: &http::Request<Bytes>) -> Option<&[u8]>
    ensures { option_copied result
        ≡ host_text (uri_authority (head_of request.now).uri) (value_in (head_of request.now).headers (codes "host")) }
{
    match request.uri().authority() {
        Some(authority) => Some(authority.as_str().as_bytes()),
        None => value_of(request.headers(), "host"),
    }
}

/// The parts of a request.
pub(crate) fn parts_of(request: &http::Request<Bytes>) -> Request<'_>
    ensures { ArePartsOf request.now result }
{
    Request {
        method: request.method().as_str().as_bytes(),
        target: target_of(request.uri()),
        host: host_of(request),
        accept: value_of(request.headers(), "accept"),
        mark: value_of(request.headers(), "x-cg-write"),
        body: request.body().as_slice(),
    }
}
