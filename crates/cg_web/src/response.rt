//! Responses, which hold an answer.

ghost use Rattle.std.specs.Prelude.{◌≡◌, ◌∷◌, [], ◌++◌, ◌+◌, ◌<◌, ◌≤◌, ◌⊎◌, OnOk, vec_len};
ghost use Rattle.std.specs.Vec.{vec_capacity};
ghost use Rattle.http_server.specs.Response.{IsBlank, fields_of};
ghost use Rattle.cg_web.specs.Answers as spec;

use crate::answer::{Answer, Form, shortage};
use http::{HeaderName, HeaderValue};
use http_server::Response;
use std::alloc::AllocError;

// The most headers of an answer.
const HEADERS: usize = 5;

// Adds a header, for which there is room.
fn add_header(response: &mut Response, name: HeaderName, value: HeaderValue)
    requires { vec_len response.old.headers < vec_capacity response.old.headers }
    ensures headers { fields_of response.new ≡ fields_of response.old ++ (name, value.bytes) ∷ [] }
    ensures len { vec_len response.new.headers ≡ vec_len response.old.headers + 1 }
    ensures capacity { vec_capacity response.new.headers ≡ vec_capacity response.old.headers }
    ensures status { response.new.status ≡ response.old.status }
    ensures body { response.new.body ≡ response.old.body }
{
    response.headers.push_reserved((name, value));
}

/// Begins a response: it has the headers of every answer, and room for the two more that an answer may have.
#[tactic(auto, unfolding(crate::specs::Answers::first_fields))]
pub(crate) fn begin(response: &mut Response) -> Result<(), AllocError>
    requires { IsBlank response.old }
    ensures { OnOk result (spec.IsBegun response.new) }
{
    response.headers.reserve(HEADERS)?;
    add_header(
        response,
        HeaderName::from_static("connection"),
        HeaderValue::from_static("close"),
    );
    add_header(
        response,
        HeaderName::from_static("cache-control"),
        HeaderValue::from_static("no-store"),
    );
    add_header(
        response,
        HeaderName::from_static("x-content-type-options"),
        HeaderValue::from_static("nosniff"),
    );
    Ok(())
}

// Adds the header that an answer may have, for which there is room.
fn add_more(response: &mut Response, more: Option<(HeaderName, HeaderValue)>)
    requires { vec_len response.old.headers < vec_capacity response.old.headers }
    ensures headers { fields_of response.new ≡ fields_of response.old ++ spec.more_fields more }
    ensures status { response.new.status ≡ response.old.status }
    ensures body { response.new.body ≡ response.old.body }
{
    if let Some((name, value)) = more {
        add_header(response, name, value);
    }
}

// Adds the headers of an answer that not every answer has.
fn add_headers(response: &mut Response, form: Form, more: Option<(HeaderName, HeaderValue)>)
    requires { vec_len response.old.headers + 2 ≤ vec_capacity response.old.headers }
    ensures headers { fields_of response.new ≡ spec.fields_after (fields_of response.old) form more }
    ensures status { response.new.status ≡ response.old.status }
    ensures body { response.new.body ≡ response.old.body }
{
    add_header(
        response,
        HeaderName::from_static("content-type"),
        form.media_type(),
    );
    add_more(response, more);
}

// Says that memory ran out: in words, if there is memory for them.
fn fall_short(response: &mut Response)
    requires headers { fields_of response.old ≡ spec.first_fields }
    requires room { vec_len response.old.headers + 2 ≤ vec_capacity response.old.headers }
    ensures { spec.Gives spec.shortage response.new ⊎ spec.Gives (spec.plain 503 []) response.new }
{
    let Answer {
        status,
        form,
        more,
        body,
    } = shortage();
    response.status = status;
    response.body.clear();
    if response.body.push(body).is_err() {
        response.body.clear();
    }
    add_headers(response, form, more);
}

/// Fills a response that was begun with an answer, or with want of memory if there is no memory for its body.
pub(crate) fn fill(response: &mut Response, answer: Answer)
    requires { spec.IsBegun response.old }
    ensures { spec.Tells answer response.new }
{
    let Answer {
        status,
        form,
        more,
        body,
    } = answer;
    match response.body.push(body) {
        Ok(()) => {
            response.status = status;
            add_headers(response, form, more);
        }
        Err(_) => fall_short(response),
    }
}
