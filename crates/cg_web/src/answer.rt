//! Answers, and those that need no table.

ghost use Rattle.std.specs.Prelude.{◌≡◌, IfOk, string_bytes};
ghost use Rattle.http_header.specs.FieldValue.{plain_value};
ghost use Rattle.cg_web.specs.Answers as spec;

use bytes::Bytes;
use cg_http::Refusal;
use cg_types::OUT_OF_MEMORY_LINE;
use http::{HeaderName, HeaderValue, StatusCode};
use std::alloc::{AllocError, Global};

/// The form of an answer's body.
#[derive(Clone, Copy, Debug, PartialEq, Eq)]
pub enum Form {
    /// Plain text.
    Text,
    /// JSON.
    Json,
    /// The text format of Prometheus.
    Metrics,
    /// HTML.
    Page,
}

impl Form {
    /// The value of the header `content-type`.
    #[tactic(auto, unfolding(crate::specs::Answers::media_type))]
    pub(crate) fn media_type(self) -> HeaderValue
        ensures { result ≡ plain_value (spec.media_type self) }
    {
        match self {
            Form::Text => HeaderValue::from_static("text/plain; charset=utf-8"),
            Form::Json => HeaderValue::from_static("application/json"),
            Form::Metrics => HeaderValue::from_static("text/plain; version=0.0.4; charset=utf-8"),
            Form::Page => HeaderValue::from_static("text/html; charset=utf-8"),
        }
    }
}

/// An answer to a request: what is its own in the response.
#[derive(Debug, Drop)]
pub struct Answer {
    /// The status.
    pub status: StatusCode,
    /// The form of the body.
    pub form: Form,
    /// A header that only this answer has.
    pub more: Option<(HeaderName, HeaderValue)>,
    /// The body.
    pub body: Bytes,
}

/// An answer of 200 with a body.
pub(crate) fn found(form: Form, body: Bytes) -> Answer
    ensures { result ≡ spec.answer_of 200 form body }
{
    Answer {
        status: StatusCode::OK,
        form,
        more: None,
        body,
    }
}

/// An answer of 200 that is plain text.
pub(crate) fn told(text: String) -> Result<Answer, AllocError>
    ensures { IfOk result (λ a. a ≡ spec.plain 200 (string_bytes text)) }
{
    Ok(found(Form::Text, Bytes::from_string(text)?))
}

/// The answer if memory runs out: 503. It needs no memory.
pub fn shortage() -> Answer
    ensures { result ≡ spec.shortage }
{
    Answer {
        status: StatusCode::SERVICE_UNAVAILABLE,
        form: Form::Text,
        more: None,
        body: Bytes::from_static(OUT_OF_MEMORY_LINE),
    }
}

/// The answer of a node that is to stop.
#[tactic(auto, unfolding(crate::specs::Answers::stopping))]
pub fn stopping() -> Answer
    ensures { result ≡ spec.stopping }
{
    found(Form::Text, Bytes::from_static("stopping\n".as_bytes()))
}

/// The health: 200 if rounds go on, else 503.
#[tactic(auto, unfolding(crate::specs::Answers::health))]
pub fn health(goes_on: bool) -> Answer
    ensures { result ≡ spec.health goes_on }
{
    if goes_on {
        return found(Form::Text, Bytes::from_static("ok\n".as_bytes()));
    }
    Answer {
        status: StatusCode::SERVICE_UNAVAILABLE,
        form: Form::Text,
        more: None,
        body: Bytes::from_static("no round for three intervals\n".as_bytes()),
    }
}

// The header `allow`, where a path has other methods.
#[tactic(auto, unfolding(crate::specs::Answers::allowed))]
fn allowed(alloc: Global, refusal: Refusal) -> Result<Option<(HeaderName, HeaderValue)>, AllocError>
    ensures { IfOk result (λ more. more ≡ spec.allowed refusal) }
{
    match refusal {
        Refusal::NotAllowed(methods) => match HeaderValue::from_str(alloc, methods.allow()) {
            Ok(value) => Ok(Some((HeaderName::from_static("allow"), value))),
            Err(_) => Err(AllocError),
        },
        _ => Ok(None),
    }
}

// The answer of a refusal. Each number of a refusal is one of a status.
fn refusal_answer(alloc: Global, refusal: Refusal) -> Result<Answer, AllocError>
    ensures { IfOk result (λ a. a ≡ spec.refusal_answer refusal) }
{
    let Ok(status) = StatusCode::from_u16(refusal.status()) else {
        return Err(AllocError);
    };
    let more = allowed(alloc, refusal)?;
    let body = refusal.body(alloc)?;
    Ok(Answer {
        status,
        form: Form::Text,
        more,
        body: Bytes::from_string(body)?,
    })
}

/// The answer of a refusal, or the one of want of memory if its body finds none.
pub fn refused(alloc: Global, refusal: Refusal) -> Answer
    ensures { spec.Refuses refusal result }
{
    match refusal_answer(alloc, refusal) {
        Ok(answer) => answer,
        Err(_) => shortage(),
    }
}
