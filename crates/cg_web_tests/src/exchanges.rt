//! Requests, and the bytes that answer them.

use crate::nodes::{Left, Serving, left_after};
use std::alloc::Global;
use std::hash::RandomState;
use std::random::RandomSource;
use std::sync::Wait;
use std::test::Fail;

/// Writes are allowed, and rounds go on.
pub(crate) const OPEN: Serving = Serving {
    writes: true,
    has_begun: true,
};

/// A request without a body, from a page of the node itself.
pub(crate) fn request(alloc: Global, line: &str) -> Result<String, Fail> {
    Ok(format!(in alloc; "{line} HTTP/1.1\r\nhost: localhost:8080\r\nx-cg-write: 1\r\n\r\n")?)
}

/// The bytes of an answer, by the framing of RFC 9112: the status line, the headers, and a body of stated length.
pub(crate) fn answer(alloc: Global, head: [&str; 3], body: &str) -> Result<String, Fail> {
    let [status, media, more] = head;
    let len = body.len();
    Ok(format!(in alloc;
        "HTTP/1.1 {status}\r\nconnection: close\r\ncache-control: no-store\r\nx-content-type-options: nosniff\r\n\
content-type: {media}\r\n{more}content-length: {len}\r\n\r\n{body}"
    )?)
}

/// Serves a connection with this input.
pub(crate) fn left<R: Wait + RandomSource>(
    rt: &R,
    alloc: Global,
    serving: Serving,
    input: &str,
) -> Result<Left, Fail> {
    left_after(rt, alloc, RandomState::new(rt)?, serving, input.as_bytes())
}

/// Returns `true` if a request is answered by these bytes.
pub(crate) fn is_answered<R: Wait + RandomSource>(
    rt: &R,
    alloc: Global,
    line: &str,
    head: [&str; 3],
    body: &str,
) -> Result<bool, Fail> {
    let left = left(rt, alloc, OPEN, request(alloc, line)?.as_str())?;
    let due = answer(alloc, head, body)?;
    Ok(left.text.as_slice() == due.as_bytes())
}
