//! Requests that are refused.

use crate::exchanges::{OPEN, answer, is_answered, left};
use crate::nodes::Serving;
use cg_testing::expect_eq;
use std::alloc::Global;
use std::random::RandomSource;
use std::sync::Wait;
use std::test::Fail;

const TEXT: &str = "text/plain; charset=utf-8";

#[test]
fn other_paths_and_methods_are_refused(rt: HostRuntime) -> Result<(), Fail> {
    let alloc = rt.alloc();
    let status = "405 Method Not Allowed";
    let words = "method not allowed\n";
    let found = [
        is_answered(
            &rt,
            alloc,
            "GET /states",
            ["404 Not Found", TEXT, ""],
            "not found\n",
        )?,
        is_answered(
            &rt,
            alloc,
            "OPTIONS /status",
            [status, TEXT, "allow: GET, HEAD\r\n"],
            words,
        )?,
        is_answered(
            &rt,
            alloc,
            "POST /states/3",
            [status, TEXT, "allow: PUT, DELETE\r\n"],
            words,
        )?,
        is_answered(
            &rt,
            alloc,
            "GET /stop",
            [status, TEXT, "allow: POST\r\n"],
            words,
        )?,
    ];
    expect_eq!(found, [true; 4])
}

// Whether a write is forbidden, and changed nothing.
fn is_forbidden<R: Wait + RandomSource>(
    rt: &R,
    alloc: Global,
    writes: bool,
    headers: &str,
) -> Result<bool, Fail> {
    let input = format!(in alloc;
        "PUT /states/3 HTTP/1.1\r\n{headers}content-length: 2\r\n\r\n42"
    )?;
    let serving = Serving {
        writes,
        has_begun: true,
    };
    let left = left(rt, alloc, serving, input.as_str())?;
    let due = answer(alloc, ["403 Forbidden", TEXT, ""], "forbidden\n")?;
    Ok(left.text.as_slice() == due.as_bytes() && left.records == 0)
}

#[test]
fn writes_of_other_pages_are_forbidden(rt: HostRuntime) -> Result<(), Fail> {
    let alloc = rt.alloc();
    let found = [
        is_forbidden(&rt, alloc, true, "host: localhost\r\n")?,
        is_forbidden(&rt, alloc, true, "host: evil.example\r\nx-cg-write: 1\r\n")?,
        is_forbidden(&rt, alloc, false, "host: localhost\r\nx-cg-write: 1\r\n")?,
        is_forbidden(&rt, alloc, true, "host: localhost\r\nx-cg-write: 1\r\n")?,
    ];
    expect_eq!(found, [true, true, true, false])
}

// The status with which an input is refused before it is a request.
fn status_of<R: Wait + RandomSource>(rt: &R, alloc: Global, input: &str) -> Result<[u8; 3], Fail> {
    let left = left(rt, alloc, OPEN, input)?;
    match left.text.as_slice() {
        [
            b'H',
            b'T',
            b'T',
            b'P',
            b'/',
            b'1',
            b'.',
            b'1',
            b' ',
            a,
            b,
            c,
            ..
        ] => Ok([*a, *b, *c]),
        _ => Ok([0; 3]),
    }
}

#[test]
fn no_requests_are_refused(rt: HostRuntime) -> Result<(), Fail> {
    let alloc = rt.alloc();
    let long = "x".repeat(alloc, 17_408)?;
    let head = format!(in alloc; "GET / HTTP/1.1\r\nhost: x\r\ny: {long}\r\n\r\n")?;
    let body = "GET / HTTP/1.1\r\nhost: x\r\ncontent-length: 4097\r\n\r\n";
    let found = [
        status_of(&rt, alloc, "GET\r\n\r\n")?,
        status_of(&rt, alloc, body)?,
        status_of(&rt, alloc, head.as_str())?,
    ];
    expect_eq!(found, [*b"400", *b"413", *b"431"])
}
