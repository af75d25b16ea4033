//! Requests that are answered.

use crate::exchanges::{OPEN, answer, is_answered, left, request};
use crate::nodes::Serving;
use cg_testing::expect_eq;
use std::alloc::Global;
use std::random::RandomSource;
use std::sync::Wait;
use std::test::Fail;

const TEXT: &str = "text/plain; charset=utf-8";

#[test]
fn views_are_answered(rt: HostRuntime) -> Result<(), Fail> {
    let alloc = rt.alloc();
    let head = ["200 OK", TEXT, ""];
    let info = "/10.0.0.1:7000\n  generation:9\n  heartbeat:1\n";
    let found = [
        is_answered(&rt, alloc, "GET /gossipinfo", head, info)?,
        is_answered(&rt, alloc, "GET /ring", head, "")?,
        is_answered(&rt, alloc, "GET /replicas?key=k1&rf=3", head, "")?,
        is_answered(&rt, alloc, "GET /health", head, "ok\n")?,
    ];
    expect_eq!(found, [true; 4])
}

// The first bytes of the answer to a request, as many as those that are due, and whether the rest has these words.
fn is_like<R: Wait + RandomSource>(
    rt: &R,
    alloc: Global,
    line: &str,
    head: [&str; 2],
    words: &str,
) -> Result<bool, Fail> {
    let left = left(rt, alloc, OPEN, request(alloc, line)?.as_str())?;
    let [media, more] = head;
    let due = format!(in alloc;
        "HTTP/1.1 200 OK\r\nconnection: close\r\ncache-control: no-store\r\nx-content-type-options: nosniff\r\n\
content-type: {media}\r\n{more}content-length: "
    )?;
    let text = left.text.as_slice();
    let count = words.len().max(1);
    let has_words = text.windows(count).any(|it| it == words.as_bytes());
    Ok(text.starts_with(due.as_bytes()) && has_words)
}

#[test]
fn documents_are_answered(rt: HostRuntime) -> Result<(), Fail> {
    let alloc = rt.alloc();
    let metrics = ["text/plain; version=0.0.4; charset=utf-8", ""];
    let policy =
        "content-security-policy: default-src 'none'; connect-src 'self'; style-src 'unsafe-inline'; \
script-src 'sha256-kqxTOTDTHx2sDcQ9xwkwPwJzos6ZQnAamaO3wwYQJxE='; base-uri 'none'; form-action 'none'; frame-ancestors 'none'\r\n";
    let found = [
        is_like(
            &rt,
            alloc,
            "GET /",
            ["text/html; charset=utf-8", policy],
            "<h1>Node 10.0.0.1:7000 c1</h1>",
        )?,
        is_like(
            &rt,
            alloc,
            "GET /status",
            ["application/json", ""],
            "{\"endpoint\":\"10.0.0.1:7000\",\"generation\":9,",
        )?,
        is_like(&rt, alloc, "GET /metrics", metrics, "\ncg_rounds_total 0\n")?,
    ];
    expect_eq!(found, [true; 3])
}

#[test]
fn a_head_has_no_body(rt: HostRuntime) -> Result<(), Fail> {
    let alloc = rt.alloc();
    let left = left(&rt, alloc, OPEN, request(alloc, "HEAD /health")?.as_str())?;
    let due = answer(alloc, ["200 OK", TEXT, ""], "ok\n")?;
    let is_front = due.as_bytes().starts_with(left.text.as_slice());
    expect_eq!(
        (is_front, due.len().saturating_sub(left.text.len())),
        (true, 3)
    )
}

// The bytes of the answer are those due; whether the node is to stop, and the number of its records.
fn effect<R: Wait + RandomSource>(
    rt: &R,
    alloc: Global,
    input: &str,
    head: [&str; 3],
    body: &str,
) -> Result<(bool, bool, u64), Fail> {
    let left = left(rt, alloc, OPEN, input)?;
    let due = answer(alloc, head, body)?;
    Ok((
        left.text.as_slice() == due.as_bytes(),
        left.is_stopping,
        left.records,
    ))
}

#[test]
fn writes_are_done(rt: HostRuntime) -> Result<(), Fail> {
    let alloc = rt.alloc();
    let set =
        "PUT /states/LOAD HTTP/1.1\r\nhost: 127.0.0.1:8080\r\nx-cg-write: 1\r\ncontent-length: 2\r\n\r\n42";
    let found = [
        effect(&rt, alloc, set, ["200 OK", TEXT, ""], "version 2\n")?,
        effect(
            &rt,
            alloc,
            request(alloc, "DELETE /states/LOAD")?.as_str(),
            ["404 Not Found", TEXT, ""],
            "fault 20 NoSuchKey\n",
        )?,
        effect(
            &rt,
            alloc,
            request(alloc, "POST /stop")?.as_str(),
            ["200 OK", TEXT, ""],
            "stopping\n",
        )?,
    ];
    expect_eq!(found, [(true, false, 1), (true, false, 0), (true, true, 0)])
}

// Each answer closes the connection, so the second request is not answered.
#[test]
fn one_request_is_answered(rt: HostRuntime) -> Result<(), Fail> {
    let alloc = rt.alloc();
    let pair = format!(in alloc;
        "{}{}",
        request(alloc, "GET /health")?,
        request(alloc, "POST /stop")?
    )?;
    expect_eq!(
        effect(&rt, alloc, pair.as_str(), ["200 OK", TEXT, ""], "ok\n")?,
        (true, false, 0)
    )
}

#[test]
fn a_node_without_rounds_says_so(rt: HostRuntime) -> Result<(), Fail> {
    let alloc = rt.alloc();
    let serving = Serving {
        writes: false,
        has_begun: false,
    };
    let health = left(&rt, alloc, serving, request(alloc, "GET /health")?.as_str())?;
    let status = left(&rt, alloc, serving, request(alloc, "GET /status")?.as_str())?;
    let head = ["503 Service Unavailable", TEXT, ""];
    let unhealthy = answer(alloc, head, "no round for three intervals\n")?;
    let missing = answer(alloc, head, "fault 19 NoSuchNode\n")?;
    expect_eq!(
        (
            health.text.as_slice() == unhealthy.as_bytes(),
            status.text.as_slice() == missing.as_bytes()
        ),
        (true, true)
    )
}
