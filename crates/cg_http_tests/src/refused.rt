//! Refusals of requests.

use crate::samples::{asked, refusal_of, request, told};
use cg_http::{BODY_LIMIT, Refusal, Request};
use cg_testing::expect_eq;
use cg_types::Fault;
use std::alloc::Global;
use std::test::Fail;

#[test]
fn unknown_paths_and_methods(rt: HostRuntime) -> Result<(), Fail> {
    let alloc = rt.alloc();
    let found = [
        asked(alloc, "GET", ""),
        asked(alloc, "GET", "/statuses"),
        asked(alloc, "PUT", "/states/17"),
        asked(alloc, "PUT", "/states/"),
        asked(alloc, "GET", "/states/3"),
        asked(alloc, "POST", "/status"),
        asked(alloc, "get", "/status"),
        asked(alloc, "GET", "/stop"),
    ];
    expect_eq!(found, [404, 404, 404, 404, 405, 405, 405, 405])
}

#[test]
fn unreadable_queries_and_bodies(rt: HostRuntime) -> Result<(), Fail> {
    let alloc = rt.alloc();
    let long = [b'a'; BODY_LIMIT + 1];
    let found = [
        asked(alloc, "GET", "/replicas"),
        asked(alloc, "GET", "/replicas?rf=3&key=k1"),
        asked(alloc, "GET", "/replicas?key=k1&rf=-1"),
        asked(alloc, "GET", "/replicas?key=k1&rf=18446744073709551616"),
        told(alloc, &request("PUT", "/states/3", b"\xff"), true),
        told(alloc, &request("PUT", "/states/3", b"a\nb"), true),
        told(alloc, &request("PUT", "/states/3", &long[1..]), true),
        told(alloc, &request("PUT", "/states/3", &long), true),
    ];
    expect_eq!(found, [400, 400, 400, 400, 400, 400, 7, 413])
}

// What is told of a `POST` to `/stop` with these headers.
fn stop(alloc: Global, host: Option<&str>, mark: Option<&str>, writes: bool) -> u16 {
    let request = Request {
        host: host.map(str::as_bytes),
        mark: mark.map(str::as_bytes),
        ..request("POST", "/stop", b"")
    };
    told(alloc, &request, writes)
}

#[test]
fn who_may_not_write(rt: HostRuntime) -> Result<(), Fail> {
    let alloc = rt.alloc();
    let found = [
        stop(alloc, Some("10.0.0.1:80"), Some("1"), true),
        stop(alloc, Some("10.0.0.1"), Some("1"), true),
        stop(alloc, Some("localhost"), Some("1"), true),
        stop(alloc, Some("localhost:8080"), Some("1"), true),
        stop(alloc, Some("10.0.0.1:80"), Some("1"), false),
        stop(alloc, Some("10.0.0.1:80"), None, true),
        stop(alloc, Some("10.0.0.1:80"), Some("2"), true),
        stop(alloc, None, Some("1"), true),
        stop(alloc, Some("localhost.example"), Some("1"), true),
        stop(alloc, Some("10.0.0.1.example:80"), Some("1"), true),
        stop(alloc, Some("10.0.0.256"), Some("1"), true),
        stop(alloc, Some("10.0.0"), Some("1"), true),
    ];
    expect_eq!(found, [9, 9, 9, 9, 403, 403, 403, 403, 403, 403, 403, 403])
}

#[test]
fn refusals_have_bodies(rt: HostRuntime) -> Result<(), Fail> {
    let alloc = rt.alloc();
    let unread = refusal_of(alloc, &request("PUT", "/states/3", b"\n"));
    expect_eq!(unread, Some(Refusal::Fault(Fault::BadText)))?;
    let body = Refusal::Fault(Fault::NoSuchKey).body(alloc)?;
    expect_eq!(body.as_str(), "fault 20 NoSuchKey\n")?;
    expect_eq!(Refusal::Fault(Fault::NoSuchKey).status(), 404)
}

#[test]
fn other_methods_are_named(rt: HostRuntime) -> Result<(), Fail> {
    let alloc = rt.alloc();
    let allowed = match refusal_of(alloc, &request("GET", "/states/3", b"")) {
        Some(Refusal::NotAllowed(methods)) => methods.allow(),
        _ => "",
    };
    expect_eq!(allowed, "PUT, DELETE")
}
