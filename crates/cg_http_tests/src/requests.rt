//! Calls that requests ask for.

use crate::samples::{asked, request};
use cg_http::{Call, Request, call_of};
use cg_testing::{expect, expect_eq};
use cg_text::View;
use cg_tokens::token_of;
use std::alloc::Global;
use std::test::Fail;

#[test]
fn each_path_is_read(rt: HostRuntime) -> Result<(), Fail> {
    let alloc = rt.alloc();
    let found = [
        asked(alloc, "GET", "/"),
        asked(alloc, "HEAD", "/"),
        asked(alloc, "GET", "/status"),
        asked(alloc, "GET", "/gossipinfo"),
        asked(alloc, "GET", "/ring"),
        asked(alloc, "GET", "/digests"),
        asked(alloc, "GET", "/replicas?key=k1&rf=3"),
        asked(alloc, "GET", "/metrics"),
        asked(alloc, "GET", "/health"),
        asked(alloc, "GET", "/health?since=1"),
        asked(alloc, "GET", "/%73tatus"),
    ];
    expect_eq!(found, [1, 1, 2, 3, 3, 3, 3, 5, 6, 6, 2])
}

#[test]
fn each_path_is_written(rt: HostRuntime) -> Result<(), Fail> {
    let alloc = rt.alloc();
    let found = [
        asked(alloc, "PUT", "/states/3"),
        asked(alloc, "DELETE", "/states/LOAD"),
        asked(alloc, "POST", "/stop"),
    ];
    expect_eq!(found, [7, 8, 9])
}

// The number of the key, and the text, that a request sets.
fn set_by(alloc: Global, target: &str, body: &[u8]) -> (u8, bool) {
    let found = call_of(alloc, &request("PUT", target, body), true);
    match &found {
        Ok(Call::Set { key, text }) => (key.get(), text.as_str().as_bytes() == body),
        _ => (0, false),
    }
}

#[test]
fn keys_have_numbers_and_names(rt: HostRuntime) -> Result<(), Fail> {
    let alloc = rt.alloc();
    let found = [
        set_by(alloc, "/states/3", b"9"),
        set_by(alloc, "/states/LOAD", b"9"),
        set_by(alloc, "/states/16", b""),
        set_by(alloc, "/states/X3", b"<b>&"),
        set_by(alloc, "/states/17", b""),
        set_by(alloc, "/states/load", b""),
    ];
    expect_eq!(
        found,
        [
            (3, true),
            (3, true),
            (16, true),
            (16, true),
            (0, false),
            (0, false)
        ]
    )
}

// The view that a target of `GET` asks for as a text.
fn view_by(alloc: Global, target: &str) -> Option<View> {
    let found = call_of(alloc, &request("GET", target, b""), false);
    match &found {
        Ok(Call::Printed(view)) => Some(*view),
        _ => None,
    }
}

#[test]
fn keys_of_replicas_are_decoded(rt: HostRuntime) -> Result<(), Fail> {
    let alloc = rt.alloc();
    let due = View::Replicas {
        token: token_of(b"a b&+"),
        rf: 3,
    };
    expect_eq!(view_by(alloc, "/replicas?key=a%20b%26+&rf=3"), Some(due))?;
    expect_eq!(view_by(alloc, "/ring"), Some(View::Ring))
}

// The number of replicas that a request asks for in JSON, with this header `accept`.
fn listed(alloc: Global, accept: &str) -> Option<u64> {
    let request = Request {
        accept: Some(accept.as_bytes()),
        ..request("GET", "/replicas?key=k1&rf=2", b"")
    };
    let found = call_of(alloc, &request, false);
    match &found {
        Ok(Call::ReplicaList { rf, .. }) => Some(*rf),
        _ => None,
    }
}

#[test]
fn replicas_in_json(rt: HostRuntime) -> Result<(), Fail> {
    let alloc = rt.alloc();
    let found = [
        listed(alloc, "application/json"),
        listed(alloc, "application/json;q=1, text/plain"),
        listed(alloc, "text/plain, application/json"),
        listed(alloc, "*/*"),
    ];
    expect_eq!(found, [Some(2), Some(2), None, None])?;
    expect!(found[0].is_some())
}
