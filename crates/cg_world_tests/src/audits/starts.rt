//! Audits of lives that did nothing: one run, generations that do not rise, endpoints that are given twice.
//!
//! A is 10.0.0.1:7000, and B 10.0.0.2:7000; each life has a generation.

use crate::audits::made::said;
use crate::histories::begun;
use cg_audit::Lives;
use cg_testing::{A, B, endpoint, expect_eq};
use cg_types::Endpoint;
use std::alloc::Global;
use std::test::Fail;

// Lives of an endpoint, of which each history began with a node of this endpoint and generation.
fn lives(alloc: Global, own: u16, starts: &[(u16, u32)]) -> Result<Option<Lives>, Fail> {
    let mut histories = Vec::new(alloc);
    for (of, number) in starts {
        histories.push(begun(alloc, *of, *number)?)?;
    }
    Ok(Lives::new(endpoint(own), histories))
}

// The audit of them, or `another` if some are no lives.
fn said_of(alloc: Global, all: &[(u16, &[(u16, u32)])]) -> Result<String, Fail> {
    let mut made = Vec::new(alloc);
    for (own, starts) in all {
        match lives(alloc, *own, starts)? {
            Some(one) => made.push(one)?,
            None => return Ok(String::from_str(alloc, "another")?),
        }
    }
    said(alloc, &made)
}

const SAID: [(&[(u16, &[(u16, u32)])], &str); 7] = [
    (&[], "run"),
    (&[(A, &[])], "run"),
    (&[(B, &[(B, 5), (B, 6)])], "run 2/5/0 2/6/0"),
    (&[(B, &[(B, 6), (B, 5)])], "NotRising"),
    (&[(B, &[(B, 5), (B, 5)])], "NotRising"),
    (&[(A, &[(A, 9)]), (A, &[(A, 10)])], "twice"),
    (&[(B, &[(A, 9)])], "another"),
];

// The endpoint of lives of which one is added to another, and their number.
fn shown(alloc: Global) -> Result<(Endpoint, usize), Fail> {
    let mut lives = Lives::of(alloc, begun(alloc, B, 5)?)?;
    let next = begun(alloc, B, 6)?;
    if next.base().table().own() == lives.endpoint() {
        lives.push(next)?;
    }
    Ok((lives.endpoint(), lives.histories().len()))
}

#[test]
fn lives_that_did_nothing_are_audited(rt: HostRuntime) -> Result<(), Fail> {
    for (all, due) in SAID {
        let said = said_of(rt.alloc(), all)?;
        expect_eq!(said.as_str(), due)?;
    }
    let shown = shown(rt.alloc())?;
    expect_eq!(shown, (endpoint(B), 2))
}
