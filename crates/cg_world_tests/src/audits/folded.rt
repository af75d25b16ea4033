//! Audits of lives of which records are folded.
//!
//! A is 10.0.0.1:7000, and B 10.0.0.2:7000; each life has a generation and beats three times.

use crate::audits::made::said;
use crate::histories::{applied, begun, fold};
use cg_audit::Lives;
use cg_core::Event;
use cg_history::History;
use cg_testing::{A, B, endpoint, expect_eq};
use std::alloc::Global;
use std::test::Fail;

// A life of which this many records are folded.
fn folded(alloc: Global, own: u16, number: u32, count: usize) -> Result<History, Fail> {
    let mut history = begun(alloc, own, number)?;
    for _ in 0..3 {
        applied(alloc, &mut history, 0, Event::Beat)?;
    }
    fold(alloc, &mut history, count)?;
    Ok(history)
}

// Lives of an endpoint, of each of which as many records are folded.
fn lives(alloc: Global, own: u16, each: &[(u32, usize)]) -> Result<Lives, Fail> {
    let mut histories = Vec::new(alloc);
    for (number, count) in each {
        histories.push(folded(alloc, own, *number, *count)?)?;
    }
    let lives = Lives::new(endpoint(own), histories).ok_or("lives")?;
    Ok(lives)
}

fn said_of(alloc: Global, all: &[(u16, &[(u32, usize)])]) -> Result<String, Fail> {
    let mut made = Vec::new(alloc);
    for (own, each) in all {
        made.push(lives(alloc, *own, each)?)?;
    }
    said(alloc, &made)
}

const SAID: [(&[(u16, &[(u32, usize)])], &str); 6] = [
    (&[(A, &[(9, 0)])], "run 1/9/0 1/9/1 1/9/2 1/9/3"),
    (&[(A, &[(9, 2)])], "Folded"),
    (&[(A, &[(9, 3)])], "Folded"),
    (&[(A, &[(9, 0)]), (B, &[(5, 0), (6, 1)])], "Folded"),
    (&[(B, &[(6, 2), (5, 0)])], "NotRising"),
    (&[(A, &[(9, 1)]), (B, &[(5, 0), (5, 0)])], "NotRising"),
];

#[test]
fn lives_with_folded_records_are_not_audited(rt: HostRuntime) -> Result<(), Fail> {
    for (all, due) in SAID {
        let said = said_of(rt.alloc(), all)?;
        expect_eq!(said.as_str(), due)?;
    }
    Ok(())
}
