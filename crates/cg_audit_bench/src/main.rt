//! Measures the audit of lives.
//!
//! With no words it audits a thousand items, over eight and over 64 endpoints. It prints a digest of each order, which
//! no clock and no machine changes. With the word `time` it measures lives of a thousand, ten thousand and a hundred
//! thousand items.
#![tactic(auto)]

mod lives;
mod measure;

use crate::lives::{Size, all_lives};
use crate::measure::{digest, least};
use anyhow::{Context, Result};
use cg_audit::{Lives, Order, audit, endpoints_differ};
use std::alloc::Global;
use std::env::Env;
use std::rt::Clock;

// The number of endpoints.
const FEW: u16 = 8;

const MANY: u16 = 64;

// Returns the order of lives that are one run.
fn order(alloc: Global, lives: &[Lives]) -> Result<Order> {
    if !endpoints_differ(lives) {
        return None.context("one endpoint twice");
    }
    audit(alloc, lives).ok().context("one run")
}

fn print_digest(rt: &(impl Print + Alloc<A = Global>), size: Size) -> Result<()> {
    let lives = all_lives(rt.alloc(), size)?;
    let order = order(rt.alloc(), &lives)?;
    let digest = digest(&order.items);
    println!(rt;
        "case audit_{}_of_{} {} {digest:016x}",
        size.items,
        size.endpoints,
        order.items.len()
    )?;
    Ok(())
}

fn print_time(rt: &(impl Clock + Print + Alloc<A = Global>), size: Size) -> Result<()> {
    let lives = all_lives(rt.alloc(), size)?;
    let each = least(rt, &lives)?;
    println!(rt;
        "bench audit_{}_of_{} ns_per_item {each}",
        size.items, size.endpoints
    )?;
    Ok(())
}

fn small(rt: &(impl Print + Alloc<A = Global>)) -> Result<()> {
    for endpoints in [FEW, MANY] {
        let items = 1_000;
        print_digest(rt, Size { items, endpoints })?;
    }
    Ok(())
}

fn timed(rt: &(impl Clock + Print + Alloc<A = Global>)) -> Result<()> {
    for endpoints in [FEW, MANY] {
        for items in [1_000, 10_000, 100_000] {
            print_time(rt, Size { items, endpoints })?;
        }
    }
    Ok(())
}

// Returns `true` if the first word after the program's name is `time`.
fn is_timed(rt: &impl Env) -> bool {
    let mut word = [0u8; 4];
    matches!(rt.arg(1, &mut word), Ok(4)) && word == *b"time"
}

fn main(rt: HostRuntime) -> Result<()> {
    if is_timed(&rt) {
        return timed(&rt);
    }
    small(&rt)
}
