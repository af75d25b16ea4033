//! Digests of orders, and times of audits.

use crate::order;
use anyhow::Result;
use cg_audit::{LifeItem, Lives};
use std::alloc::Global;
use std::hint::black_box;
use std::rt::Clock;
use std::time::Instant;

// The number of audits in each measurement.
const SAMPLES: u32 = 8;

// Adds one number to a digest (FNV-1a, by whole numbers).
fn mixed(digest: u64, number: u64) -> u64 {
    (digest ^ number).wrapping_mul(0x0000_0100_0000_01b3)
}

fn with_item(digest: u64, item: &LifeItem) -> u64 {
    let [_, _, high, low] = item.endpoint.address();
    let endpoint = u64::from(high) * 256 + u64::from(low);
    let generation = u64::from(item.generation.get());
    mixed(mixed(mixed(digest, endpoint), generation), item.number)
}

/// Returns a digest of the whole order.
pub(crate) fn digest(items: &[LifeItem]) -> u64 {
    let mut digest = 0xcbf2_9ce4_8422_2325;
    for item in items {
        digest = with_item(digest, item);
    }
    digest
}

// Measures the nanoseconds for each item of an audit.
fn sample(rt: &(impl Clock + Alloc<A = Global>), lives: &[Lives]) -> Result<u128> {
    let start = Instant::now(rt)?;
    let order = order(rt.alloc(), lives)?;
    let spent = start.elapsed(rt)?.as_nanos();
    let count = black_box(order.items.len());
    Ok(spent.checked_div(count as u128).unwrap_or(0))
}

/// Returns the least nanoseconds for each item, of several audits of these lives.
pub(crate) fn least(rt: &(impl Clock + Alloc<A = Global>), lives: &[Lives]) -> Result<u128> {
    let mut least = u128::MAX;
    for _ in 0..SAMPLES {
        least = least.min(sample(rt, lives)?);
    }
    Ok(least)
}
