//! Versions and generations of starts: the worked examples, and each call once.

use cg_testing::{expect, expect_eq};
use cg_types::{Fault, Generation, Version};
use cg_version::{Versions, next_generation};
use std::test::Fail;

#[test]
fn versions_rise() -> Result<(), Fail> {
    let mut versions = Versions::new();
    expect_eq!(versions.last(), 0)?;
    expect_eq!(versions.next().ok(), Version::new(1))?;
    expect_eq!(versions.next().ok(), Version::new(2))?;
    expect_eq!(versions.last(), 2)?;
    expect!(!versions.is_spent())
}

// The versions after this one: the last, the next, and then the last, whether they are spent, and the fault of one
// more.
type After = (u32, Option<Version>, u32, bool, Option<Fault>);

fn after(number: u32) -> After {
    let mut versions = Version::new(number).map_or(Versions::new(), Versions::after);
    let last = versions.last();
    let given = versions.next().ok();
    let spent = versions.is_spent();
    (last, given, versions.last(), spent, versions.next().err())
}

#[test]
fn versions_spent() -> Result<(), Fail> {
    let refused = Some(Fault::VersionsSpent);
    for (last, next) in [(2147483646, Version::new(2147483647)), (2147483647, None)] {
        expect_eq!(after(last), (last, next, 2147483647, true, refused))?;
    }
    Ok(())
}

// The generation of a start, as numbers.
fn generation_of(stored: Option<u32>, now_secs: u64) -> Result<u32, Fault> {
    next_generation(stored.and_then(Generation::new), now_secs).map(|g| g.get())
}

#[test]
fn generations_of_starts() -> Result<(), Fail> {
    for (stored, now_secs, next) in [
        (Some(9), 1700000000, Ok(1700000000)),
        (Some(1700000005), 1700000000, Ok(1700000006)),
        (None, 0, Ok(1)),
        (None, 2, Ok(2)),
        (Some(2147483646), 5, Ok(2147483647)),
        (Some(2147483647), 5, Err(Fault::VersionsSpent)),
        (Some(5), 2147483647, Ok(2147483647)),
        (Some(5), 2147483648, Err(Fault::VersionsSpent)),
        (None, 18446744073709551615, Err(Fault::VersionsSpent)),
    ] {
        expect_eq!(generation_of(stored, now_secs), next)?;
    }
    Ok(())
}
