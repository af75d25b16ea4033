//! Settings of a node: their faults, the words for these, and copies.

use cg_core::{SEED_LIMIT, Settings, SettingsFault};
use cg_silence::Silence;
use cg_testing::{A, B, cluster, endpoint, expect, expect_eq};
use cg_types::{Cluster, Endpoint};
use std::alloc::Global;
use std::test::Fail;

// The endpoints of these numbers.
fn endpoints(alloc: Global, numbers: &[u16]) -> Result<Vec<Endpoint>, Fail> {
    let mut endpoints = Vec::new(alloc);
    for number in numbers {
        endpoints.push(endpoint(*number))?;
    }
    Ok(endpoints)
}

// The fault of settings of this partitioner and these seeds, if any, and whether `new` makes them.
type Made = (Option<SettingsFault>, bool);

fn made(alloc: Global, partitioner: u8, seeds: &[u16]) -> Result<Made, Fail> {
    let cluster = Cluster::with(alloc, "c1", partitioner)?;
    let settings = Settings::new(
        cluster.copy()?,
        endpoints(alloc, seeds)?,
        Silence::default(),
    );
    let fault = Settings::try_new(cluster, endpoints(alloc, seeds)?, Silence::default()).err();
    Ok((fault, settings.is_some()))
}

// Seeds are few and rise, and the partitioner is the one in use.
#[test]
fn settings_are_refused(rt: HostRuntime) -> Result<(), Fail> {
    let other = Some(SettingsFault::Partitioner);
    let many = Some(SettingsFault::SeedCount);
    let order = Some(SettingsFault::SeedOrder);
    let all = [1, 2, 3, 4, 5, 6, 7, 8, 9, 10, 11, 12, 13, 14, 15, 16, 17];
    for (partitioner, seeds, fault) in [
        (1, &all[..0], None),
        (1, &all[..1], None),
        (1, &all[..16], None),
        (1, &all[..], many),
        (1, &[A, B], None),
        (1, &[B, A], order),
        (1, &[A, A], order),
        (0, &[], other),
        (2, &[], other),
    ] {
        let made = made(rt.alloc(), partitioner, seeds)?;
        expect_eq!(made, (fault, fault.is_none()))?;
    }
    expect_eq!(SEED_LIMIT, 16)
}

// Tests whether these words describe a fault.
fn is_told(alloc: Global, fault: SettingsFault, words: &str) -> Result<bool, Fail> {
    let told = format!(in alloc; "{fault}")?;
    Ok(told.as_str() == words)
}

#[test]
fn faults_are_told(rt: HostRuntime) -> Result<(), Fail> {
    for (fault, wanted) in [
        (
            SettingsFault::Partitioner,
            "the cluster's partitioner is not 1",
        ),
        (SettingsFault::SeedCount, "there are more than 16 seeds"),
        (
            SettingsFault::SeedOrder,
            "a seed is not greater than the one before it",
        ),
    ] {
        expect!(is_told(rt.alloc(), fault, wanted)?, "{wanted}")?;
    }
    Ok(())
}

// The cluster's name, the only seed, and the settings of silence.
fn shown(settings: &Settings) -> (&str, Option<Endpoint>, Silence) {
    let seed = match settings.seeds() {
        [seed] => Some(*seed),
        _ => None,
    };
    (settings.cluster().name(), seed, settings.silence())
}

// Settings with the seed B.
fn settings(alloc: Global) -> Result<Settings, Fail> {
    let seeds = endpoints(alloc, &[B])?;
    match Settings::new(cluster(alloc)?, seeds, Silence::default()) {
        Some(settings) => Ok(settings),
        None => Err(Fail::from("settings")),
    }
}

// A copy of them.
fn copied(alloc: Global) -> Result<Settings, Fail> {
    Ok(settings(alloc)?.copy(alloc)?)
}

#[test]
fn settings_are_shown_and_copied(rt: HostRuntime) -> Result<(), Fail> {
    let copy = copied(rt.alloc())?;
    expect_eq!(shown(&copy), ("c1", Some(endpoint(B)), Silence::default()))
}
