//! Removals and later sets of a key of the own entry: which may be appended, and how a pass reads those that were told.

use crate::appending::{Work, answers, append};
use cg_entry::Entry;
use cg_table::Puts;
use cg_testing::{A, bare_entry, delta, endpoint, expect_eq, key, state};
use cg_types::{Fault, StateText};
use cg_version::Versions;
use cg_views::{Naming, Pass, Publisher};
use std::alloc::Global;
use std::sync::Wait;
use std::test::Fail;

// The version at A's key 3, and 1 if that is a text's, 0 if it is a tombstone's.
fn read<N: Naming>(pass: &mut Pass<N>) -> Result<Option<(u32, u32)>, Fault> {
    let snapshot = pass.read()?;
    Ok(match snapshot.table().own_entry().state(key(3)) {
        Some((text, version)) => Some((version.get(), u32::from(text.is_some()))),
        None => None,
    })
}

// Adds what a pass reads at A's key 3.
fn add_read<N: Naming>(pass: &mut Pass<N>, all: &mut Vec<u32>) -> Result<(), Fail> {
    let (version, texts) = read(pass)?.ok_or("a state")?;
    Ok(all.extend_from_slice(&[version, texts])?)
}

// A's entry, as a pass reads it.
fn own_entry<N: Naming>(alloc: Global, pass: &mut Pass<N>) -> Result<Entry, Fault> {
    let snapshot = pass.read()?;
    Ok(snapshot.table().own_entry().copy(alloc)?)
}

// A's entry without the text of key 3.
fn removed<N: Naming>(alloc: Global, pass: &mut Pass<N>) -> Result<Entry, Fault> {
    let mut entry = own_entry(alloc, pass)?;
    let mut versions = Versions::after(entry.newest());
    entry.remove(&mut versions, key(3))?;
    Ok(entry)
}

// A's entry with another text at key 3.
fn set<N: Naming>(alloc: Global, pass: &mut Pass<N>) -> Result<Entry, Fault> {
    let mut entry = own_entry(alloc, pass)?;
    let mut versions = Versions::after(entry.newest());
    entry.set(&mut versions, key(3), StateText::new(alloc, "y")?)?;
    Ok(entry)
}

// Publishes an entry of A. A pass reads before, learns what is told, and reads again.
fn publish<N: Naming, R: Wait>(
    rt: &R,
    alloc: Global,
    publisher: &mut Publisher<N>,
    pass: &mut Pass<N>,
    entry: Entry,
    all: &mut Vec<u32>,
) -> Result<(), Fail> {
    append(alloc, publisher, Puts::one(alloc, endpoint(A), entry)?)?;
    add_read(pass, all)?;
    publisher.publish(rt)?;
    pass.learn(publisher.tell());
    add_read(pass, all)
}

/// The reads around a removal of A's key 3 and around a later set.
pub(crate) fn told<N: Naming, R: Wait>(
    rt: &R,
    alloc: Global,
    publisher: &mut Publisher<N>,
    pass: &mut Pass<N>,
) -> Result<Vec<u32>, Fail> {
    let mut all = Vec::new(alloc);
    let entry = removed(alloc, pass)?;
    publish(rt, alloc, publisher, pass, entry, &mut all)?;
    let entry = set(alloc, pass)?;
    publish(rt, alloc, publisher, pass, entry, &mut all)?;
    Ok(all)
}

// A's entry at heartbeat 7, with key 3 at a version, above version 0, as a text or a tombstone.
fn entry_at_7(alloc: Global, at: u32, is_text: bool) -> Result<Entry, Fail> {
    if at == 0 {
        return bare_entry(alloc, 9, 7);
    }
    let mut one = state(alloc, 3, at, "x")?;
    if !is_text {
        one.text = None;
    }
    let whole = delta((9, 0, 7), vec![in alloc; one]?)?;
    Ok(Entry::of_delta(alloc, &whole)?.ok_or("an entry")?)
}

/// Tests of each entry, key 3 at a version as a text or a tombstone, whether it may follow the removal of A's key 3.
pub(crate) fn may_follow<N: Naming>(
    alloc: Global,
    publisher: &mut Publisher<N>,
    pass: &mut Pass<N>,
    entries: &[(u32, bool)],
) -> Result<Vec<u32>, Fail> {
    let entry = removed(alloc, pass)?;
    append(alloc, publisher, Puts::one(alloc, endpoint(A), entry)?)?;
    let mut may = Vec::new(alloc);
    for (at, is_text) in entries {
        let put = Puts::one(alloc, endpoint(A), entry_at_7(alloc, *at, *is_text)?)?;
        may.push(u32::from(publisher.may_append(&put)))?;
    }
    Ok(may)
}

// Key 3 is at 4 with a text, the removal at 6, the set at 7.
#[test]
fn told_removals_are_read_as_tombstones(rt: HostRuntime) -> Result<(), Fail> {
    let all = answers(&rt, rt.alloc(), Work::Remove)?;
    expect_eq!(all.as_slice(), [4, 1, 6, 0, 6, 0, 7, 1].as_slice())
}

#[test]
fn a_tombstone_is_kept_or_gives_way(rt: HostRuntime) -> Result<(), Fail> {
    let alloc = rt.alloc();
    let later = answers(
        &rt,
        alloc,
        Work::MayFollow(&[(6, false), (7, true), (8, false)]),
    )?;
    // at a smaller version, or gone
    let other = answers(
        &rt,
        alloc,
        Work::MayFollow(&[(4, true), (5, false), (0, false)]),
    )?;
    expect_eq!(later.as_slice(), [1, 1, 1].as_slice())?;
    expect_eq!(other.as_slice(), [0, 0, 0].as_slice())
}
