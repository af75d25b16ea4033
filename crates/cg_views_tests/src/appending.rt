//! Puts that may and may not be appended, puts of several owners, full tables, many operations of one publisher.

ghost use Rattle.std.specs.Prelude.{◌≡◌, ◌∷◌, [], IfOk};

use crate::entries::heartbeat;
use crate::removals::{may_follow, told};
use cg_entry::Entry;
use cg_table::{Puts, Table};
use cg_testing::{A, B, C, bare_entry, delta, endpoint, expect_eq, state};
use cg_types::{Endpoint, Fault};
use cg_views::{Naming, Opened, Pass, Publisher, views};
use std::alloc::{AllocError, Global};
use std::marker::Brand;
use std::sync::Wait;
use std::test::Fail;

// Appends one put by `append`, if it may be appended.
fn append_one<N: Naming>(
    alloc: Global,
    publisher: &mut Publisher<N>,
    owner: u16,
    entry: Entry,
) -> Result<(), Fail> {
    let owner = endpoint(owner);
    let puts = Puts::one(alloc, owner, entry.copy(alloc)?)?;
    if !publisher.may_append(&puts) {
        return Err(Fail::from("a put that may not be appended"));
    }
    Ok(publisher.append(alloc, owner, entry)?)
}

// Appends puts by `append_puts`, if they may be appended.
pub(crate) fn append<N: Naming>(
    alloc: Global,
    publisher: &mut Publisher<N>,
    puts: Puts,
) -> Result<(), Fail> {
    if !publisher.may_append(&puts) {
        return Err(Fail::from("puts that may not be appended"));
    }
    Ok(publisher.append_puts(alloc, puts)?)
}

// ---- puts that may be appended

// An entry of a generation, with a heartbeat version and, above version 0, key 3 at a version.
fn entry(alloc: Global, of: (u32, u32, u32)) -> Result<Entry, Fail> {
    let (at, heartbeat, key_at) = of;
    if key_at == 0 {
        return bare_entry(alloc, at, heartbeat);
    }
    let mut states = Vec::new(alloc);
    states.push(state(alloc, 3, key_at, "x")?)?;
    let whole = delta((at, 0, heartbeat), states)?;
    Ok(Entry::of_delta(alloc, &whole)?.ok_or("an entry")?)
}

// Tests of each put, an owner with an entry, whether it may be appended.
fn may_each<N: Naming>(
    alloc: Global,
    publisher: &Publisher<N>,
    puts: &[(u16, (u32, u32, u32))],
) -> Result<Vec<u32>, Fail> {
    let mut may = Vec::new(alloc);
    for (owner, of) in puts {
        let put = Puts::one(alloc, endpoint(*owner), entry(alloc, *of)?)?;
        may.push(u32::from(publisher.may_append(&put)))?;
    }
    Ok(may)
}

// ---- several owners

// A list of puts of two owners, with copies of these entries.
fn two_puts(
    alloc: Global,
    first: Endpoint,
    of_first: &Entry,
    second: Endpoint,
    of_second: &Entry,
) -> Result<Vec<(Endpoint, Entry)>, AllocError>
    ensures { IfOk result (λ puts. puts.items ≡ (first, of_first.now) ∷ ((second, of_second.now) ∷ [])) }
{
    let of_first = of_first.copy(alloc)?;
    let mut puts = Vec::with_capacity(alloc, 2)?;
    puts.push((first, of_first))?;
    puts.push((second, of_second.copy(alloc)?))?;
    Ok(puts)
}

// Appends a put of A and one of B as a list, by `append_all`, if they may be appended.
fn append_two<N: Naming>(
    alloc: Global,
    publisher: &mut Publisher<N>,
    of_a: &Entry,
    of_b: &Entry,
) -> Result<(), Fail> {
    let (a, b) = (endpoint(A), endpoint(B));
    let Some(puts) = Puts::of(alloc, two_puts(alloc, a, of_a, b, of_b)?)? else {
        return Err(Fail::from("owners that rise"));
    };
    if !publisher.may_append(&puts) {
        return Err(Fail::from("puts that may not be appended"));
    }
    Ok(publisher.append_all(alloc, two_puts(alloc, a, of_a, b, of_b)?)?)
}

// The number of owners that a pass reads, and A's heartbeat.
fn read<N: Naming>(pass: &mut Pass<N>) -> Result<(u32, u32), Fault> {
    let snapshot = pass.read()?;
    let table = snapshot.table();
    Ok((table.owners().len() as u32, heartbeat(table)))
}

// Reads before and after A at heartbeat 6, with key 3 at version 4, and B at heartbeat 1 are published.
fn read_two<N: Naming, R: Wait>(
    rt: &R,
    alloc: Global,
    publisher: &mut Publisher<N>,
    pass: &mut Pass<N>,
) -> Result<Vec<u32>, Fail> {
    let (of_a, of_b) = (entry(alloc, (9, 6, 4))?, bare_entry(alloc, 9, 1)?);
    append_two(alloc, publisher, &of_a, &of_b)?;
    let before = read(pass)?;
    publisher.publish(rt)?;
    let after = read(pass)?;
    let mut all = Vec::new(alloc);
    all.extend_from_slice(&[before.0, before.1, after.0, after.1])?;
    Ok(all)
}

// ---- many

// Appends an entry of each endpoint up to the limit.
fn fill<N: Naming>(alloc: Global, publisher: &mut Publisher<N>) -> Result<(), Fail> {
    for owner in 2..513 {
        append_one(alloc, publisher, owner, bare_entry(alloc, 9, 1)?)?;
    }
    Ok(())
}

// Appends this number of heartbeats of A, publishes at each tenth and reads at each hundredth. It returns the number of
// reads that had the newest heartbeat, and the last read.
fn beat_on<N: Naming, R: Wait>(
    rt: &R,
    alloc: Global,
    publisher: &mut Publisher<N>,
    pass: &mut Pass<N>,
    count: u32,
) -> Result<Vec<u32>, Fail> {
    let mut newest = 0u32;
    let mut last = 0;
    for turn in 1..=count {
        let at = turn.saturating_add(5);
        append(
            alloc,
            publisher,
            Puts::one(alloc, endpoint(A), entry(alloc, (9, at, 4))?)?,
        )?;
        if turn % 10 == 0 {
            publisher.publish(rt)?;
        }
        if turn % 100 == 0 {
            last = read(pass)?.1;
            newest = newest.saturating_add(u32::from(last == at));
        }
    }
    let mut all = Vec::new(alloc);
    all.extend_from_slice(&[newest, last])?;
    Ok(all)
}

// ---- the examples

// Work that is done with a publisher and a pass.
#[derive(Clone, Copy)]
pub(crate) enum Work<'a> {
    May(&'a [(u16, (u32, u32, u32))]),
    MayWithB(&'a [(u16, (u32, u32, u32))]),
    MayFilled(&'a [(u16, (u32, u32, u32))]),
    ReadTwo,
    BeatOn(u32),
    Remove,
    MayFollow(&'a [(u32, bool)]),
}

fn work_on<N: Naming, R: Wait>(
    rt: &R,
    alloc: Global,
    publisher: &mut Publisher<N>,
    pass: &mut Pass<N>,
    work: Work,
) -> Result<Vec<u32>, Fail> {
    match work {
        Work::May(puts) => may_each(alloc, publisher, puts),
        Work::MayWithB(puts) => {
            append_one(alloc, publisher, B, bare_entry(alloc, 9, 2)?)?;
            may_each(alloc, publisher, puts)
        }
        Work::MayFilled(puts) => {
            fill(alloc, publisher)?;
            may_each(alloc, publisher, puts)
        }
        Work::ReadTwo => read_two(rt, alloc, publisher, pass),
        Work::BeatOn(count) => beat_on(rt, alloc, publisher, pass, count),
        Work::Remove => told(rt, alloc, publisher, pass),
        Work::MayFollow(entries) => may_follow(alloc, publisher, pass, entries),
    }
}

fn answers_by<N: Naming, R: Wait>(
    rt: &R,
    alloc: Global,
    opened: Opened,
    table: Table,
    work: Work,
) -> Result<Vec<u32>, Fail>
    requires book { opened ≡ N.book }
    requires opening { table ≡ N.opening }
{
    let (mut publisher, mut passes) = views::<N>(alloc, opened, table, 1)?;
    let answers = match passes.first_mut() {
        Some(pass) => work_on(rt, alloc, &mut publisher, pass, work),
        None => Err(Fail::from("a pass")),
    };
    publisher.close(rt);
    answers
}

// The answers of this work if A is held at heartbeat 5, with key 3 at version 4.
pub(crate) fn answers<R: Wait>(rt: &R, alloc: Global, work: Work) -> Result<Vec<u32>, Fail> {
    let table = Table::new(alloc, endpoint(A), entry(alloc, (9, 5, 4))?)?;
    answers_by::<Brand, R>(rt, alloc, Opened::new(), table, work)
}

#[test]
fn later_puts_may_be_appended(rt: HostRuntime) -> Result<(), Fail> {
    let own = answers(
        &rt,
        rt.alloc(),
        Work::May(&[(A, (9, 6, 4)), (A, (9, 5, 6))]),
    )?;
    let others = answers(
        &rt,
        rt.alloc(),
        Work::MayWithB(&[(B, (9, 3, 0)), (B, (10, 1, 0)), (C, (1, 1, 0))]),
    )?;
    expect_eq!(own.as_slice(), [1, 1].as_slice())?;
    expect_eq!(others.as_slice(), [1, 1, 1].as_slice())
}

#[test]
fn other_puts_may_not(rt: HostRuntime) -> Result<(), Fail> {
    let alloc = rt.alloc();
    // not later, though the own key is kept
    let equal = answers(&rt, alloc, Work::May(&[(A, (9, 5, 4)), (A, (9, 4, 4))]))?;
    let pending = answers(
        &rt,
        alloc,
        Work::MayWithB(&[(B, (9, 2, 0)), (B, (8, 9, 0))]),
    )?;
    // later, but the own key falls or is gone, or the own generation is another
    let own = answers(
        &rt,
        alloc,
        Work::May(&[(A, (9, 6, 3)), (A, (9, 6, 0)), (A, (10, 6, 4))]),
    )?;
    expect_eq!(equal.as_slice(), [0, 0].as_slice())?;
    expect_eq!(pending.as_slice(), [0, 0].as_slice())?;
    expect_eq!(own.as_slice(), [0, 0, 0].as_slice())
}

#[test]
fn a_full_table_takes_later_entries_alone(rt: HostRuntime) -> Result<(), Fail> {
    let full = answers(
        &rt,
        rt.alloc(),
        Work::MayFilled(&[(512, (9, 2, 0)), (513, (9, 1, 0))]),
    )?;
    expect_eq!(full.as_slice(), [1, 0].as_slice())
}

#[test]
fn several_owners_are_one_operation(rt: HostRuntime) -> Result<(), Fail> {
    let two = answers(&rt, rt.alloc(), Work::ReadTwo)?;
    expect_eq!(two.as_slice(), [1, 5, 2, 6].as_slice())
}

#[test]
fn many_operations_are_read(rt: HostRuntime) -> Result<(), Fail> {
    let many = answers(&rt, rt.alloc(), Work::BeatOn(100_000))?;
    expect_eq!(many.as_slice(), [1_000, 100_005].as_slice())
}
