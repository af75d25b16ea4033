//! Puts: lists of owners with whole entries, compared and copied.

use cg_entry::Entry;
use cg_table::{Puts, puts_rise};
use cg_testing::{bare_entry, endpoint, expect_eq};
use cg_types::Endpoint;
use std::alloc::Global;
use std::test::Fail;

// The number of puts, and of the first the last number of its endpoint, its generation and its newest version.
type Seen = (usize, Option<(u8, u32, u32)>);

fn seen(puts: &Puts) -> Seen {
    let rows = puts.rows();
    let Some(row) = rows.first() else {
        return (rows.len(), None);
    };
    let [_, _, _, last] = row.endpoint().address();
    let entry = row.value();
    let put = (last, entry.generation().get(), entry.newest().get());
    (rows.len(), Some(put))
}

// The contents of one put, and of its copy, after the put itself is gone.
fn one_and_its_copy(alloc: Global) -> Result<(Seen, Seen), Fail> {
    let one = Puts::one(alloc, endpoint(1), bare_entry(alloc, 9, 3)?)?;
    let shown = seen(&one);
    let copy = one.copy(alloc)?;
    drop(one);
    Ok((shown, seen(&copy)))
}

#[test]
fn one_put_is_shown_and_copied(rt: HostRuntime) -> Result<(), Fail> {
    let put = (1, Some((1, 9, 3)));
    expect_eq!(one_and_its_copy(rt.alloc())?, (put, put))
}

#[test]
fn no_puts_have_no_rows(rt: HostRuntime) -> Result<(), Fail> {
    expect_eq!(seen(&Puts::none(rt.alloc())), (0, None))
}

// Tests whether two puts are the same whose entries are apart in memory: with these generations and heartbeats, and for
// these owners.
fn are_same(alloc: Global, one: (u16, u32, u32), other: (u16, u32, u32)) -> Result<bool, Fail> {
    let ours = Puts::one(alloc, endpoint(one.0), bare_entry(alloc, one.1, one.2)?)?;
    let theirs = Puts::one(
        alloc,
        endpoint(other.0),
        bare_entry(alloc, other.1, other.2)?,
    )?;
    Ok(ours == theirs)
}

#[test]
fn puts_of_equal_entries_are_the_same(rt: HostRuntime) -> Result<(), Fail> {
    expect_eq!(are_same(rt.alloc(), (1, 9, 3), (1, 9, 3))?, true)
}

#[test]
fn puts_of_another_owner_or_entry_are_not_the_same(rt: HostRuntime) -> Result<(), Fail> {
    let alloc = rt.alloc();
    let put = (1, 9, 3);
    let owner = are_same(alloc, put, (2, 9, 3))?;
    let generation = are_same(alloc, put, (1, 8, 3))?;
    let heartbeat = are_same(alloc, put, (1, 9, 4))?;
    expect_eq!((owner, generation, heartbeat), (false, false, false))
}

// Owners with bare entries of generation 9, each at its own number.
fn listed(alloc: Global, owners: &[u16]) -> Result<Vec<(Endpoint, Entry)>, Fail> {
    let mut puts = Vec::new(alloc);
    for owner in owners {
        puts.push((endpoint(*owner), bare_entry(alloc, 9, u32::from(*owner))?))?;
    }
    Ok(puts)
}

// Whether these owners rise, and the puts of a list of them, if they do.
fn puts_of(alloc: Global, owners: &[u16]) -> Result<(bool, Option<Seen>), Fail> {
    let list = listed(alloc, owners)?;
    let rise = puts_rise(&list);
    match Puts::of(alloc, list)? {
        Some(puts) => Ok((rise, Some(seen(&puts)))),
        None => Ok((rise, None)),
    }
}

#[test]
fn puts_of_a_list_rise(rt: HostRuntime) -> Result<(), Fail> {
    for (owners, puts) in [
        ([].as_slice(), Some((0, None))),
        (&[3], Some((1, Some((3, 9, 3))))),
        (&[1, 2, 5], Some((3, Some((1, 9, 1))))),
        (&[2, 2], None),
        (&[1, 3, 2], None),
    ] {
        expect_eq!(puts_of(rt.alloc(), owners)?, (puts.is_some(), puts))?;
    }
    Ok(())
}
