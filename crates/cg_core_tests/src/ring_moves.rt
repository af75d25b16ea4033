//! Rings that are moved, each against the ring of the table after the move.

use crate::moving::{AT_20, AT_20_AND_50, AT_50};
use crate::ring::{Claiming, table};
use cg_table::{Puts, Table};
use cg_testing::{endpoint, expect, expect_eq};
use cg_tokens::Ring;
use cg_types::{Endpoint, endpoints_rise};
use std::alloc::Global;
use std::test::Fail;

// The owners of the first three positions, each by the last byte of its address, and 0 for no position.
fn winners(ring: &Ring) -> [u8; 3] {
    let mut winners = [0; 3];
    for (winner, (_token, endpoint)) in winners.iter_mut().zip(ring.positions()) {
        *winner = endpoint.address()[3];
    }
    winners
}

// The ring of the first table, moved to the entry that the second holds of an owner.
fn moved(alloc: Global, before: &Table, after: &Table, owner: Endpoint) -> Result<Ring, Fail> {
    let Some(entry) = after.get(owner) else {
        return Err(Fail::from("an entry"));
    };
    let ring = Ring::of_table(alloc, before)?;
    Ok(ring.moved(alloc, owner, before.get(owner), entry)?)
}

// The ring of the first table, moved to the rows that the second holds of some owners.
fn moved_each(
    alloc: Global,
    before: &Table,
    after: &Table,
    owners: &[Endpoint],
) -> Result<Ring, Fail> {
    if !endpoints_rise(owners) {
        return Err(Fail::from("owners that rise"));
    }
    let rows = Puts::of_owners(alloc, after, owners)?;
    let ring = Ring::of_table(alloc, before)?;
    Ok(ring.moved_each(alloc, rows.rows())?)
}

// Endpoint 2 in generation 5, and endpoint 3 in generation 4, with these claims.
fn two(alloc: Global, second: Claiming, third: Claiming) -> Result<Table, Fail> {
    table(alloc, &[(2, second), (3, third)])
}

// The winners of a ring that has to be as another one.
fn winners_if_same(ring: &Ring, whole: &Ring) -> Result<[u8; 3], Fail> {
    expect!(ring.positions() == whole.positions())?;
    Ok(winners(ring))
}

// The winners after endpoint 2 moves between two tables. Both ways from the ring before have to lead to that of the table after.
fn winners_between(
    alloc: Global,
    before: &Table,
    after: &Table,
    whole: &Ring,
) -> Result<[u8; 3], Fail> {
    winners_if_same(&moved_each(alloc, before, after, &[endpoint(2)])?, whole)?;
    winners_if_same(&moved(alloc, before, after, endpoint(2))?, whole)
}

// The winners after endpoint 2 moves from its first claims to the next ones, beside endpoint 3, which claims 50 in
// generation 4.
fn winners_after(alloc: Global, first: Claiming, next: Claiming) -> Result<[u8; 3], Fail> {
    let third = (4, "NORMAL", AT_50);
    let before = two(alloc, first, third)?;
    let after = two(alloc, next, third)?;
    let whole = Ring::of_table(alloc, &after)?;
    winners_between(alloc, &before, &after, &whole)
}

#[test]
fn a_ring_moves_with_one_owner(rt: HostRuntime) -> Result<(), Fail> {
    let normal = (5, "NORMAL", AT_20_AND_50);
    for (first, next, wanted) in [
        ((5, "NORMAL", AT_50), normal, [2, 2, 0]),
        (normal, (5, "LEFT", AT_20_AND_50), [3, 0, 0]),
        (
            (5, "LEFT", AT_20_AND_50),
            (5, "NORMAL,x", AT_20_AND_50),
            [2, 2, 0],
        ),
        (normal, (5, "NORMAL,x", AT_20_AND_50), [2, 2, 0]),
        (normal, (6, "NORMAL", AT_20_AND_50), [2, 2, 0]),
        (normal, (4, "NORMAL", AT_20_AND_50), [2, 2, 0]),
        (normal, (3, "NORMAL", AT_20_AND_50), [2, 3, 0]),
        (normal, (5, "NORMAL", AT_20), [2, 3, 0]),
    ] {
        let winners = winners_after(rt.alloc(), first, next)?;
        expect_eq!(winners, wanted, "{next:?}")?;
    }
    Ok(())
}

// The winners after some owners move between two tables at once, which has to lead to the ring of the table after.
fn winners_at_once(
    alloc: Global,
    before: &Table,
    after: &Table,
    owners: &[Endpoint],
) -> Result<[u8; 3], Fail> {
    let whole = Ring::of_table(alloc, after)?;
    winners_if_same(&moved_each(alloc, before, after, owners)?, &whole)
}

// Endpoint 2 leaves the token that endpoint 3 takes.
#[test]
fn a_ring_moves_with_two_owners_at_once(rt: HostRuntime) -> Result<(), Fail> {
    let alloc = rt.alloc();
    let before = two(alloc, (5, "NORMAL", AT_20), (4, "NORMAL", AT_50))?;
    let after = two(alloc, (5, "LEFT", AT_20), (4, "NORMAL", AT_20))?;
    let winners = winners_at_once(alloc, &before, &after, &[endpoint(2), endpoint(3)])?;
    expect_eq!(winners, [3, 0, 0])
}

#[test]
fn a_ring_moves_with_nobody(rt: HostRuntime) -> Result<(), Fail> {
    let table = two(rt.alloc(), (5, "NORMAL", AT_20), (4, "NORMAL", AT_50))?;
    let moved = moved_each(rt.alloc(), &table, &table, &[])?;
    expect_eq!(winners(&moved), [2, 3, 0])
}
