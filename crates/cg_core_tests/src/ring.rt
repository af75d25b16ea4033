//! Worked rings, and entries that keep their owner's claims or do not.

use crate::tokens::token;
use cg_entry::{Delta, Entry, State};
use cg_table::Table;
use cg_testing::{endpoint, entry_at_start, expect, expect_eq, state};
use cg_tokens::{Ring, TOKEN_LIMIT, Token, keeps_claims};
use cg_types::Endpoint;
use std::alloc::Global;
use std::test::Fail;

const AT_16_AND_64: &str = "00000000000000000000000000000010,00000000000000000000000000000040";

const AT_32: &str = "00000000000000000000000000000020";

const AT_48: &str = "00000000000000000000000000000030";

/// A generation, a status and a text of tokens.
pub(crate) type Claiming = (u32, &'static str, &'static str);

// The delta that an endpoint with these claims sends of itself.
fn delta(alloc: Global, (at, status, tokens): Claiming) -> Result<Delta, Fail> {
    let states = vec![in alloc; state(alloc, 1, 1, status)?, state(alloc, 2, 1, tokens)?]?;
    cg_testing::delta((at, 0, 1), states)
}

// A table after an owner's delta. It has no clause, so who calls it is proved without all that a delta may do.
fn with_delta(alloc: Global, table: &Table, owner: u16, delta: &Delta) -> Result<Table, Fail> {
    Ok(table.put_delta(alloc, endpoint(owner), delta)?.0)
}

// A table in which an owner has these claims.
fn with_claims(alloc: Global, table: &Table, owner: u16, claims: Claiming) -> Result<Table, Fail> {
    let delta = delta(alloc, claims)?;
    with_delta(alloc, table, owner, &delta)
}

/// A table of these owners, and of endpoint 9, which claims nothing.
pub(crate) fn table(alloc: Global, owners: &[(u16, Claiming)]) -> Result<Table, Fail> {
    let mut table = Table::new(alloc, endpoint(9), entry_at_start(alloc, 1))?;
    for (owner, claiming) in owners {
        table = with_claims(alloc, &table, *owner, *claiming)?;
    }
    Ok(table)
}

// The ring of such a table.
fn ring_of(alloc: Global, owners: &[(u16, Claiming)]) -> Result<Ring, Fail> {
    Ok(Ring::of_table(alloc, &table(alloc, owners)?)?)
}

// Endpoint 1 at 16 and 64, 2 at 32 and 3 at 48.
fn ring(alloc: Global) -> Result<Ring, Fail> {
    let owners = [
        (3, (4, "NORMAL", AT_48)),
        (1, (9, "LEAVING", AT_16_AND_64)),
        (2, (5, "NORMAL,1", AT_32)),
    ];
    ring_of(alloc, &owners)
}

// Expects that a position has this token and this owner.
fn expect_position(position: (Token, Endpoint), number: u128, owner: u16) -> Result<(), Fail> {
    expect_eq!(position, (token(number)?, endpoint(owner)))
}

fn expect_positions(ring: &Ring, wanted: [(u128, u16); 4]) -> Result<(), Fail> {
    expect_eq!(ring.positions().len(), wanted.len())?;
    for (position, (number, owner)) in ring.positions().iter().zip(wanted) {
        expect_position(*position, number, owner)?;
    }
    Ok(())
}

#[test]
fn positions_rise(rt: HostRuntime) -> Result<(), Fail> {
    let ring = ring(rt.alloc())?.copy()?;
    expect_positions(&ring, [(16, 1), (32, 2), (48, 3), (64, 1)])
}

fn lasts(endpoints: &[Endpoint]) -> [u8; 4] {
    let mut lasts = [0; 4];
    for (last, endpoint) in lasts.iter_mut().zip(endpoints) {
        *last = endpoint.address()[3];
    }
    lasts
}

// The last numbers of `rf` replicas from a token on.
fn replicas_from(alloc: Global, ring: &Ring, number: u128, rf: usize) -> Result<[u8; 4], Fail> {
    Ok(lasts(&ring.replicas(alloc, token(number)?, rf)?))
}

#[test]
fn ring_and_replicas(rt: HostRuntime) -> Result<(), Fail> {
    let ring = ring(rt.alloc())?;
    for (number, rf, wanted) in [
        (0x20, 2, [2, 3, 0, 0]),
        (0x31, 2, [1, 2, 0, 0]),
        (0x41, 2, [1, 2, 0, 0]),
        (0x20, 5, [2, 3, 1, 0]),
        (0x20, 0, [0, 0, 0, 0]),
        (0, 1, [1, 0, 0, 0]),
        (TOKEN_LIMIT, 3, [1, 2, 3, 0]),
        (0x40, usize::MAX, [1, 2, 3, 0]),
    ] {
        let replicas = replicas_from(rt.alloc(), &ring, number, rf)?;
        expect_eq!(replicas, wanted, "{rf} from {number}")?;
    }
    Ok(())
}

#[test]
fn an_empty_ring_has_no_replicas(rt: HostRuntime) -> Result<(), Fail> {
    let ring = ring_of(rt.alloc(), &[])?;
    expect!(ring.positions().is_empty())?;
    expect!(ring.replicas(rt.alloc(), token(0)?, 3)?.is_empty())
}

// The endpoint that has a token which endpoints 2 and 3 claim in these generations.
fn winner(alloc: Global, second: u32, third: u32) -> Result<Option<Endpoint>, Fail> {
    let owners = [
        (3, (third, "NORMAL", AT_32)),
        (2, (second, "NORMAL", AT_32)),
    ];
    let ring = ring_of(alloc, &owners)?;
    Ok(ring.positions().first().map(|position| position.1))
}

#[test]
fn a_token_has_one_endpoint(rt: HostRuntime) -> Result<(), Fail> {
    expect_eq!(winner(rt.alloc(), 5, 4)?, Some(endpoint(2)))?;
    expect_eq!(winner(rt.alloc(), 5, 5)?, Some(endpoint(2)))?;
    expect_eq!(winner(rt.alloc(), 4, 5)?, Some(endpoint(3)))
}

// The number of tokens of an endpoint with these claims.
fn count_with(alloc: Global, status: &'static str, tokens: &'static str) -> Result<usize, Fail> {
    let ring = ring_of(alloc, &[(1, (5, status, tokens))])?;
    Ok(ring.positions().len())
}

#[test]
fn statuses_that_claim(rt: HostRuntime) -> Result<(), Fail> {
    for (status, count) in [
        ("NORMAL", 2),
        ("LEAVING", 2),
        ("NORMAL,x", 2),
        ("LEAVING,", 2),
        ("NORMALx", 0),
        ("NORMA", 0),
        ("normal", 0),
        (",NORMAL", 0),
        ("LEFT,NORMAL", 0),
        ("", 0),
    ] {
        expect_eq!(
            count_with(rt.alloc(), status, AT_16_AND_64)?,
            count,
            "{status}"
        )?;
    }
    Ok(())
}

#[test]
fn tokens_that_cannot_be_read_are_not_claimed(rt: HostRuntime) -> Result<(), Fail> {
    for tokens in ["", "10", "00000000000000000000000000000010,"] {
        expect_eq!(count_with(rt.alloc(), "NORMAL", tokens)?, 0, "{tokens}")?;
    }
    Ok(())
}

// A state at version 1, with a text or a tombstone.
fn state_of(alloc: Global, number: u8, text: Option<&'static str>) -> Result<State, Fail> {
    let mut one = state(alloc, number, 1, text.unwrap_or(""))?;
    if text.is_none() {
        one.text = None;
    }
    Ok(one)
}

// A delta with this status and these tokens, each a text or a tombstone.
fn delta_of_any(
    alloc: Global,
    status: Option<&'static str>,
    tokens: Option<&'static str>,
) -> Result<Delta, Fail> {
    let states = vec![in alloc; state_of(alloc, 1, status)?, state_of(alloc, 2, tokens)?]?;
    cg_testing::delta((5, 0, 1), states)
}

// A table in which endpoint 1 has this status and these tokens.
fn holding_any(
    alloc: Global,
    status: Option<&'static str>,
    tokens: Option<&'static str>,
) -> Result<Table, Fail> {
    let delta = delta_of_any(alloc, status, tokens)?;
    with_delta(alloc, &table(alloc, &[])?, 1, &delta)
}

// The number of tokens that endpoint 1 claims in such a table.
fn count_any(
    alloc: Global,
    status: Option<&'static str>,
    tokens: Option<&'static str>,
) -> Result<usize, Fail> {
    let ring = Ring::of_table(alloc, &holding_any(alloc, status, tokens)?)?;
    Ok(ring.positions().len())
}

#[test]
fn a_tombstone_claims_nothing(rt: HostRuntime) -> Result<(), Fail> {
    let (normal, tokens) = (Some("NORMAL"), Some(AT_16_AND_64));
    expect_eq!(count_any(rt.alloc(), normal, tokens)?, 2)?;
    expect_eq!(count_any(rt.alloc(), None, tokens)?, 0)?;
    expect_eq!(count_any(rt.alloc(), normal, None)?, 0)
}

// Tests whether endpoint 1 keeps its claims if this was held before, and the table's entry is held now.
fn keeps_by(before: Option<&Entry>, table: &Table) -> bool {
    table
        .get(endpoint(1))
        .is_some_and(|entry| keeps_claims(before, entry))
}

// Tests whether endpoint 1 keeps its claims if the first was held before and the second is held now.
fn keeps(alloc: Global, before: Claiming, after: Claiming) -> Result<bool, Fail> {
    let first = holding(alloc, before)?;
    let second = holding(alloc, after)?;
    Ok(keeps_by(first.get(endpoint(1)), &second))
}

// A table in which endpoint 1 has these claims.
fn holding(alloc: Global, claiming: Claiming) -> Result<Table, Fail> {
    table(alloc, &[(1, claiming)])
}

// Tests whether endpoint 1 keeps its claims if nothing of it was held before.
fn begins(alloc: Global, after: Claiming) -> Result<bool, Fail> {
    let table = holding(alloc, after)?;
    Ok(keeps_by(None, &table))
}

#[test]
fn claims_are_kept_by_the_same_texts(rt: HostRuntime) -> Result<(), Fail> {
    let held = (9, "NORMAL", AT_32);
    let same = keeps(rt.alloc(), held, held)?;
    let newer = keeps(rt.alloc(), held, (10, "NORMAL", AT_32))?;
    let left = keeps(rt.alloc(), held, (9, "LEFT", AT_32))?;
    let moved = keeps(rt.alloc(), held, (9, "NORMAL", AT_48))?;
    expect_eq!((same, newer, left, moved), (true, false, false, false))
}

// Tests whether endpoint 1, with tokens, keeps its claims from one status to the next, each a text or a tombstone.
fn keeps_any(
    alloc: Global,
    before: Option<&'static str>,
    after: Option<&'static str>,
) -> Result<bool, Fail> {
    let first = holding_any(alloc, before, Some(AT_32))?;
    let second = holding_any(alloc, after, Some(AT_32))?;
    Ok(keeps_by(first.get(endpoint(1)), &second))
}

// A tombstone claims as the empty text does.
#[test]
fn a_removal_keeps_no_claims(rt: HostRuntime) -> Result<(), Fail> {
    let removed = keeps_any(rt.alloc(), Some("NORMAL"), None)?;
    let set_again = keeps_any(rt.alloc(), None, Some("NORMAL"))?;
    let emptied = keeps_any(rt.alloc(), None, Some(""))?;
    expect_eq!((removed, set_again, emptied), (false, false, true))
}

#[test]
fn who_is_no_member_claims_nothing_new(rt: HostRuntime) -> Result<(), Fail> {
    let member = begins(rt.alloc(), (9, "NORMAL", AT_32))?;
    let joining = begins(rt.alloc(), (9, "BOOT", AT_32))?;
    expect_eq!((member, joining), (false, true))
}
