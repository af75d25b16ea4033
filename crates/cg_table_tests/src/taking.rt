//! ACKs and ACK2s taken: the tables, outcomes and answers that they lead to.

use crate::samples::{ack_of, ack2_of, below, only, table_alone};
use cg_exchange::{Ack, Ack2, Outcome, answer_syn, syn, take_ack, take_ack2};
use cg_messages::OwnerDelta;
use cg_table::{Table, Took};
use cg_testing::{A, B, bare_delta, cluster, endpoint, expect, expect_eq};
use cg_types::{Cluster, Fault};
use std::alloc::Global;
use std::test::Fail;

// The generation and the newest version held of one owner.
fn held(table: &Table, owner: u16) -> Option<(u32, u32)> {
    match table.get(endpoint(owner)) {
        Some(entry) => Some((entry.generation().get(), entry.newest().get())),
        None => None,
    }
}

// The answer of a table to the SYN of another.
fn answer(alloc: Global, a: &Table, b: &Table, cluster: &Cluster) -> Result<Ack, Fault> {
    let syn = syn(alloc, a, cluster)?;
    answer_syn(alloc, b, cluster, &syn)
}

// A test whether two tables hold the same after an exchange that the first opened, and the second's entries of A and B
// then.
type Exchanged = (bool, Option<(u32, u32)>, Option<(u32, u32)>);

fn ended(alloc: Global, a: &Table, b: &Table, ack: &Ack) -> Result<Exchanged, Fault> {
    let (a, ack2, _outcomes) = take_ack(alloc, a, ack)?;
    let (b, _outcomes) = take_ack2(alloc, b, &ack2)?;
    Ok((a.same_entries(&b), held(&b, A), held(&b, B)))
}

fn exchanged(alloc: Global, a: &Table, b: &Table) -> Result<Exchanged, Fault> {
    let ack = answer(alloc, a, b, &cluster(alloc)?)?;
    ended(alloc, a, b, &ack)
}

// The vectors have its messages byte by byte (`journals.txt`), and the outcomes of their deltas
// (`node_first_exchange`).
#[test]
fn first_exchange_equals_the_tables(rt: HostRuntime) -> Result<(), Fail> {
    let a = table_alone(rt.alloc(), A, 9)?;
    let b = table_alone(rt.alloc(), B, 5)?;
    let exchanged = exchanged(rt.alloc(), &a, &b)?;
    expect_eq!(exchanged, (true, Some((9, 1)), Some((5, 1))))
}

// The only delta that a table sends for an ACK.
fn sent(alloc: Global, table: &Table, ack: &Ack) -> Result<Option<(u32, u32, u32)>, Fault> {
    let (_after, ack2, _outcomes) = take_ack(alloc, table, ack)?;
    Ok(only(ack2.deltas()))
}

// The delta that B at generation 5 sends, if any. The ACK has a request of an owner, of a generation above a version,
// and a delta of A with heartbeat version 4, or none.
fn sent_by_b(
    alloc: Global,
    owner: u16,
    above: (u32, u32),
    deltas: &[u16],
) -> Result<Option<(u32, u32, u32)>, Fail> {
    let table = table_alone(alloc, B, 5)?;
    let ack = ack_of(alloc, (&[owner], above), (deltas, (9, 0, 4)))?;
    Ok(sent(alloc, &table, &ack.ok_or("an ACK")?)?)
}

// Requests about the receiver, and one about A whose delta the same ACK brings: deltas are taken first.
#[test]
fn requests_are_answered(rt: HostRuntime) -> Result<(), Fail> {
    for (owner, above, deltas, due) in [
        (B, (4, 7), &[][..], Some((5, 0, 1))),
        (B, (5, 0), &[], Some((5, 0, 1))),
        (B, (5, 1), &[], None),
        (B, (6, 0), &[], None),
        (A, (9, 0), &[A], Some((9, 0, 4))),
    ] {
        expect_eq!(sent_by_b(rt.alloc(), owner, above, deltas)?, due)?;
    }
    Ok(())
}

// The outcomes of the first two deltas of an ACK2, and the entries that are then held of two owners.
type Taken = ([Option<Outcome>; 2], [Option<(u32, u32)>; 2]);

fn taken_of(alloc: Global, table: &Table, ack2: &Ack2, owners: [u16; 2]) -> Result<Taken, Fault> {
    let (after, outcomes) = take_ack2(alloc, table, ack2)?;
    let [first, second] = owners;
    Ok((
        [outcomes.first().copied(), outcomes.get(1).copied()],
        [held(&after, first), held(&after, second)],
    ))
}

// The same of an ACK2 with a delta of each of some owners, or the fault that refuses it.
fn taken(
    alloc: Global,
    table: &Table,
    sent: &[u16],
    of: (u32, u32, u32),
    owners: [u16; 2],
) -> Result<Result<Taken, Fault>, Fail> {
    let ack2 = ack2_of(alloc, sent, of)?.ok_or("an ACK2")?;
    Ok(taken_of(alloc, table, &ack2, owners))
}

fn outcome(owner: u16, took: Took) -> Option<Outcome> {
    let endpoint = endpoint(owner);
    Some(Outcome { endpoint, took })
}

#[test]
fn a_delta_about_the_receiver(rt: HostRuntime) -> Result<(), Fail> {
    let table = table_alone(rt.alloc(), B, 5)?;
    let taken = taken(rt.alloc(), &table, &[B], (9, 0, 7), [A, B])?;
    let due = ([outcome(B, Took::Own), None], [None, Some((5, 1))]);
    expect_eq!(taken, Ok(due))?;
    let ack2 = ack2_of(rt.alloc(), &[B], (9, 0, 7))?.ok_or("an ACK2")?;
    let (after, _outcomes) = take_ack2(rt.alloc(), &table, &ack2)?;
    expect!(after.same_entries(&table))
}

// ---- a full table

// The table of endpoint 0 with all of 1 to 511, of which A is one. A delta about endpoint 0 itself is among those sent,
// and changes nothing.
fn crowded(alloc: Global) -> Result<Table, Fail> {
    let owners = below(alloc, 512)?;
    let ack2 = ack2_of(alloc, &owners, (5, 0, 1))?.ok_or("an ACK2")?;
    let alone = table_alone(alloc, 0, 5)?;
    let (table, _outcomes) = take_ack2(alloc, &alone, &ack2)?;
    Ok(table)
}

// The fault that refuses an ACK with a delta of each of some owners.
fn refusal(
    alloc: Global,
    table: &Table,
    sent: &[u16],
    of: (u32, u32, u32),
) -> Result<Option<Fault>, Fail> {
    let ack = ack_of(alloc, (&[], (1, 0)), (sent, of))?.ok_or("an ACK")?;
    Ok(take_ack(alloc, table, &ack).err())
}

// A newer delta of A, and one about a 513th endpoint: whole here, and above a version in the next test.
#[test]
fn table_full(rt: HostRuntime) -> Result<(), Fail> {
    let whole = (5, 0, 3);
    let table = crowded(rt.alloc())?;
    let refused = taken(rt.alloc(), &table, &[A, 512], whole, [A, 512])?;
    expect_eq!(refused, Err(Fault::TableFull))?;
    let refusal = refusal(rt.alloc(), &table, &[A, 512], whole)?;
    expect_eq!(
        (refusal, held(&table, A)),
        (Some(Fault::TableFull), Some((5, 1)))
    )
}

#[test]
fn a_gap_needs_no_room(rt: HostRuntime) -> Result<(), Fail> {
    let table = crowded(rt.alloc())?;
    let taken = taken(rt.alloc(), &table, &[A, 512], (5, 1, 3), [A, 512])?;
    let outcomes = [outcome(A, Took::Taken), outcome(512, Took::Gap)];
    expect_eq!(taken, Ok((outcomes, [Some((5, 3)), None])))
}

// A newer delta of A above a version, and a whole one about a 513th endpoint.
fn part_and_whole(alloc: Global) -> Result<Vec<OwnerDelta>, Fail> {
    let mut deltas = Vec::new(alloc);
    for (owner, of) in [(A, (5, 1, 3)), (512, (5, 0, 1))] {
        let delta = bare_delta(alloc, of)?;
        let endpoint = endpoint(owner);
        deltas.push(OwnerDelta { endpoint, delta })?;
    }
    Ok(deltas)
}

// The fault that refuses them in an ACK, and in an ACK2.
fn ack_refusal(alloc: Global, table: &Table) -> Result<Option<Fault>, Fail> {
    let ack = Ack::new(Vec::new(alloc), part_and_whole(alloc)?).ok_or("an ACK")?;
    Ok(take_ack(alloc, table, &ack).err())
}

fn ack2_refusal(alloc: Global, table: &Table) -> Result<Option<Fault>, Fail> {
    let ack2 = Ack2::new(part_and_whole(alloc)?).ok_or("an ACK2")?;
    Ok(take_ack2(alloc, table, &ack2).err())
}

#[test]
fn table_full_behind_a_part(rt: HostRuntime) -> Result<(), Fail> {
    let table = crowded(rt.alloc())?;
    let refusals = (
        ack_refusal(rt.alloc(), &table)?,
        ack2_refusal(rt.alloc(), &table)?,
    );
    expect_eq!(refusals, (Some(Fault::TableFull), Some(Fault::TableFull)))
}
