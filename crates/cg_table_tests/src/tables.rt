//! Tables: deltas put, tables merged, and the limit of owners.

use cg_entry::{Delta, Entry};
use cg_table::{Digest, Table, Took, push_some};
use cg_testing::{bare_delta, bare_entry, endpoint, entry_at_start, expect, expect_eq, generation};
use cg_types::{Endpoint, Fault, Row, Version, owners_rise};
use std::alloc::Global;
use std::test::Fail;

// An endpoint with an entry, alone.
fn alone(alloc: Global, last: u16, entry: Entry) -> Result<Table, Fail> {
    Ok(Table::new(alloc, endpoint(last), entry)?)
}

// An endpoint at a generation, beaten to a version, alone.
fn table_of(alloc: Global, last: u16, of: u32, heartbeat: u32) -> Result<Table, Fail> {
    let entry = bare_entry(alloc, of, heartbeat)?;
    alone(alloc, last, entry)
}

// Endpoint 2 at generation 5, as it starts.
fn table(alloc: Global) -> Result<Table, Fail> {
    alone(alloc, 2, entry_at_start(alloc, 5))
}

// The generation and the newest version held of an endpoint.
type Held = Option<(u32, u32)>;

fn held(table: &Table, last: u16) -> Held {
    match table.get(endpoint(last)) {
        Some(entry) => Some((entry.generation().get(), entry.newest().get())),
        None => None,
    }
}

// The entries held of endpoints 1 and 2.
fn held_of_both(table: &Table) -> (Held, Held) {
    (held(table, 1), held(table, 2))
}

// The own endpoint, and the entries held of endpoints 1 and 2.
fn own_and_held(table: &Table) -> (Endpoint, (Held, Held)) {
    (table.own(), held_of_both(table))
}

#[test]
fn a_new_table_holds_its_own_entry(rt: HostRuntime) -> Result<(), Fail> {
    let own = endpoint(2);
    let shown = own_and_held(&table(rt.alloc())?.copy(rt.alloc())?);
    expect_eq!(shown, (own, (None, Some((5, 1)))))
}

// The endpoint and the generation of the only row.
fn only_row(table: &Table) -> Option<(Endpoint, u32)> {
    match table.owners() {
        [row] => Some((row.endpoint(), row.value().generation().get())),
        _ => None,
    }
}

#[test]
fn the_owners_of_a_new_table(rt: HostRuntime) -> Result<(), Fail> {
    let own = endpoint(2);
    let table = table(rt.alloc())?;
    expect_eq!(only_row(&table), Some((own, 5)))
}

fn only_digest(digests: &[Digest]) -> Option<Digest> {
    match digests {
        [one] => Some(*one),
        _ => None,
    }
}

#[test]
fn the_digests_of_a_new_table(rt: HostRuntime) -> Result<(), Fail> {
    let wanted = Digest {
        endpoint: endpoint(2),
        generation: generation(5),
        newest: Version::first(),
    };
    let digests = table(rt.alloc())?.digests(rt.alloc())?;
    expect_eq!(only_digest(&digests), Some(wanted))
}

// ---- outcomes of deltas

// The table after a delta about an endpoint, and the outcome of the delta: the generation, the version that it is
// above, and the heartbeat version.
fn put(
    alloc: Global,
    table: &Table,
    last: u16,
    delta_of: (u32, u32, u32),
) -> Result<(Table, Took), Fail> {
    let delta = bare_delta(alloc, delta_of)?;
    Ok(table.put_delta(alloc, endpoint(last), &delta)?)
}

// The table of endpoint 2 with endpoint 1 at generation 9 and this heartbeat.
fn table_with(alloc: Global, heartbeat: u32) -> Result<Table, Fail> {
    let (table, took) = put(alloc, &table(alloc)?, 1, (9, 0, heartbeat))?;
    if took != Took::Taken {
        return Err(Fail::from("not taken"));
    }
    Ok(table)
}

#[test]
fn a_delta_changes_its_owner_alone(rt: HostRuntime) -> Result<(), Fail> {
    let table = table_with(rt.alloc(), 1)?;
    let (after, took) = put(rt.alloc(), &table, 1, (9, 1, 3))?;
    let shown = (took, held_of_both(&after), held_of_both(&table));
    let own = Some((5, 1));
    expect_eq!(
        shown,
        (Took::Taken, (Some((9, 3)), own), (Some((9, 1)), own))
    )
}

// The outcome of a delta at the table of endpoint 2 with endpoint 1 at (9, 3).
fn took_of(alloc: Global, last: u16, delta_of: (u32, u32, u32)) -> Result<Took, Fail> {
    let (_after, took) = put(alloc, &table_with(alloc, 3)?, last, delta_of)?;
    Ok(took)
}

#[test]
fn what_becomes_of_deltas(rt: HostRuntime) -> Result<(), Fail> {
    for (last, delta_of, took) in [
        (1, (9, 0, 3), Took::Old),
        (1, (9, 4, 5), Took::Gap),
        (1, (10, 1, 2), Took::Gap),
        (1, (10, 0, 1), Took::Taken),
        (3, (9, 1, 2), Took::Gap),
        (3, (9, 0, 2), Took::Taken),
        (2, (6, 0, 1), Took::Own),
    ] {
        expect_eq!(took_of(rt.alloc(), last, delta_of)?, took)?;
    }
    Ok(())
}

// A restarted holder lacks the version that a delta is above.
#[test]
fn gap_after_restart(rt: HostRuntime) -> Result<(), Fail> {
    let (after, took) = put(rt.alloc(), &table(rt.alloc())?, 1, (9, 2, 5))?;
    expect_eq!((took, after.owners().len()), (Took::Gap, 1))
}

#[test]
fn own_delta(rt: HostRuntime) -> Result<(), Fail> {
    let before = table(rt.alloc())?;
    let (after, took) = put(rt.alloc(), &before, 2, (9, 0, 7))?;
    expect_eq!((took, after.same_entries(&before)), (Took::Own, true))
}

// ---- as many as a table may hold

// A table with a delta about one more endpoint.
fn with_other(alloc: Global, table: &Table, number: u16, delta: &Delta) -> Result<Table, Fail> {
    Ok(table.put_delta(alloc, endpoint(number), delta)?.0)
}

// The table of endpoint 2 with 511 others.
fn crowded(alloc: Global) -> Result<Table, Fail> {
    let whole = bare_delta(alloc, (9, 0, 1))?;
    let mut table = table(alloc)?;
    for number in 1000..1511 {
        table = with_other(alloc, &table, number, &whole)?;
    }
    Ok(table)
}

// The fault of a delta of generation 9 about endpoint 1.
fn refusal(
    alloc: Global,
    table: &Table,
    above: u32,
    heartbeat: u32,
) -> Result<Option<Fault>, Fail> {
    let delta = bare_delta(alloc, (9, above, heartbeat))?;
    Ok(table.put_delta(alloc, endpoint(1), &delta).err())
}

#[test]
fn table_full(rt: HostRuntime) -> Result<(), Fail> {
    let table = crowded(rt.alloc())?;
    let refusal = refusal(rt.alloc(), &table, 0, 1)?;
    expect_eq!(
        (table.owners().len(), refusal),
        (512, Some(Fault::TableFull))
    )
}

#[test]
fn a_full_table_takes_what_needs_no_room(rt: HostRuntime) -> Result<(), Fail> {
    let (_after, took) = put(rt.alloc(), &crowded(rt.alloc())?, 1, (9, 1, 2))?;
    expect_eq!(took, Took::Gap)
}

// The number of owners that a merge holds.
fn owners_of_merge(alloc: Global, one: &Table, other: &Table) -> Result<usize, Fault> {
    Ok(one.merge(alloc, other)?.owners().len())
}

// The number of owners that a merge of the full table holds.
fn owners_merged(alloc: Global, other: &Table) -> Result<Result<usize, Fault>, Fail> {
    Ok(owners_of_merge(alloc, &crowded(alloc)?, other))
}

#[test]
fn a_merge_that_is_full(rt: HostRuntime) -> Result<(), Fail> {
    let other = table_with(rt.alloc(), 1)?;
    expect_eq!(owners_merged(rt.alloc(), &other)?, Err(Fault::TableFull))
}

#[test]
fn a_merge_that_needs_no_room(rt: HostRuntime) -> Result<(), Fail> {
    let alone = table(rt.alloc())?;
    expect_eq!(owners_merged(rt.alloc(), &alone)?, Ok(512))
}

// ---- merges

// The table of endpoint 1 at generation 9, beaten to version 3, with endpoint 2 at generation 5.
fn table_of_1(alloc: Global) -> Result<Table, Fail> {
    let (table, _taken) = put(alloc, &table_of(alloc, 1, 9, 3)?, 2, (5, 0, 1))?;
    Ok(table)
}

// The table of endpoint 2 at generation 5, beaten to version 2, with endpoint 1 at generation 9, version 1.
fn table_of_2(alloc: Global) -> Result<Table, Fail> {
    let (table, _taken) = put(alloc, &table_of(alloc, 2, 5, 2)?, 1, (9, 0, 1))?;
    Ok(table)
}

#[test]
fn tables_before_a_merge(rt: HostRuntime) -> Result<(), Fail> {
    let one = table_of_1(rt.alloc())?;
    expect!(!one.same_entries(&table_of_2(rt.alloc())?))
}

// Each of the two merged with the other.
fn merged(alloc: Global) -> Result<(Table, Table), Fail> {
    let one = table_of_1(alloc)?;
    let two = table_of_2(alloc)?;
    Ok((one.merge(alloc, &two)?, two.merge(alloc, &one)?))
}

// The two merges: the own endpoints, the entries of both endpoints in the first, and whether the second holds the same.
fn held_of_merges(alloc: Global) -> Result<((Endpoint, Endpoint), (Held, Held), bool), Fail> {
    let (here, there) = merged(alloc)?;
    let owns = (here.own(), there.own());
    Ok((owns, held_of_both(&here), here.same_entries(&there)))
}

#[test]
fn merged_tables_hold_the_later_entries(rt: HostRuntime) -> Result<(), Fail> {
    let owns = (endpoint(1), endpoint(2));
    let later = (Some((9, 3)), Some((5, 2)));
    expect_eq!(held_of_merges(rt.alloc())?, (owns, later, true))
}

// The newest version of the own entry, and the entry held of endpoint 1.
fn own_newest(table: &Table) -> (u32, Held) {
    (table.own_entry().newest().get(), held(table, 1))
}

// A table with the own entry of generation 5, version 4.
fn with_newer_own(alloc: Global, table: &Table) -> Result<Table, Fail> {
    let entry = bare_entry(alloc, 5, 4)?;
    Ok(table.with_own(alloc, entry)?)
}

#[test]
fn the_own_entry_is_replaced(rt: HostRuntime) -> Result<(), Fail> {
    let table = table_with(rt.alloc(), 3)?;
    let after = own_newest(&with_newer_own(rt.alloc(), &table)?);
    let other = Some((9, 3));
    expect_eq!((own_newest(&table), after), ((1, other), (4, other)))
}

// The newest version of the first row, if there is one.
fn newest_of_first(rows: &[Row<Entry>]) -> Option<u32> {
    let row = rows.first()?;
    Some(row.value().newest().get())
}

// The row that a delta about endpoint 1 changes at the table of endpoint 2, its outcome, and whether there is room for
// the row.
fn change(alloc: Global, delta_of: (u32, u32, u32)) -> Result<(Option<u32>, Took, bool), Fail> {
    let table = table_with(alloc, 3)?;
    let delta = bare_delta(alloc, delta_of)?;
    let (row, took) = table.delta_change(alloc, endpoint(1), &delta)?;
    let mut rows = Vec::new(alloc);
    push_some(&mut rows, row)?;
    let fits = owners_rise(&rows) && table.has_room_for(&rows);
    Ok((newest_of_first(&rows), took, fits))
}

#[test]
fn what_deltas_change(rt: HostRuntime) -> Result<(), Fail> {
    let alloc = rt.alloc();
    expect_eq!(change(alloc, (9, 0, 3))?, (None, Took::Old, true))?;
    expect_eq!(change(alloc, (9, 3, 5))?, (Some(5), Took::Taken, true))
}

// The outcome of a delta about an endpoint, if this is held of the endpoint.
fn became(
    alloc: Global,
    table: &Table,
    last: u16,
    held: Option<&Entry>,
    delta: &Delta,
) -> Result<Took, Fail> {
    Ok(table.change_at(alloc, endpoint(last), held, delta)?.1)
}

// The same outcome at the table of endpoint 2.
fn took_by(
    alloc: Global,
    last: u16,
    held: Option<&Entry>,
    delta_of: (u32, u32, u32),
) -> Result<Took, Fail> {
    let table = table(alloc)?;
    let delta = bare_delta(alloc, delta_of)?;
    became(alloc, &table, last, held, &delta)
}

// The same outcome if an entry of generation 9 with this version is held, or nothing.
fn took_at(
    alloc: Global,
    last: u16,
    newest: Option<u32>,
    delta_of: (u32, u32, u32),
) -> Result<Took, Fail> {
    let Some(newest) = newest else {
        return took_by(alloc, last, None, delta_of);
    };
    let entry = bare_entry(alloc, 9, newest)?;
    took_by(alloc, last, Some(&entry), delta_of)
}

// The entry that the caller passes decides, and not the one that the table holds.
#[test]
fn what_deltas_change_by_what_is_held(rt: HostRuntime) -> Result<(), Fail> {
    for (last, newest, delta_of, took) in [
        (1, None, (9, 3, 5), Took::Gap),
        (1, None, (9, 0, 5), Took::Taken),
        (1, Some(5), (9, 3, 5), Took::Old),
        (1, Some(3), (9, 3, 5), Took::Taken),
        (2, Some(3), (9, 3, 5), Took::Own),
    ] {
        expect_eq!(took_at(rt.alloc(), last, newest, delta_of)?, took)?;
    }
    Ok(())
}

// Adds the row that a delta about an endpoint changes if nothing of the endpoint is held.
fn push_change(
    alloc: Global,
    rows: &mut Vec<Row<Entry>>,
    table: &Table,
    last: u16,
    delta: &Delta,
) -> Result<(), Fail> {
    let (row, _took) = table.change_at(alloc, endpoint(last), None, delta)?;
    push_some(rows, row)?;
    Ok(())
}

// The rows that whole deltas about endpoints 1 and 3 change if nothing of these is held.
fn changed_rows(alloc: Global, table: &Table) -> Result<Vec<Row<Entry>>, Fail> {
    let delta = bare_delta(alloc, (9, 0, 3))?;
    let mut rows = Vec::new(alloc);
    push_change(alloc, &mut rows, table, 1, &delta)?;
    push_change(alloc, &mut rows, table, 3, &delta)?;
    Ok(rows)
}

// A table with rows put: as rows that are moved in, and as borrowed rows.
fn with_rows(alloc: Global, table: &Table, rows: Vec<Row<Entry>>) -> Result<(Table, Table), Fail> {
    if !owners_rise(&rows) || !table.has_room_for(&rows) {
        return Err(Fail::from("the rows can't be put"));
    }
    let borrowed = table.with_rows(alloc, &rows)?;
    Ok((table.put_rows(alloc, rows)?, borrowed))
}

// The table of endpoint 2 with the changed rows.
fn with_changed_rows(alloc: Global) -> Result<(Table, Table), Fail> {
    let table = table(alloc)?;
    let rows = changed_rows(alloc, &table)?;
    with_rows(alloc, &table, rows)
}

#[test]
fn rows_that_are_put_are_held(rt: HostRuntime) -> Result<(), Fail> {
    let (put, borrowed) = with_changed_rows(rt.alloc())?;
    let shown = (
        held(&put, 3),
        held_of_both(&put),
        put.same_entries(&borrowed),
    );
    let whole = Some((9, 3));
    expect_eq!(shown, (whole, (whole, Some((5, 1))), true))
}

// Tests whether a whole delta about endpoint 1 needs room, and one about endpoint 3.
fn needs(alloc: Global, table: &Table) -> Result<(bool, bool), Fail> {
    let whole = bare_delta(alloc, (9, 0, 1))?;
    let known = table.needs_room(endpoint(1), &whole);
    Ok((known, table.needs_room(endpoint(3), &whole)))
}

#[test]
fn a_stranger_needs_room(rt: HostRuntime) -> Result<(), Fail> {
    let needs = needs(rt.alloc(), &table_with(rt.alloc(), 3)?)?;
    expect_eq!(needs, (false, true))
}

#[test]
fn names_of_what_became_of_deltas() -> Result<(), Fail> {
    for (took, name) in [
        (Took::Taken, "took"),
        (Took::Old, "old"),
        (Took::Gap, "gap"),
        (Took::Own, "own"),
    ] {
        expect_eq!(took.name(), name)?;
    }
    Ok(())
}

fn takes_what_crosses_threads<T: Send + Sync + Drop>(value: T) {
    drop(value);
}

#[test]
fn a_table_may_cross_threads(rt: HostRuntime) -> Result<(), Fail> {
    takes_what_crosses_threads(table(rt.alloc())?);
    Ok(())
}
