//! Rules of taking an ACK or an ACK2.

ghost use Rattle.std.specs.Prelude.{◌≡◌, ◌≤◌, IfOk, length, map, option_copied};
ghost use Rattle.std.specs.List.{filter_map};
ghost use Rattle.cg_types.specs.Answer.{Answers};
ghost use Rattle.cg_types.specs.Rising.{Rises};
ghost use Rattle.cg_messages.specs.Members.{endpoints_of_deltas, endpoints_of_outcomes};
ghost use Rattle.cg_exchange.specs.Taking as taking_spec;
ghost use Rattle.cg_exchange.specs.Taking.{table_after, outcome_of, outcomes_of, grant_of, taking_ack, taking_ack2};
ghost use Rattle.cg_exchange.specs.Changes as changes_spec;
ghost use Rattle.cg_exchange.specs.Changes.{row_changed};

use crate::walking::{first_about, rising_from};
use cg_entry::{Delta, Entry, Took};
use cg_messages::{Ack, Ack2, Outcome, OwnerDelta, Request};
use cg_table::{Table, push_some};
use cg_types::{Fault, MEMBER_LIMIT, Row};
use std::alloc::{AllocError, Global};

// Counts the endpoints that would be held after the deltas.
fn held_after(table: &Table, deltas: &[OwnerDelta]) -> usize
    requires { length deltas.now ≤ MEMBER_LIMIT }
    ensures { result ≡ taking_spec.held_after table.now deltas.now }
{
    let owners = table.owners();
    let mut count = owners.len();
    for sent in deltas {
        if table.needs_room(sent.endpoint, &sent.delta) {
            count += 1;
        }
    }
    count
}

// The change that a delta makes, by the row of its endpoint.
fn changed_by(
    alloc: Global,
    table: &Table,
    sent: &OwnerDelta,
    row: Option<&Row<Entry>>,
) -> Result<(Option<Row<Entry>>, Took), AllocError>
    ensures { IfOk result (λ x. x ≡ changes_spec.changed_by table.now sent.now (option_copied row.entry)) }
{
    match row {
        Some(row) => table.change_at(alloc, sent.endpoint, Some(row.value()), &sent.delta),
        None => table.change_at(alloc, sent.endpoint, None, &sent.delta),
    }
}

// The rows that the deltas change, and the outcome of each delta: in one walk over deltas and rows, since both rise.
fn changes(
    alloc: Global,
    table: &Table,
    deltas: &[OwnerDelta],
) -> Result<(Vec<Row<Entry>>, Vec<Outcome>), AllocError>
    requires { Rises (endpoints_of_deltas deltas.now) }
    ensures rows { IfOk result (λ x. x.0.items ≡ filter_map (row_changed table.now) deltas.now) }
    ensures outcomes { IfOk result (λ x. x.1.items ≡ map (outcome_of table.now) deltas.now) }
{
    let mut rows = Vec::with_capacity(alloc, deltas.len())?;
    let mut outcomes = Vec::with_capacity(alloc, deltas.len())?;
    let mut held = table.owners();
    for sent in deltas {
        let endpoint = sent.endpoint;
        held = rising_from(held, endpoint);
        let (row, took) = changed_by(alloc, table, sent, first_about(held, endpoint))?;
        push_some(&mut rows, row)?;
        outcomes.push(Outcome { endpoint, took })?;
    }
    Ok((rows, outcomes))
}

// The table after the deltas, for which there is room, and the outcome of each. Each delta is about another owner, so
// that all of them meet the same table.
fn take_deltas(
    alloc: Global,
    table: &Table,
    deltas: &[OwnerDelta],
) -> Result<(Table, Vec<Outcome>), AllocError>
    requires rise { Rises (endpoints_of_deltas deltas.now) }
    requires room { taking_spec.held_after table.now deltas.now ≤ MEMBER_LIMIT }
    ensures after { IfOk result (λ x. x.0 ≡ table_after table.now deltas.now) }
    ensures outcomes { IfOk result (λ x. x.1.items ≡ outcomes_of table.now deltas.now) }
{
    let (rows, outcomes) = changes(alloc, table, deltas)?;
    Ok((table.put_rows(alloc, rows)?, outcomes))
}

// The delta that answers a request, from an entry or from none.
fn grant(alloc: Global, request: Request, held: Option<&Entry>) -> Result<Option<Delta>, AllocError>
    ensures { IfOk result (λ d. d ≡ grant_of request (option_copied held.entry)) }
{
    let Some(entry) = held else {
        return Ok(None);
    };
    if entry.generation() < request.generation() {
        return Ok(None);
    }
    if entry.generation() == request.generation() {
        return entry.above(alloc, request.version());
    }
    entry.above(alloc, 0)
}

// The delta that answers a request. The entry is looked for near a place first.
fn delta_granted(
    alloc: Global,
    table: &Table,
    near: usize,
    request: Request,
) -> Result<Option<OwnerDelta>, AllocError>
    ensures { IfOk result (λ d. d ≡ taking_spec.delta_granted table.now.entries request) }
{
    let endpoint = request.endpoint();
    match grant(alloc, request, table.get_near(near, endpoint))? {
        Some(delta) => Ok(Some(OwnerDelta { endpoint, delta })),
        None => Ok(None),
    }
}

fn deltas_granted(
    alloc: Global,
    table: &Table,
    requests: &[Request],
) -> Result<Vec<OwnerDelta>, AllocError>
    ensures { IfOk result (λ v. v.items ≡ taking_spec.deltas_granted table.now.entries requests.now) }
{
    let mut deltas = Vec::new(alloc);
    for request in requests {
        let delta = delta_granted(alloc, table, deltas.len(), *request)?;
        push_some(&mut deltas, delta)?;
    }
    Ok(deltas)
}

/// Takes an ACK: returns the table after it, the answer to its requests, and the outcome of each delta, in the order of
/// the deltas. The deltas are taken first, and the requests are answered from the table that they make, by generation
/// and by version. An answer is made even if nothing is sent. Entries that no delta changes are shared.
///
/// `TableFull` if more than `MEMBER_LIMIT` endpoints would be held: those that are, and those that are not and that
/// whole deltas are about. `OutOfMemory` never comes in its place. Else `OutOfMemory` comes if there is no memory for
/// the new table, the answer and the outcomes. `table` is unchanged in each case.
pub fn take_ack(
    alloc: Global,
    table: &Table,
    ack: &Ack,
) -> Result<(Table, Ack2, Vec<Outcome>), Fault>
    ensures due { Answers (λ x. (x.0, x.1, x.2.items)) (taking_ack table.now ack.now) result }
    ensures rise { IfOk result (λ x. Rises (endpoints_of_outcomes x.2.items)) }
{
    if held_after(table, ack.deltas()) > MEMBER_LIMIT {
        return Err(Fault::TableFull);
    }
    let (after, outcomes) = take_deltas(alloc, table, ack.deltas())?;
    let deltas = deltas_granted(alloc, &after, ack.requests())?;
    Ok((after, Ack2::of_parts(deltas), outcomes))
}

/// Takes an ACK2: returns the table after it, and the outcome of each delta, in the order of the deltas. Entries that
/// no delta changes are shared. `TableFull` as for an ACK. Else `OutOfMemory` if there is no memory for the new table
/// and the outcomes. `table` is unchanged in each case.
pub fn take_ack2(alloc: Global, table: &Table, ack2: &Ack2) -> Result<(Table, Vec<Outcome>), Fault>
    ensures due { Answers (λ x. (x.0, x.1.items)) (taking_ack2 table.now ack2.now) result }
    ensures rise { IfOk result (λ x. Rises (endpoints_of_outcomes x.1.items)) }
{
    if held_after(table, ack2.deltas()) > MEMBER_LIMIT {
        return Err(Fault::TableFull);
    }
    Ok(take_deltas(alloc, table, ack2.deltas())?)
}
