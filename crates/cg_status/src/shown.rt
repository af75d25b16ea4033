//! The status in JSON.

ghost use Rattle.std.specs.Prelude.{◌≡◌, ◌++◌, ◌∷◌, [], Some, OnOk, IfOk, option_copied};
ghost use Rattle.std.specs.Str.{IsUtf8};
ghost use Rattle.std.specs.List.{flat_map};
ghost use Rattle.std.specs.FinMap as map;
ghost use Rattle.json.specs.Json.{document};
ghost use Rattle.json.specs.Token.{begin_object, end_object, begin_array, end_array};
ghost use Rattle.json.specs.Print.{print};
ghost use Rattle.json.specs.Tree.{json_tokens};
ghost use Rattle.cg_status.specs.Status as spec;
ghost use Rattle.cg_status.specs.Flat.{head_tokens, seen_tokens, state_tokens, pair_tokens, number_tokens, row_tokens};

use crate::counters::add_counters;
use crate::fields::{add_endpoint, add_number, add_text};
use crate::status::{Seen, Status};
use cg_entry::Entry;
use cg_table::Table;
use cg_types::{Row, StateKey, StateText};
use json::Writer;
use std::alloc::{AllocError, Global};

// Adds a key's name and its text; nothing of a tombstone.
fn add_state(writer: &mut Writer, key: StateKey, text: Option<&StateText>) -> Result<(), AllocError>
    ensures tokens { OnOk result (writer.new.tokens ≡ writer.old.tokens ++ state_tokens key (option_copied text.entry)) }
    ensures before { OnOk result (writer.new.before ≡ writer.old.before) }
{
    match text {
        Some(text) => add_text(writer, key.name(), text.as_str()),
        None => Ok(()),
    }
}

// Adds the texts of an entry, as members.
fn add_members(writer: &mut Writer, entry: &Entry) -> Result<(), AllocError>
    ensures tokens { OnOk result (writer.new.tokens
        ≡ writer.old.tokens ++ flat_map pair_tokens (map.entries entry.now.states)) }
    ensures before { OnOk result (writer.new.before ≡ writer.old.before) }
{
    let states = entry.by_key();
    for place in 0..states.len() {
        let (key, text, _) = states.at(place);
        add_state(writer, key, text)?;
    }
    Ok(())
}

// Adds the texts of an entry, as an object.
fn add_states(writer: &mut Writer, entry: &Entry) -> Result<(), AllocError>
    ensures tokens { OnOk result (writer.new.tokens
        ≡ writer.old.tokens ++ json_tokens (spec.states_json (map.entries entry.now.states))) }
    ensures before { OnOk result (writer.new.before ≡ writer.old.before) }
{
    writer.begin_object()?;
    add_members(writer, entry)?;
    writer.end_object()
}

// Adds the verdict on an endpoint and the time since its last arrival.
fn add_seen(writer: &mut Writer, seen: Option<Seen>) -> Result<(), AllocError>
    ensures tokens { OnOk result (writer.new.tokens ≡ writer.old.tokens ++ seen_tokens seen) }
    ensures before { OnOk result (writer.new.before ≡ writer.old.before) }
{
    let Some(seen) = seen else {
        return Ok(());
    };
    add_text(writer, "verdict", seen.verdict.name())?;
    match seen.since {
        Some(since) => add_number(writer, "since_ms", since),
        None => Ok(()),
    }
}

// Adds the numbers of an entry.
fn add_numbers(writer: &mut Writer, entry: &Entry) -> Result<(), AllocError>
    ensures tokens { OnOk result (writer.new.tokens ≡ writer.old.tokens ++ number_tokens entry.now) }
    ensures before { OnOk result (writer.new.before ≡ writer.old.before) }
{
    add_number(writer, "generation", u64::from(entry.generation().get()))?;
    add_number(writer, "heartbeat", u64::from(entry.heartbeat().get()))?;
    add_number(writer, "newest", u64::from(entry.newest().get()))
}

// Adds an endpoint and its entry, as an object.
fn add_row(
    alloc: Global,
    writer: &mut Writer,
    row: &Row<Entry>,
    status: &Status,
) -> Result<(), AllocError>
    ensures tokens { OnOk result (writer.new.tokens ≡ writer.old.tokens ++ row_tokens status.now.seen.items row.now) }
    ensures before { OnOk result (writer.new.before ≡ writer.old.before) }
{
    writer.begin_object()?;
    writer.key("endpoint")?;
    add_endpoint(alloc, writer, row.endpoint())?;
    add_numbers(writer, row.value())?;
    add_seen(writer, status.of(row.endpoint()))?;
    writer.key("states")?;
    add_states(writer, row.value())?;
    writer.end_object()
}

// Adds the endpoints and their entries, one after the other.
fn add_items(
    alloc: Global,
    writer: &mut Writer,
    rows: &[Row<Entry>],
    status: &Status,
) -> Result<(), AllocError>
    ensures tokens { OnOk result (writer.new.tokens
        ≡ writer.old.tokens ++ flat_map (row_tokens status.now.seen.items) rows.now) }
    ensures before { OnOk result (writer.new.before ≡ writer.old.before) }
{
    for row in rows {
        add_row(alloc, writer, row, status)?;
    }
    Ok(())
}

// Adds the endpoints and their entries, as an array.
fn add_rows(
    alloc: Global,
    writer: &mut Writer,
    rows: &[Row<Entry>],
    status: &Status,
) -> Result<(), AllocError>
    ensures tokens { OnOk result (writer.new.tokens
        ≡ writer.old.tokens ++ json_tokens (spec.rows_json status.now.seen.items rows.now)) }
    ensures before { OnOk result (writer.new.before ≡ writer.old.before) }
{
    writer.begin_array()?;
    add_items(alloc, writer, rows, status)?;
    writer.end_array()
}

// Adds what the node says of itself alone.
fn add_head(alloc: Global, writer: &mut Writer, status: &Status) -> Result<(), AllocError>
    ensures tokens { OnOk result (writer.new.tokens ≡ writer.old.tokens ++ head_tokens status.now) }
    ensures before { OnOk result (writer.new.before ≡ writer.old.before) }
{
    writer.key("endpoint")?;
    add_endpoint(alloc, writer, status.own)?;
    add_number(writer, "generation", u64::from(status.generation.get()))?;
    add_text(writer, "cluster", status.cluster.name())?;
    add_number(writer, "uptime_ms", status.uptime)?;
    add_number(writer, "versions_left", u64::from(status.versions_left))
}

fn add_status(
    alloc: Global,
    writer: &mut Writer,
    status: &Status,
    table: &Table,
) -> Result<(), AllocError>
    ensures tokens { OnOk result (writer.new.tokens
        ≡ writer.old.tokens ++ json_tokens (spec.status_json status.now (map.entries table.now.entries))) }
    ensures before { OnOk result (writer.new.before ≡ writer.old.before) }
{
    writer.begin_object()?;
    add_head(alloc, writer, status)?;
    writer.key("counters")?;
    add_counters(writer, &status.counters, &status.broken)?;
    writer.key("endpoints")?;
    add_rows(alloc, writer, table.owners(), status)?;
    writer.end_object()
}

/// Returns the status of a node and the entries of a table, in JSON: the node's endpoint, generation, cluster, uptime
/// and counters; and of each endpoint its generation, heartbeat, newest version, verdict, the milliseconds since its
/// last arrival, and its texts by the names of their keys. A key whose text was removed is left out. `AllocError` if it
/// finds no memory.
pub fn status_json(alloc: Global, status: &Status, table: &Table) -> Result<Vec<u8>, AllocError>
    // It is one value of JSON, whatever the texts hold.
    ensures value { IfOk result (λ body. document body.items
        ≡ Some (spec.status_json status.now (map.entries table.now.entries))) }
    ensures text { IfOk result (λ body. body.items
        ≡ print (json_tokens (spec.status_json status.now (map.entries table.now.entries)))) }
    ensures utf8 { IfOk result (λ body. IsUtf8 body.items) }
{
    let mut writer = Writer::new(Vec::new(alloc));
    add_status(alloc, &mut writer, status, table)?;
    Ok(writer.into_inner())
}
