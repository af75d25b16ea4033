//! The rows of the table.

ghost use Rattle.std.specs.Prelude.{◌≡◌, ◌++◌, OnOk, option_copied};
ghost use Rattle.std.specs.List.{flat_map};
ghost use Rattle.std.specs.FinMap as map;
ghost use Rattle.cg_page.specs.Rows as spec;

use crate::colour::add_colour;
use crate::parts::{add, add_endpoint, add_escaped, add_number};
use cg_entry::Entry;
use cg_status::{Seen, Status};
use cg_types::{Endpoint, Row, StateKey, StateText};
use std::alloc::{AllocError, Global};

// Adds a key's name and its text.
fn add_text(page: &mut Vec<u8>, key: StateKey, text: &StateText) -> Result<(), AllocError>
    ensures { OnOk result (page.new.items ≡ page.old.items ++ spec.text_html key text.now) }
{
    add(page, "<dt>")?;
    add(page, key.name())?;
    add(page, "</dt><dd>")?;
    add_escaped(page, text.as_str())?;
    add(page, "</dd>\n")
}

// Adds the key of a state and its text; nothing of a tombstone.
fn add_state(page: &mut Vec<u8>, key: StateKey, text: Option<&StateText>) -> Result<(), AllocError>
    ensures { OnOk result (page.new.items ≡ page.old.items ++ spec.some_html key (option_copied text.entry)) }
{
    match text {
        Some(text) => add_text(page, key, text),
        None => Ok(()),
    }
}

// Adds the texts of an entry.
fn add_states(page: &mut Vec<u8>, entry: &Entry) -> Result<(), AllocError>
    ensures { OnOk result (page.new.items ≡ page.old.items ++ flat_map spec.state_html (map.entries entry.now.states)) }
{
    let states = entry.by_key();
    for place in 0..states.len() {
        let (key, text, _) = states.at(place);
        add_state(page, key, text)?;
    }
    Ok(())
}

// Adds a cell with a number.
#[tactic(auto, unfolding(crate::specs::Rows::number_cell))]
fn add_cell(page: &mut Vec<u8>, number: u64) -> Result<(), AllocError>
    ensures { OnOk result (page.new.items ≡ page.old.items ++ spec.number_cell number) }
{
    add(page, "<td>")?;
    add_number(page, number)?;
    add(page, "</td>")
}

// Adds the cell of a time, if there is one.
fn add_since(page: &mut Vec<u8>, since: Option<u64>) -> Result<(), AllocError>
    ensures { OnOk result (page.new.items ≡ page.old.items ++ spec.since_cell since) }
{
    match since {
        Some(since) => add_cell(page, since),
        None => add(page, "<td></td>"),
    }
}

// Adds the cells of the verdict on an endpoint, and of the time since its last arrival.
#[tactic(auto, unfolding(crate::specs::Rows::seen_cells))]
fn add_seen(page: &mut Vec<u8>, seen: Option<Seen>) -> Result<(), AllocError>
    ensures { OnOk result (page.new.items ≡ page.old.items ++ spec.seen_cells seen) }
{
    let Some(seen) = seen else {
        return add(page, "<td></td><td></td>");
    };
    add(page, "<td>")?;
    add(page, seen.verdict.name())?;
    add(page, "</td>")?;
    add_since(page, seen.since)
}

// Adds the cells of the numbers of an entry.
#[tactic(auto, unfolding(crate::specs::Rows::number_cells))]
fn add_cells(page: &mut Vec<u8>, entry: &Entry) -> Result<(), AllocError>
    ensures { OnOk result (page.new.items ≡ page.old.items ++ spec.number_cells entry.now) }
{
    add_cell(page, u64::from(entry.generation().get()))?;
    add_cell(page, u64::from(entry.heartbeat().get()))?;
    add_cell(page, u64::from(entry.newest().get()))
}

// Adds the head of an endpoint's row, with its colour.
#[tactic(auto, unfolding(crate::specs::Rows::head_cell))]
fn add_head(alloc: Global, page: &mut Vec<u8>, endpoint: Endpoint) -> Result<(), AllocError>
    ensures { OnOk result (page.new.items ≡ page.old.items ++ spec.head_cell endpoint) }
{
    add(page, "<tr id=\"")?;
    add_endpoint(alloc, page, endpoint)?;
    add(page, "\"><th scope=\"row\"><i style=\"background:")?;
    add_colour(page, endpoint)?;
    add(page, "\"></i>")?;
    add_endpoint(alloc, page, endpoint)?;
    add(page, "</th>")
}

// Adds the row of an endpoint.
#[tactic(auto, unfolding(crate::specs::Rows::row_html))]
fn add_row(
    alloc: Global,
    page: &mut Vec<u8>,
    row: &Row<Entry>,
    status: &Status,
) -> Result<(), AllocError>
    ensures { OnOk result (page.new.items ≡ page.old.items ++ spec.row_html status.now.seen.items row.now) }
{
    add_head(alloc, page, row.endpoint())?;
    add_cells(page, row.value())?;
    add_seen(page, status.of(row.endpoint()))?;
    add(page, "<td><details><summary>")?;
    add_number(page, row.value().count() as u64)?;
    add(page, "</summary><dl>\n")?;
    add_states(page, row.value())?;
    add(page, "</dl></details></td></tr>\n")
}

/// Adds the row of each endpoint.
pub(crate) fn add_rows(
    alloc: Global,
    page: &mut Vec<u8>,
    rows: &[Row<Entry>],
    status: &Status,
) -> Result<(), AllocError>
    ensures { OnOk result (page.new.items
        ≡ page.old.items ++ flat_map (spec.row_html status.now.seen.items) rows.now) }
{
    for row in rows {
        add_row(alloc, page, row, status)?;
    }
    Ok(())
}
