//! Cursors: the next item of each endpoint's lives.

ghost use Rattle.std.specs.Prelude.{◌≡◌, ◌+◌, ◌≤◌, ℕ, IfOk, length, option_copied, slice_get};
ghost use Rattle.std.specs.Option.{option_map, option_to_list};
ghost use Rattle.cg_audit.specs.Turns as turns_spec;
ghost use Rattle.cg_audit.specs.Turns.{rest};
ghost use Rattle.cg_audit.specs.Steps.{run_item};
ghost use Rattle.cg_audit.specs.Tracks as tracks_spec;
ghost use Rattle.cg_audit.specs.Tracks.{IsHere, first_cursors, item_here, left_at, track_at};

use crate::lives::Lives;
use crate::step::{Step, item_in};
use cg_history::{History, Item};
use cg_types::Endpoint;
use std::alloc::{AllocError, Global};

/// The life whose turn it is, counted from 0, and the number of its next item. If the life has no item of this number,
/// the next item is the first of the life after it.
#[derive(Clone, Copy, Debug)]
pub(crate) struct Cursor {
    life: usize,
    number: usize,
}

fn history_at(histories: &[History], place: usize) -> Option<&History>
    ensures { option_copied result ≡ slice_get histories.now place }
{
    histories.get(place)
}

// Returns the same cursor, in a life that has an item of the number, if any item is left.
fn settled(histories: &[History], cursor: Cursor) -> Cursor
    ensures same { (e : ℕ) → left_at e histories.now result ≡ left_at e histories.now cursor }
    ensures here { IsHere histories.now result }
{
    match history_at(histories, cursor.life) {
        Some(history) if cursor.number > history.records().len() => Cursor {
            life: cursor.life + 1,
            number: 0,
        },
        _ => cursor,
    }
}

fn item_at(endpoint: Endpoint, histories: &[History], cursor: Cursor) -> Option<Step<'_>>
    ensures { option_map run_item result ≡ item_here endpoint histories.now cursor }
{
    match history_at(histories, cursor.life) {
        None => None,
        Some(history) => item_in(endpoint, history, cursor.number),
    }
}

fn first_in(endpoint: Endpoint, histories: &[History], cursor: Cursor) -> Option<Step<'_>>
    ensures { option_to_list (option_map run_item result) ≡ turns_spec.first (left_at endpoint histories.now cursor) }
{
    let at = settled(histories, cursor);
    item_at(endpoint, histories, at)
}

/// Returns the next item of some lives, if one is left.
pub(crate) fn first(lives: &Lives, cursor: Cursor) -> Option<Step<'_>>
    ensures { option_to_list (option_map run_item result) ≡ turns_spec.first (track_at lives.now cursor).left }
{
    first_in(lives.endpoint(), lives.histories(), cursor)
}

// Returns the next number. It is that of a slice's length, so that it can't overflow.
fn past(records: &[Item], number: usize) -> usize
    requires { number ≤ length records.now }
    ensures { result ≡ number + 1 }
{
    records[..number].len() + 1
}

// Returns the cursor one item further, if the life has an item of the number.
fn after(histories: &[History], cursor: Cursor) -> Cursor
    requires { IsHere histories.now cursor }
    ensures { (e : ℕ) → left_at e histories.now result ≡ rest (left_at e histories.now cursor) }
{
    match history_at(histories, cursor.life) {
        None => cursor,
        Some(history) => Cursor {
            life: cursor.life,
            number: past(history.records(), cursor.number),
        },
    }
}

fn advanced_in(histories: &[History], cursor: Cursor) -> Cursor
    ensures { (e : ℕ) → left_at e histories.now result ≡ rest (left_at e histories.now cursor) }
{
    let at = settled(histories, cursor);
    after(histories, at)
}

/// Returns the cursor after the next item of some lives has gone, if one is left.
pub(crate) fn advanced(lives: &Lives, cursor: Cursor) -> Cursor
    ensures { track_at lives.now result ≡ tracks_spec.advanced (track_at lives.now cursor) }
{
    advanced_in(lives.histories(), cursor)
}

/// Returns the cursors before any item has gone.
pub(crate) fn cursors(alloc: Global, lives: &[Lives]) -> Result<Vec<Cursor>, AllocError>
    ensures { IfOk result (λ v. v.items ≡ first_cursors lives.now) }
{
    let mut cursors = Vec::with_capacity(alloc, lives.len())?;
    for _ in lives {
        cursors.push(Cursor { life: 0, number: 0 })?;
    }
    Ok(cursors)
}
