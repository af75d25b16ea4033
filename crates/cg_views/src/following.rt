//! The test whether puts may follow in a table.

ghost use Rattle.std.specs.Prelude.{◌≡◌, ◌↔◌, IsTrue};
ghost use Rattle.std.specs.FinMap as map;
ghost use Rattle.std.specs.List.{list_all};
ghost use Rattle.cg_types.specs.Rising.{Rises};
ghost use Rattle.cg_types.specs.Rows.{keys_of};
ghost use Rattle.cg_table.specs.Puts as spec;
ghost use Rattle.cg_table.specs.Puts.{is_held_from};
ghost use Rattle.cg_views.specs.Lists.{MayFollow};

use cg_entry::Entry;
use cg_table::{Puts, Table};
use cg_types::{Row, StateKey, Version};

// Returns `true` if an entry has a state of this key, or its tombstone, at no smaller version.
fn keeps_key(entry: &Entry, key: StateKey, version: Version) -> bool
    ensures { result ≡ is_held_from version (map.get entry.now.states key) }
{
    match entry.state(key) {
        Some((_text, held)) => version.get() <= held.get(),
        None => false,
    }
}

fn keeps_keys(before: &Entry, after: &Entry) -> bool
    ensures { result ≡ spec.keeps_keys before.now.states after.now.states }
{
    let states = before.by_key();
    for place in 0..states.len() {
        let (key, _text, version) = states.at(place);
        if !keeps_key(after, key, version) {
            return false;
        }
    }
    true
}

// Returns `true` if a row is later than what is held and, if it is the table's own, goes on from it.
fn is_in_order(table: &Table, row: &Row<Entry>) -> bool
    ensures { result ≡ spec.is_in_order table.now row.now }
{
    let is_own = row.endpoint() == table.own();
    let after = row.value();
    let Some(before) = table.get(row.endpoint()) else {
        return !is_own;
    };
    let goes_on = after.generation() == before.generation() && keeps_keys(before, after);
    after.is_later(before) && (!is_own || goes_on)
}

fn each_is_in_order(table: &Table, rows: &[Row<Entry>]) -> bool
    ensures { result ≡ list_all (spec.is_in_order table.now) rows.now }
{
    rows.iter().all(|row| is_in_order(table, row))
}

// Since the rows rise, the entry held before each is the one that the table holds.
fn keep_order(table: &Table, rows: &[Row<Entry>]) -> bool
    requires { Rises (keys_of rows.now) }
    ensures { result ≡ spec.keep_order table.now rows.now }
{
    each_is_in_order(table, rows)
}

/// Returns `true` if puts may follow in a table.
pub(crate) fn may_follow(table: &Table, puts: &Puts) -> bool
    ensures { IsTrue result ↔ MayFollow table.now puts.now }
{
    let rows = puts.rows();
    keep_order(table, rows) && table.has_room_for(rows)
}
