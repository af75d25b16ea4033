//! Owners with whole new entries, which lead from a table to a later one.

ghost use Rattle.std.specs.Prelude.{◌≡◌, ◌↔◌, ◌∷◌, [], false, None, Ok, IsTrue, IfOk, option_copied};
ghost use Rattle.cg_types.specs.Rising.{Rises, rise_past};
ghost use Rattle.cg_types.specs.Rows.{keys_of};
ghost use Rattle.cg_table.specs.Puts.{rows_at, rising_puts};

use crate::push::push_some;
use crate::table::{Table, are_same_rows};
use cg_entry::Entry;
use cg_types::{Endpoint, Row};
use std::alloc::{AllocError, Global};
use std::marker::Model;

/// Puts of owners, rising, each with a whole new entry, which tables may share.
#[derive(Drop)]
pub struct Puts {
    rows: Vec<Row<Entry>>,
}

/// A contract sees the list of owners with their entries.
impl Model for Puts {
    ghost use Rattle.std.specs.Prelude.{List};
    ghost use Rattle.cg_types.specs.Rising.{Rises};
    ghost use Rattle.cg_types.specs.Rows.{keys_of};
    ghost use Rattle.cg_table.specs.Puts.{Put, puts_code};

    ghost Value = { List Put };

    ghost coded = { puts_code };

    ghost view = { λ p. p.rows.items };

    ghost invariant = { λ p. Rises (keys_of p.rows.items) };
}

impl PartialEq for Puts {
    ghost use Rattle.cg_table.specs.Puts.{puts_code};
    ghost use Rattle.cg_types.specs.Equality.{same_by, same_by-partial};

    ghost eq = { same_by puts_code };

    ghost laws = { same_by-partial puts_code };

    /// Returns `true` if both put the same entries for the same owners, shared or not.
    fn eq(&self, other: &Puts) -> bool
        ensures { IsTrue result ↔ (self.now ≡ other.now) }
    {
        are_same_rows(self.rows(), other.rows())
    }
}

impl Eq for Puts {
    ghost use Rattle.cg_table.specs.Puts.{puts_code};
    ghost use Rattle.cg_types.specs.Equality.{same_by-laws};

    ghost laws = { same_by-laws puts_code };
}

// A row, if there is one, with no copy of its entry.
fn share_some(row: Option<&Row<Entry>>) -> Result<Option<Row<Entry>>, AllocError>
    ensures { IfOk result (λ r. r ≡ option_copied row.entry) }
{
    match row {
        Some(row) => Ok(Some(row.share()?)),
        None => Ok(None),
    }
}

/// Tests whether the owners of puts rise strictly, as those of a list of puts do. It takes no memory.
pub fn puts_rise(puts: &[(Endpoint, Entry)]) -> bool
    ensures { result ≡ rise_past None (keys_of puts.now) }
{
    puts.is_sorted_by(|put, next| put.0 < next.0)
}

// A row of each put, in their order.
fn rows_of(alloc: Global, puts: Vec<(Endpoint, Entry)>) -> Result<Vec<Row<Entry>>, AllocError>
    ensures { IfOk result (λ rows. rows.items ≡ puts.items) }
{
    let mut rows = Vec::with_capacity(alloc, puts.len())?;
    for put in puts {
        let (owner, entry) = put;
        let row = Row::new(alloc, owner, entry)?;
        rows.push(row)?;
    }
    Ok(rows)
}

impl Puts {
    /// A list of no puts. It takes no memory.
    pub fn none(alloc: Global) -> Puts
        ensures { result ≡ [] }
    {
        Puts {
            rows: Vec::new(alloc),
        }
    }

    /// Makes a list of one put. `AllocError` if its row finds no memory.
    pub fn one(alloc: Global, owner: Endpoint, entry: Entry) -> Result<Puts, AllocError>
        ensures { IfOk result (λ p. p ≡ (owner, entry) ∷ []) }
    {
        let mut rows = Vec::with_capacity(alloc, 1)?;
        rows.push(Row::new(alloc, owner, entry)?)?;
        Ok(Puts { rows })
    }

    /// Makes a list of puts; `None` if the owners do not rise strictly, whatever memory there is. `AllocError` if the
    /// list or a row finds no memory.
    pub fn of(alloc: Global, puts: Vec<(Endpoint, Entry)>) -> Result<Option<Puts>, AllocError>
        ensures due { IfOk result (λ made. made ≡ rising_puts puts.items) }
        ensures none { rise_past None (keys_of puts.items) ≡ false → result ≡ Ok None }
    {
        if !puts_rise(&puts) {
            return Ok(None);
        }
        let rows = rows_of(alloc, puts)?;
        Ok(Some(Puts { rows }))
    }

    /// Makes puts of what a table holds of some owners, which have to rise, as `endpoints_rise` tests. It shares the
    /// entries with the table; an owner that the table does not hold is left out. `AllocError` if the list of rows
    /// finds no memory.
    pub fn of_owners(alloc: Global, table: &Table, owners: &[Endpoint]) -> Result<Puts, AllocError>
        requires { Rises owners.now }
        ensures { IfOk result (λ p. p ≡ rows_at table.now.entries owners.now) }
    {
        let mut rows = Vec::with_capacity(alloc, owners.len())?;
        for owner in owners {
            let row = table.row_near(rows.len(), *owner);
            push_some(&mut rows, share_some(row)?)?;
        }
        Ok(Puts { rows })
    }

    /// The owners with their entries, rising.
    pub fn rows(&self) -> &[Row<Entry>]
        ensures value { result.now ≡ self.now }
        ensures rise { Rises (keys_of result.now) }
    {
        &self.rows
    }

    /// The same puts, which share their entries. `AllocError` if the list of rows finds no memory.
    pub fn copy(&self, alloc: Global) -> Result<Puts, AllocError>
        ensures { IfOk result (λ p. p ≡ self.now) }
    {
        let puts = self.rows();
        let mut rows = Vec::with_capacity(alloc, puts.len())?;
        for row in puts {
            rows.push(row.share()?)?;
        }
        Ok(Puts { rows })
    }
}
