//! A finite map from endpoints to entries.

ghost use Rattle.std.specs.Prelude.{◌≡◌, ◌≤◌, ◌↔◌, ℕ, true, false, IsTrue, IfOk, IfErr, is_some, length, option_copied};
ghost use Rattle.cg_types.specs.Answer.{Answers};
ghost use Rattle.cg_table.specs.Merge as merge_spec;
ghost use Rattle.cg_table.specs.Merge.{later_of, merging};
ghost use Rattle.cg_table.specs.Taking as taking_spec;
ghost use Rattle.cg_table.specs.Taking.{change_of, putting_delta};
ghost use Rattle.std.specs.FinMap as map;
ghost use Rattle.cg_types.specs.Rising.{Rises};
ghost use Rattle.cg_types.specs.Rows.{keys_of};
ghost use Rattle.cg_types.specs.Map.{put_each};
ghost use Rattle.cg_table.specs.Own as own_spec;
ghost use Rattle.cg_table.specs.Puts.{row_at};
ghost use Rattle.cg_table.specs.Table.{lone_table, digest_of, digests_of};
ghost use Rattle.cg_table.specs.Values.{AreOwnerEntries};

use cg_entry::{Absorbed, Delta, Digest, Entry, Took, meet};
use cg_types::{Endpoint, Fault, MEMBER_LIMIT, Row, SharedMap, Shows, show_all};
use std::alloc::{AllocError, Global};
use std::marker::Model;

/// A table: the entries that a member holds, at most `MEMBER_LIMIT`, one of them the member's own.
#[derive(Drop)]
pub struct Table {
    own: Endpoint,
    entries: SharedMap<Entry>,
}

impl Model for Table {
    ghost use Rattle.cg_table.specs.Values.{TableValue, table_code, IsTable, AreOwnerEntries};

    ghost Value = { TableValue };

    ghost coded = { table_code };

    ghost view = { λ t. record { own = t.own; entries = t.entries } };

    ghost invariant = { λ t. IsTable t.own t.entries × AreOwnerEntries t.entries };
}

fn digest_of_row(row: &Row<Entry>) -> Digest
    ensures { result ≡ digest_of row.now }
{
    Digest {
        endpoint: row.endpoint(),
        generation: row.value().generation(),
        newest: row.value().newest(),
    }
}

// Tests whether an entry is later than what is held of its endpoint.
fn is_ahead(held: Option<&Entry>, theirs: &Entry) -> bool
    ensures { result ≡ merge_spec.is_ahead (option_copied held.entry) theirs.now }
{
    match held {
        None => true,
        Some(ours) => theirs.is_later(ours),
    }
}

// Tests whether both are the same rows.
pub(crate) fn are_same_rows(ours: &[Row<Entry>], theirs: &[Row<Entry>]) -> bool
    ensures { IsTrue result ↔ (ours.now ≡ theirs.now) }
{
    if ours.len() != theirs.len() {
        return false;
    }
    for i in 0..ours.len() {
        if !is_same_row(&ours[i], &theirs[i]) {
            return false;
        }
    }
    true
}

fn is_same_row(ours: &Row<Entry>, theirs: &Row<Entry>) -> bool
    ensures { IsTrue result ↔ (ours.now ≡ theirs.now) }
{
    ours.endpoint() == theirs.endpoint() && ours.value().is_same(theirs.value())
}

impl Table {
    /// Makes a table that holds the own entry alone. `AllocError` if its one row finds no memory.
    pub fn new(alloc: Global, own: Endpoint, entry: Entry) -> Result<Table, AllocError>
        ensures { IfOk result (λ t. t ≡ lone_table own entry) }
    {
        let row = Row::new(alloc, own, entry)?;
        row.show();
        let none = SharedMap::new(alloc);
        Ok(Table {
            own,
            entries: none.put_row(alloc, row)?,
        })
    }

    /// The endpoint of the member that holds the table.
    pub fn own(&self) -> Endpoint
        ensures value { result ≡ self.now.own }
        ensures own_held { is_some (map.get self.now.entries self.now.own) ≡ true }
    {
        self.own
    }

    /// The entry of an endpoint, if it is held.
    pub fn get(&self, endpoint: Endpoint) -> Option<&Entry>
        ensures { option_copied result ≡ map.get self.now.entries endpoint }
    {
        self.entries.get(endpoint)
    }

    /// The entry of an endpoint, as `get` gives it, whatever the place `near` is. It looks there first: in a walk over
    /// endpoints that rise, most are found at the place of the last one or the next.
    pub fn get_near(&self, near: usize, endpoint: Endpoint) -> Option<&Entry>
        ensures { option_copied result ≡ map.get self.now.entries endpoint }
    {
        self.entries.get_near(near, endpoint)
    }

    /// The row of an endpoint, whose entry can be shared, if there is one.
    pub fn row(&self, endpoint: Endpoint) -> Option<&Row<Entry>>
        ensures { option_copied result ≡ row_at self.now.entries endpoint }
    {
        self.entries.row(endpoint)
    }

    /// The row of an endpoint, as `row` gives it, looked for near a place first.
    pub(crate) fn row_near(&self, near: usize, endpoint: Endpoint) -> Option<&Row<Entry>>
        ensures { option_copied result ≡ row_at self.now.entries endpoint }
    {
        self.entries.row_near(near, endpoint)
    }

    /// The entry of the member's own endpoint, which every table holds.
    pub fn own_entry(&self) -> &Entry
        ensures { result.now ≡ own_spec.own_entry self.now }
    {
        match self.get(self.own) {
            Some(entry) => entry,
            None => unreachable!(),
        }
    }

    /// The rows of the endpoints that are held, each with its entry, rising by endpoint.
    pub fn owners(&self) -> &[Row<Entry>]
        ensures value { result.now ≡ map.entries self.now.entries }
        ensures rise { Rises (keys_of result.now) }
        ensures few { length result.now ≤ MEMBER_LIMIT }
        ensures valid { AreOwnerEntries self.now.entries }
    {
        self.entries.rows()
    }

    /// Makes a digest of each entry, rising by endpoint (Cassandra's list of `GossipDigest`). `AllocError` if the list
    /// finds no memory.
    pub fn digests(&self, alloc: Global) -> Result<Vec<Digest>, AllocError>
        ensures value { IfOk result (λ ds. ds.items ≡ digests_of self.now.entries) }
        ensures few { IfOk result (λ ds. length ds.items ≤ MEMBER_LIMIT) }
    {
        let owners = self.owners();
        let mut digests = Vec::with_capacity(alloc, owners.len())?;
        for row in owners {
            digests.push_reserved(digest_of_row(row));
        }
        Ok(digests)
    }

    /// The same table, which shares its entries. `AllocError` if its list of rows finds no memory.
    pub fn copy(&self, alloc: Global) -> Result<Table, AllocError>
        ensures { IfOk result (λ t. t ≡ self.now) }
    {
        Ok(Table {
            own: self.own,
            entries: self.entries.copy(alloc)?,
        })
    }

    // Counts the endpoints that are held.
    fn len(&self) -> usize
        ensures value { result ≡ map.len self.now.entries }
        ensures few { result ≤ MEMBER_LIMIT }
    {
        let owners = self.owners();
        owners.len()
    }

    /// Tests whether both tables hold the same entries. Their own endpoints may differ.
    pub fn same_entries(&self, other: &Table) -> bool
        ensures { IsTrue result ↔ (self.now.entries ≡ other.now.entries) }
    {
        are_same_rows(self.owners(), other.owners())
    }

    /// Tests whether a delta needs room for one more endpoint: it is whole, and about one that is not held.
    pub fn needs_room(&self, endpoint: Endpoint, delta: &Delta) -> bool
        ensures { result ≡ taking_spec.needs_room self.now.entries endpoint delta.now }
    {
        delta.above() == 0 && self.get(endpoint).is_none()
    }

    // A table with a row put, if there is one, which shares all others.
    fn with_row(&self, alloc: Global, row: Option<Row<Entry>>) -> Result<Table, AllocError>
        requires { map.len (taking_spec.with_row row self.now.entries) ≤ MEMBER_LIMIT }
        ensures { IfOk result (λ t.
            t ≡ record { own = self.now.own; entries = taking_spec.with_row row self.now.entries }) }
    {
        let Some(row) = row else {
            return self.copy(alloc);
        };
        row.show();
        Ok(Table {
            own: self.own,
            entries: self.entries.put_row(alloc, row)?,
        })
    }

    /// Returns the table with another entry for its own endpoint. It shares all others. `AllocError` if the new row or
    /// the list of rows finds no memory.
    pub fn with_own(&self, alloc: Global, entry: Entry) -> Result<Table, AllocError>
        ensures { IfOk result (λ t. t ≡ own_spec.with_own entry self.now) }
    {
        let row = Row::new(alloc, self.own, entry)?;
        self.with_row(alloc, Some(row))
    }

    /// Returns the change that a delta about an endpoint makes, given the entry held of the endpoint, if there is one.
    /// The change is the row that the delta leads to, if it is taken, and the outcome. No delta changes the own entry.
    /// The table itself stays unchanged: `put_rows` puts such rows. `AllocError` only if the delta is taken, and the
    /// new entry or its row finds no memory.
    pub fn change_at(
        &self,
        alloc: Global,
        endpoint: Endpoint,
        held: Option<&Entry>,
        delta: &Delta,
    ) -> Result<(Option<Row<Entry>>, Took), AllocError>
        ensures value { IfOk result (λ x.
            x ≡ taking_spec.change_at self.now.own endpoint (option_copied held.entry) delta.now) }
        // Memory is short only if the delta is taken.
        ensures refused { IfErr result (λ _.
            is_some (taking_spec.change_at self.now.own endpoint (option_copied held.entry) delta.now).0 ≡ true) }
    {
        if endpoint == self.own {
            return Ok((None, Took::Own));
        }
        Ok(match meet(alloc, held, delta)? {
            Absorbed::Taken(entry) => (Some(Row::new(alloc, endpoint, entry)?), Took::Taken),
            Absorbed::Old => (None, Took::Old),
            Absorbed::Gap => (None, Took::Gap),
        })
    }

    /// Returns the change that a delta makes, as `change_at` does, given what the table holds of the endpoint.
    pub fn delta_change(
        &self,
        alloc: Global,
        endpoint: Endpoint,
        delta: &Delta,
    ) -> Result<(Option<Row<Entry>>, Took), AllocError>
        ensures value { IfOk result (λ x. x ≡ change_of self.now endpoint delta.now) }
        ensures refused { IfErr result (λ _. is_some (change_of self.now endpoint delta.now).0 ≡ true) }
    {
        self.change_at(alloc, endpoint, self.get(endpoint), delta)
    }

    /// Returns the table after a delta about an endpoint, and the delta's outcome. No other owner's entry changes.
    /// `TableFull` if a whole delta is about an endpoint that is not held, and `MEMBER_LIMIT` are held. `OutOfMemory`
    /// never comes in its place, and is else the only refusal.
    pub fn put_delta(
        &self,
        alloc: Global,
        endpoint: Endpoint,
        delta: &Delta,
    ) -> Result<(Table, Took), Fault>
        ensures { Answers (λ x. x) (putting_delta self.now endpoint delta.now) result }
    {
        let held = self.len();
        if self.needs_room(endpoint, delta) && held + 1 > MEMBER_LIMIT {
            return Err(Fault::TableFull);
        }
        let (row, took) = self.delta_change(alloc, endpoint, delta)?;
        Ok((self.with_row(alloc, row)?, took))
    }

    // Counts the rows about endpoints that are not held.
    fn strangers(&self, rows: &[Row<Entry>]) -> usize
        ensures value { result ≡ merge_spec.strangers self.now.entries rows.now }
        ensures few { result ≤ length rows.now }
    {
        let mut count = 0;
        for row in rows {
            if self.get(row.endpoint()).is_none() {
                count += 1;
            }
        }
        count
    }

    // Counts the endpoints that both tables hold together.
    fn owners_together(&self, other: &Table) -> usize
        ensures { result ≡ merge_spec.owners_together self.now.entries other.now.entries }
    {
        self.len() + self.strangers(other.owners())
    }

    /// Tests whether at most `MEMBER_LIMIT` endpoints are held with the rows put, as `with_rows` requires. The rows
    /// have to rise by endpoint.
    pub fn has_room_for(&self, rows: &[Row<Entry>]) -> bool
        requires { Rises (keys_of rows.now) }
        ensures { IsTrue result ↔ (map.len (put_each rows.now self.now.entries) ≤ MEMBER_LIMIT) }
    {
        self.strangers(rows) <= MEMBER_LIMIT - self.len()
    }

    // The other table's rows that are later than what is held of their owners.
    fn later_entries(&self, alloc: Global, other: &Table) -> Result<Vec<Row<Entry>>, AllocError>
        ensures { IfOk result (λ v. v.items ≡ merge_spec.later_entries self.now.entries other.now.entries) }
    {
        let owners = other.owners();
        let mut later = Vec::new(alloc);
        for row in owners {
            if is_ahead(self.get(row.endpoint()), row.value()) {
                later.push(row.share()?)?;
            }
        }
        Ok(later)
    }

    /// Returns a table with each of the rows put, in one walk over both lists. All entries are shared, the new ones
    /// too. The rows have to rise by endpoint, and with them at most `MEMBER_LIMIT` endpoints may be held:
    /// `owners_rise` of `cg_types` and `has_room_for` test that. `AllocError` if the list of rows finds no memory.
    pub fn put_rows(&self, alloc: Global, changes: Vec<Row<Entry>>) -> Result<Table, AllocError>
        requires rise { Rises (keys_of changes.items) }
        requires room { map.len (put_each changes.items self.now.entries) ≤ MEMBER_LIMIT }
        ensures { IfOk result (λ t.
            t ≡ record { own = self.now.own; entries = put_each changes.items self.now.entries }) }
    {
        show_all(&changes);
        Ok(Table {
            own: self.own,
            entries: self.entries.put_rows(alloc, changes)?,
        })
    }

    /// Returns a table with each of the rows put, as `put_rows` does, of borrowed rows, which it shares. `AllocError`
    /// if one of the two lists finds no memory.
    pub fn with_rows(&self, alloc: Global, changes: &[Row<Entry>]) -> Result<Table, AllocError>
        requires rise { Rises (keys_of changes.now) }
        requires room { map.len (put_each changes.now self.now.entries) ≤ MEMBER_LIMIT }
        ensures { IfOk result (λ t.
            t ≡ record { own = self.now.own; entries = put_each changes.now self.now.entries }) }
    {
        show_all(changes);
        Ok(Table {
            own: self.own,
            entries: self.entries.with_rows(alloc, changes)?,
        })
    }

    /// Merges two tables: owner by owner the later entry, this table's if neither is later; `own` stays. Entries are
    /// shared, not copied. `TableFull` if both together hold more than `MEMBER_LIMIT` endpoints; `OutOfMemory` never
    /// comes in its place, and is else the only refusal.
    pub fn merge(&self, alloc: Global, other: &Table) -> Result<Table, Fault>
        ensures due { Answers (λ t. t) (merging self.now other.now) result }
        ensures each { IfOk result (λ t. (owner : ℕ) → map.get t.entries owner
            ≡ later_of (map.get self.now.entries owner) (map.get other.now.entries owner)) }
    {
        if self.owners_together(other) > MEMBER_LIMIT {
            return Err(Fault::TableFull);
        }
        let later = self.later_entries(alloc, other)?;
        Ok(self.put_rows(alloc, later)?)
    }
}
