//! A finite map from endpoints to shared values.

ghost use Rattle.std.specs.Prelude.{◌≡◌, IfOk, IsOk, option_copied};
ghost use Rattle.std.specs.Option.{option_map};
ghost use Rattle.std.specs.FinMap as map;
ghost use Rattle.cg_types.specs.Rising.{Rises};
ghost use Rattle.cg_types.specs.Rows.{keys_of};
ghost use Rattle.cg_types.specs.Map.{put_each};

use crate::Endpoint;
use crate::rows::{Row, around, search_near, share_all, walk_rows};
use std::alloc::{AllocError, Global};
use std::marker::Model;

/// A map from endpoints to values, in the order of the endpoints. Maps that are made from one another share the values
/// that did not change, so that a copy is a list of rows.
#[derive(Drop)]
pub struct SharedMap<T> {
    rows: Vec<Row<T>>,
}

/// A contract sees a finite map from endpoints to values.
impl<T> Model for SharedMap<T> {
    ghost use Rattle.std.specs.Ordering.{nat_cmp};
    ghost use Rattle.std.specs.FinMap as map;
    ghost use Rattle.std.specs.Coded.{coded_ℕ};
    ghost use Rattle.cg_types.specs.Rising.{Rises};
    ghost use Rattle.cg_types.specs.Rows.{keys_of};

    ghost Value = { map.FinMap nat_cmp T };

    ghost coded = { map.code coded_ℕ T.code };

    ghost view = { λ m. map.from_sorted m.rows.items };

    ghost invariant = { λ m. Rises (keys_of m.rows.items) };
}

impl<T: Drop> SharedMap<T> {
    /// A map with no rows. It takes no memory.
    pub fn new(alloc: Global) -> SharedMap<T>
        ensures { result ≡ map.empty }
    {
        SharedMap {
            rows: Vec::new(alloc),
        }
    }

    /// The value held for an endpoint, if there is one.
    pub fn get(&self, endpoint: Endpoint) -> Option<&T>
        ensures { option_copied result ≡ map.get self.now endpoint }
    {
        self.get_near(0, endpoint)
    }

    /// The value held for an endpoint, as `get` gives it, whatever the place `near` is. It looks at that row and the
    /// next one first: in a walk over endpoints that rise, most are found there.
    pub fn get_near(&self, near: usize, endpoint: Endpoint) -> Option<&T>
        ensures { option_copied result ≡ map.get self.now endpoint }
    {
        match search_near(&self.rows, near, endpoint) {
            Ok(at) => Some(self.rows[at].value()),
            Err(_) => None,
        }
    }

    /// The row of an endpoint, if there is one.
    pub fn row(&self, endpoint: Endpoint) -> Option<&Row<T>>
        ensures { option_copied result ≡ option_map (λ v. (endpoint, v)) (map.get self.now endpoint) }
    {
        self.row_near(0, endpoint)
    }

    /// The row of an endpoint, as `row` gives it, looked for near a place first, as `get_near` does.
    pub fn row_near(&self, near: usize, endpoint: Endpoint) -> Option<&Row<T>>
        ensures { option_copied result ≡ option_map (λ v. (endpoint, v)) (map.get self.now endpoint) }
    {
        match search_near(&self.rows, near, endpoint) {
            Ok(at) => Some(&self.rows[at]),
            Err(_) => None,
        }
    }

    /// All rows, rising by endpoint.
    pub fn rows(&self) -> &[Row<T>]
        ensures value { result.now ≡ map.entries self.now }
        ensures rise { Rises (keys_of result.now) }
    {
        &self.rows
    }

    /// Returns a map with one value put, which shares all others. `AllocError` if the new row or the list of rows finds
    /// no memory.
    pub fn put(
        &self,
        alloc: Global,
        endpoint: Endpoint,
        value: T,
    ) -> Result<SharedMap<T>, AllocError>
        ensures { IfOk result (λ m. m ≡ map.insert self.now endpoint value) }
    {
        self.put_row(alloc, Row::new(alloc, endpoint, value)?)
    }

    /// Returns a map with one row put, which shares all others. `AllocError` if the list of rows finds no memory.
    pub fn put_row(&self, alloc: Global, row: Row<T>) -> Result<SharedMap<T>, AllocError>
        ensures { IfOk result (λ m. m ≡ map.insert self.now row.0 row.1) }
    {
        let (before, after) = around(&self.rows, row.endpoint());
        let mut rows = Vec::with_capacity(alloc, before.len() + 1 + after.len())?;
        share_all(&mut rows, before)?;
        rows.push(row)?;
        share_all(&mut rows, after)?;
        Ok(SharedMap { rows })
    }

    /// Returns a map with each of the rows put, in one walk. It shares all values. The rows have to rise by endpoint,
    /// as `owners_rise` of `cg_types` tests. `AllocError` if the list of rows finds no memory.
    pub fn put_rows(&self, alloc: Global, changes: Vec<Row<T>>) -> Result<SharedMap<T>, AllocError>
        requires { Rises (keys_of changes.items) }
        ensures { IfOk result (λ m. m ≡ put_each changes.items self.now) }
    {
        Ok(SharedMap {
            rows: walk_rows(alloc, &self.rows, changes)?,
        })
    }

    /// Returns a map with each of the rows put, as `put_rows` does, of borrowed rows, which it shares. `AllocError` if
    /// one of the two lists finds no memory.
    pub fn with_rows(&self, alloc: Global, changes: &[Row<T>]) -> Result<SharedMap<T>, AllocError>
        requires { Rises (keys_of changes.now) }
        ensures { IfOk result (λ m. m ≡ put_each changes.now self.now) }
    {
        let mut rows = Vec::with_capacity(alloc, changes.len())?;
        share_all(&mut rows, changes)?;
        self.put_rows(alloc, rows)
    }

    /// The same map, which shares its values. `AllocError` if its list of rows finds no memory; an empty map needs
    /// none.
    pub fn copy(&self, alloc: Global) -> Result<SharedMap<T>, AllocError>
        ensures value { IfOk result (λ m. m ≡ self.now) }
        ensures empty { self.now ≡ map.empty → IsOk result }
    {
        let shared = self.rows();
        if shared.is_empty() {
            return Ok(SharedMap::new(alloc));
        }
        let mut rows = Vec::with_capacity(alloc, shared.len())?;
        share_all(&mut rows, shared)?;
        Ok(SharedMap { rows })
    }
}
