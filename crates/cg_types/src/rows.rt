//! The rows of a map, which share their values.

ghost use Rattle.std.specs.Prelude.{◌≡◌, ◌++◌, IsTrue, IfOk, IfErr, OnOk};
ghost use Rattle.cg_types.specs.Rising.{Rises};
ghost use Rattle.cg_types.specs.Rows.{keys_of, before, after, walk, IsRowAt, IsGapAt};

use crate::{Endpoint, Owned, Shows};
use std::alloc::{AllocError, Global};
use std::marker::Model;
use std::ops::Deref;
use std::sync::Arc;

/// A row of a map: an endpoint with a value. Rows that are shared have one value in memory, which none of them changes.
#[derive(Drop)]
pub struct Row<T> {
    endpoint: Endpoint,
    value: Arc<T, Global>,
}

/// A contract sees the endpoint and the value.
impl<T> Model for Row<T> {
    ghost use Rattle.std.specs.Prelude.{ℕ};
    ghost use Rattle.std.specs.Coded.{coded×, coded_ℕ};
    ghost use Rattle.std.specs.Arc.{arc_value};

    ghost Value = { ℕ × T };

    ghost coded = { coded× coded_ℕ T.code };

    ghost view = { λ r. (r.endpoint, arc_value r.value) };
}

impl<T> Row<T> {
    /// Makes a row of its own, in one block of memory. `AllocError` if there is none.
    pub fn new(alloc: Global, endpoint: Endpoint, value: T) -> Result<Row<T>, AllocError>
    where
        T: Drop,
        ensures { IfOk result (λ r. r ≡ (endpoint, value)) }
    {
        Ok(Row {
            endpoint,
            value: Arc::new(alloc, value)?,
        })
    }

    /// The endpoint that the value is held for.
    pub fn endpoint(&self) -> Endpoint
        ensures { result ≡ self.now.0 }
    {
        self.endpoint
    }

    /// The value, which other rows may share.
    pub fn value(&self) -> &T
        ensures { result.now ≡ self.now.1 }
    {
        self.value.deref()
    }

    /// The same row. It copies nothing of the value and takes no memory. `AllocError` could come only if the count of
    /// owners is full, with more owners than memory can hold.
    pub fn share(&self) -> Result<Row<T>, AllocError>
        ensures { IfOk result (λ r. r ≡ self.now) }
    {
        Ok(Row {
            endpoint: self.endpoint,
            value: Arc::try_clone(&self.value)?,
        })
    }
}

impl<T> Owned for Row<T> {
    ghost owner_of = { λ r. r.0 };

    fn owner(&self) -> Endpoint {
        self.endpoint
    }
}

impl<T: Shows> Shows for Row<T> {
    ghost use Rattle.cg_types.specs.Numbers.{IsEndpoint};

    ghost Shown = { λ r. IsEndpoint r.0 × T.Shown r.1 };

    #[inline(always)]
    fn show(&self) {
        self.endpoint.show();
        self.value.deref().show();
    }
}

// The place of the endpoint's row, or the place where it would go, by halving.
fn halve<T>(rows: &[Row<T>], endpoint: Endpoint) -> Result<usize, usize>
    requires { Rises (keys_of rows.now) }
    ensures found { IfOk result (λ at. IsRowAt rows.now endpoint at) }
    ensures absent { IfErr result (λ at. IsGapAt rows.now endpoint at) }
{
    rows.binary_search_by_key(&endpoint, |row| row.endpoint())
}

// Tests whether the endpoint's row is the one at a place.
fn is_at<T>(rows: &[Row<T>], at: usize, endpoint: Endpoint) -> bool
    ensures { IsTrue result → IsRowAt rows.now endpoint at }
{
    at < rows.len() && rows[at].endpoint() == endpoint
}

// The place of the endpoint's row, or the place where it would go. It looks at the place `near` and at the next one,
// where a walk finds most, and then halves.
pub(crate) fn search_near<T>(
    rows: &[Row<T>],
    near: usize,
    endpoint: Endpoint,
) -> Result<usize, usize>
    requires { Rises (keys_of rows.now) }
    ensures found { IfOk result (λ at. IsRowAt rows.now endpoint at) }
    ensures absent { IfErr result (λ at. IsGapAt rows.now endpoint at) }
{
    if is_at(rows, near, endpoint) {
        return Ok(near);
    }
    if near < rows.len() && is_at(rows, near + 1, endpoint) {
        return Ok(near + 1);
    }
    halve(rows, endpoint)
}

// The rows before an endpoint, and those after it.
pub(crate) fn around<T>(rows: &[Row<T>], endpoint: Endpoint) -> (&[Row<T>], &[Row<T>])
    requires { Rises (keys_of rows.now) }
    ensures before { result.0.now ≡ before endpoint rows.now }
    ensures after { result.1.now ≡ after endpoint rows.now }
{
    match search_near(rows, 0, endpoint) {
        Ok(at) => (&rows[..at], &rows[at + 1..]),
        Err(at) => (&rows[..at], &rows[at..]),
    }
}

// Adds the same rows, with no copy of a value.
pub(crate) fn share_all<T: Drop>(
    shared: &mut Vec<Row<T>>,
    rows: &[Row<T>],
) -> Result<(), AllocError>
    ensures { OnOk result (shared.new.items ≡ shared.old.items ++ rows.now) }
{
    for row in rows {
        shared.push(row.share()?)?;
    }
    Ok(())
}

// The rows with the changed rows, in one walk over both. It takes memory for the list alone.
pub(crate) fn walk_rows<T: Drop>(
    alloc: Global,
    rows: &[Row<T>],
    changes: Vec<Row<T>>,
) -> Result<Vec<Row<T>>, AllocError>
    requires { Rises (keys_of rows.now) }
    ensures { IfOk result (λ made. made.items ≡ walk changes.items rows.now) }
{
    let mut made = Vec::with_capacity(alloc, rows.len())?;
    let mut rest = rows;
    for row in changes {
        let (before, after) = around(rest, row.endpoint());
        share_all(&mut made, before)?;
        made.push(row)?;
        rest = after;
    }
    share_all(&mut made, rest)?;
    Ok(made)
}
