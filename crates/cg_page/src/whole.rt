//! The whole page.

ghost use Rattle.std.specs.Prelude.{◌≡◌, ◌++◌, OnOk, IfOk};
ghost use Rattle.std.specs.FinMap as map;
ghost use Rattle.cg_page.specs.Page.{page_html};

use crate::parts::{add, add_endpoint, add_escaped};
use crate::ring::add_arcs;
use crate::rows::add_rows;
use crate::template::{AFTER_NAME, AFTER_RING, AFTER_ROWS, AFTER_SCRIPT, BEFORE_NAME, SCRIPT};
use cg_status::Status;
use cg_table::Table;
use cg_tokens::Ring;
use std::alloc::{AllocError, Global};

/// Returns the page of a status, the entries of a table, and the table's ring. `AllocError` if it finds no memory.
pub fn page(
    alloc: Global,
    status: &Status,
    table: &Table,
    ring: &Ring,
) -> Result<Vec<u8>, AllocError>
    ensures { IfOk result (λ page. page.items
        ≡ page_html status.now (map.entries table.now.entries) (map.entries ring.now.positions)) }
{
    let mut page = Vec::new(alloc);
    add(&mut page, BEFORE_NAME)?;
    add_endpoint(alloc, &mut page, status.own)?;
    add(&mut page, " ")?;
    add_escaped(&mut page, status.cluster.name())?;
    add(&mut page, AFTER_NAME)?;
    add_arcs(alloc, &mut page, ring.positions())?;
    add(&mut page, AFTER_RING)?;
    add_rows(alloc, &mut page, table.owners(), status)?;
    add(&mut page, AFTER_ROWS)?;
    add(&mut page, SCRIPT)?;
    add(&mut page, AFTER_SCRIPT)?;
    Ok(page)
}
