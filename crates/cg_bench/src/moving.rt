//! A ring that is moved to the next entry of one owner.

use cg_entry::{Absorbed, Entry, meet};
use cg_measure::{Failure, leaving};
use cg_table::Table;
use cg_testing::endpoint;
use cg_tokens::Ring;
use std::alloc::{AllocError, Global};
use std::marker::Model;

// The number of the owner who leaves.
const LEAVING: u16 = 7;

/// A table with the ring of its claims, and the next entry of one owner.
#[derive(Drop)]
pub(crate) struct Moving {
    table: Table,
    ring: Ring,
    next: Entry,
}

impl Model for Moving {
    ghost use Rattle.cg_tokens.specs.Moving.{IsRingOf};
    ghost use Rattle.cg_table.specs.Values.{TableValue, table_code};

    ghost Value = { TableValue };

    ghost coded = { table_code };

    ghost view = { λ m. m.table };

    ghost invariant = { λ m. IsRingOf m.table.entries m.ring };
}

// The entry of the owner who leaves.
fn left(alloc: Global, table: &Table) -> Result<Entry, Failure> {
    match meet(alloc, table.get(endpoint(LEAVING)), &leaving(alloc)?)? {
        Absorbed::Taken(entry) => Ok(entry),
        Absorbed::Old | Absorbed::Gap => Err(Failure::Lacking("an entry")),
    }
}

impl Moving {
    /// Makes the ring of a table, and the next entry of the owner who leaves it.
    pub(crate) fn of(alloc: Global, table: Table) -> Result<Moving, Failure> {
        let ring = Ring::of_table(alloc, &table)?;
        let next = left(alloc, &table)?;
        Ok(Moving { table, ring, next })
    }

    /// Makes the ring after the owner has left.
    pub(crate) fn ring_after(&self, alloc: Global) -> Result<Ring, AllocError> {
        let owner = endpoint(LEAVING);
        self.ring
            .moved(alloc, owner, self.table.get(owner), &self.next)
    }
}
