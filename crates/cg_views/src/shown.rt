//! Published tables, and the rule that they keep.

ghost use Rattle.std.specs.Prelude.{◌≡◌, ◌≤◌, ◌↔◌, IfOk, IsTrue};
ghost use Rattle.std.specs.FinMap as map;
ghost use Rattle.cg_types.specs.declared.limits.TheConstants.{MEMBER_LIMIT};
ghost use Rattle.cg_table.specs.Puts.{with_puts};
ghost use Rattle.cg_views.specs.Lists.{MayFollow};

use crate::following::may_follow;
use crate::front::{Front, Naming};
use cg_table::{Puts, Table};
use crossbeam_utils::rule::{Outcome, Protocol};
use left_right::Absorb;
use std::alloc::{AllocError, Global};
use std::marker::{Model, PhantomData};
use std::ops::Deref;
use std::sync::Arc;

/// A table, and the operations that made it. An operation hands on the table to which it leads, so a shown one takes it
/// in by sharing it.
#[derive(Drop)]
pub(crate) struct Shown {
    pub(crate) table: Arc<Table, Global>,
    pub(crate) front: Front,
}

impl Model for Shown {
    ghost use Rattle.std.specs.Arc.{arc_value};
    ghost use Rattle.cg_views.specs.Shows.{ShownValue, shown_code};

    ghost Value = { ShownValue };

    ghost coded = { shown_code };

    ghost view = { λ s. record { table = arc_value s.table; front = s.front } };
}

impl Shown {
    /// Makes a shown table of a table and the operations that made it.
    pub(crate) fn of(alloc: Global, table: Table, front: Front) -> Result<Shown, AllocError>
        ensures { IfOk result (λ s. s ≡ record { table = table; front = front }) }
    {
        Ok(Shown {
            table: Arc::new(alloc, table)?,
            front,
        })
    }

    /// Returns `true` if puts may follow in its table.
    pub(crate) fn may_follow(&self, puts: &Puts) -> bool
        ensures { IsTrue result ↔ MayFollow self.now.table puts.now }
    {
        may_follow(self.table.deref(), puts)
    }

    /// Returns the table after more puts.
    pub(crate) fn table_with(&self, alloc: Global, puts: &Puts) -> Result<Table, AllocError>
        requires { map.len (with_puts self.now.table puts.now).entries ≤ MEMBER_LIMIT }
        ensures { IfOk result (λ t. t ≡ with_puts self.now.table puts.now) }
    {
        self.table.deref().with_rows(alloc, puts.rows())
    }

    /// Returns the operations.
    pub(crate) fn front(&self) -> Front
        ensures { result ≡ self.now.front }
    {
        self.front.again()
    }

    /// Returns the same table and operations. It takes no memory.
    pub(crate) fn again(&self) -> Result<Shown, AllocError>
        ensures { IfOk result (λ s. s ≡ self.now) }
    {
        Ok(Shown {
            table: Arc::try_clone(&self.table)?,
            front: self.front.again(),
        })
    }
}

impl Absorb<Shown> for Shown {
    ghost use Rattle.cg_views.specs.Shows.{latest};

    type State = Shown;

    ghost state = { λ s. s };

    ghost applied = { latest };

    fn absorb_first(&mut self, operation: &Shown, _other: &Shown) -> Result<(), AllocError> {
        let next = operation.again()?;
        *self = next;
        Ok(())
    }
}

/// The operations that a pass or the publisher has seen. No value of it is made; a contract reads an array as a list of
/// any length.
pub(crate) type Known = [Puts; 0];

/// The rule of the views under a name. The published table is the opening table after its operations, and the
/// operations that each pass has seen are a prefix of these.
pub struct Published<N: Naming> {
    of: PhantomData<N>,
}

impl<N: Naming> Protocol<Shown, Known> for Published<N> {
    ghost use Rattle.std.specs.Prelude.{[]};
    ghost use Rattle.cg_views.specs.Rules.{Keeps};

    ghost holds = { Keeps N.book N.opening };

    ghost first = { [] };
}

/// The outcome of a read and of a publication: the operations seen before begin the ones seen now.
pub(crate) struct Sees<N: Naming> {
    of: PhantomData<N>,
}

impl<N: Naming> Outcome<Shown, Known> for Sees<N> {
    ghost use Rattle.cg_views.specs.Rules.{FindsShown};

    ghost then = { FindsShown N.book N.opening };
}
