//! Passes, by which threads read the published table.

ghost use Rattle.std.specs.Prelude.{◌≡◌, ◌⊎◌, [], true, Err, IfOk, IfErr, IfSome, OnOk};
ghost use Rattle.cg_types.specs.declared.fault.Fault.TheVariants as faults;
ghost use Rattle.cg_table.specs.Puts.{with_puts, keep_order};
ghost use Rattle.cg_views.specs.Lists.{StartsWith, joined};
ghost use Rattle.left_right.specs.Sides.{view};

use crate::front::{Front, Naming};
use crate::shown::{Known, Published, Sees, Shown};
use cg_table::Table;
use cg_types::Fault;
use core::mem::replace_with;
use left_right::reader::Reader;
use std::alloc::Global;
use std::marker::{Model, PhantomData};
use std::ops::Deref;
use std::sync::Arc;

/// The puts that were published at a call of `Publisher::tell`. A contract sees these puts.
#[derive(Drop)]
pub struct Told<N: Naming> {
    front: Front,
    of: PhantomData<N>,
}

impl<N: Naming> Model for Told<N> {
    ghost use Rattle.std.specs.Prelude.{◌≡◌, List};
    ghost use Rattle.cg_table.specs.Puts.{Put, puts_code};
    ghost use Rattle.cg_views.specs.Lists.{joined};

    ghost Value = { List Put };

    ghost coded = { puts_code };

    ghost view = { λ t. joined t.front.all };

    ghost invariant = { λ t. t.front.of ≡ N.book };
}

impl<N: Naming> Told<N> {
    pub(crate) fn over(front: Front) -> Told<N>
        requires { front.of ≡ N.book }
        ensures { result ≡ joined front.all }
    {
        Told {
            front,
            of: PhantomData,
        }
    }
}

/// A table that a pass read. It shares the published one.
#[derive(Drop)]
pub struct Snapshot {
    table: Arc<Table, Global>,
}

impl Model for Snapshot {
    ghost use Rattle.std.specs.Arc.{arc_value};
    ghost use Rattle.cg_table.specs.Values.{TableValue, table_code};

    ghost Value = { TableValue };

    ghost coded = { table_code };

    ghost view = { λ s. arc_value s.table };
}

impl Snapshot {
    /// The table that was read.
    pub fn table(&self) -> &Table
        ensures { result.now ≡ self.now }
    {
        self.table.deref()
    }
}

/// A right to read what is published, with no lock. A contract sees the puts that it has read or learnt.
#[derive(Drop)]
pub struct Pass<N: Naming> {
    // `None` if no place was left for it, which never happens
    reader: Option<Reader<Shown, Known, Published<N>>>,
    known: Front,
}

impl<N: Naming> Model for Pass<N> {
    ghost use Rattle.std.specs.Prelude.{◌≡◌, List, IfSome};
    ghost use mathlib.Core.List.{IsPrefix};
    ghost use Rattle.left_right.specs.Sides as spec;
    ghost use Rattle.cg_table.specs.Puts.{Put, puts_code};
    ghost use Rattle.cg_views.specs.Lists.{joined};

    ghost Value = { List Put };

    ghost coded = { puts_code };

    ghost view = { λ p. joined p.known.all };

    ghost invariant = { λ p. (p.known.of ≡ N.book) × IfSome p.reader (λ r. IsPrefix (spec.view r.place) p.known.all) };
}

impl<N: Naming> Pass<N> {
    pub(crate) fn over(reader: Option<Reader<Shown, Known, Published<N>>>, known: Front) -> Pass<N>
        requires known { known ≡ record { of = N.book; all = [] } }
        requires view { IfSome reader (λ r. view r.place ≡ []) }
        ensures { result ≡ [] }
    {
        Pass { reader, known }
    }

    /// Reads the opening table after puts that begin with all that this pass has read or learnt. These puts it has then
    /// read. It waits for nobody.
    ///
    /// `NoSuchNode` if the publisher is gone; then the pass is unchanged. `OutOfMemory` if the count of those who share
    /// the table is full.
    pub fn read(&mut self) -> Result<Snapshot, Fault>
        ensures later { StartsWith self.new self.old }
        ensures table { IfOk result (λ s. s ≡ with_puts N.opening self.new) }
        ensures order { OnOk result (keep_order N.opening self.new ≡ true) }
        ensures gone { (result ≡ Err faults.NoSuchNode) → self.new ≡ self.old }
        ensures err { IfErr result (λ f. (f ≡ faults.NoSuchNode) ⊎ (f ≡ faults.OutOfMemory)) }
    {
        replace_with(self, (), read_out)
    }

    /// Learns what was told: from now on the pass reads no less.
    pub fn learn(&mut self, told: Told<N>)
        ensures old { StartsWith self.new self.old }
        ensures told { StartsWith self.new told }
    {
        if told.front.reaches(&self.known) {
            self.known = told.front.again();
        }
    }
}

fn read_out<N: Naming>(pass: Pass<N>, _with: ()) -> (Pass<N>, Result<Snapshot, Fault>)
    ensures later { StartsWith result.0 pass }
    ensures table { IfOk result.1 (λ s. s ≡ with_puts N.opening result.0) }
    ensures order { OnOk result.1 (keep_order N.opening result.0 ≡ true) }
    ensures gone { (result.1 ≡ Err faults.NoSuchNode) → result.0 ≡ pass }
    ensures err { IfErr result.1 (λ f. (f ≡ faults.NoSuchNode) ⊎ (f ≡ faults.OutOfMemory)) }
{
    let Pass { reader, known } = pass;
    let Some(reader) = reader else {
        return (
            Pass {
                reader: None,
                known,
            },
            Err(Fault::NoSuchNode),
        );
    };
    let reading = match reader.enter_as::<Sees<N>>() {
        Ok(reading) => reading,
        Err(reader) => return (
            Pass {
                reader: Some(reader),
                known,
            },
            Err(Fault::NoSuchNode),
        ),
    };
    let shown = reading.get();
    if !shown.front.reaches(&known) {
        // A learnt list is published before it is told, so this never happens, though no proof rules it out.
        let reader = Some(reading.leave());
        return (Pass { reader, known }, Err(Fault::NoSuchNode));
    }
    let known = shown.front.again();
    let shared = Arc::try_clone(&shown.table);
    let reader = Some(reading.leave());
    let result = match shared {
        Ok(table) => Ok(Snapshot { table }),
        Err(_) => Err(Fault::OutOfMemory),
    };
    (Pass { reader, known }, result)
}
