//! The publisher of a table.

ghost use Rattle.std.specs.Prelude.{◌≡◌, ◌∷◌, ◌<◌, ◌≤◌, ◌↔◌, [], vec_len, IfOk, IfSome, IsTrue, OnOk, OnErr};
ghost use Rattle.std.specs.List.{All};
ghost use Rattle.cg_types.specs.Rising.{Rises};
ghost use Rattle.cg_types.specs.Rows.{keys_of};
ghost use Rattle.left_right.specs.Sides.{view};
ghost use Rattle.cg_views.specs.Lists.{MayAppend, appended, opened_with, all_published};

use crate::front::{Head, Naming, Opened};
use crate::limits::PASS_LIMIT;
use crate::pass::{Pass, Told};
use crate::shown::{Known, Published, Sees, Shown};
use cg_entry::Entry;
use cg_table::{Puts, Table};
use cg_types::Endpoint;
use core::mem::replace_with;
use left_right::reader::Reader;
use left_right::writer::Writer;
use std::alloc::{AllocError, Global};
use std::marker::Model;
use std::sync::{Arc, Wait};

/// The publisher of a table. A contract sees the table that the views open with, the published puts, and the pending
/// ones. `close` ends it.
pub struct Publisher<N: Naming> {
    writer: Writer<Shown, Shown, Known, Published<N>>,
    last: Shown,
    book: Head,
}

impl<N: Naming> Model for Publisher<N> {
    ghost use Rattle.cg_views.specs.Lists.{PublisherValue, publisher_code};
    ghost use Rattle.cg_views.specs.Shows.{publisher_of, IsPublisher};

    ghost Value = { PublisherValue };

    ghost coded = { publisher_code };

    ghost view = { λ p. publisher_of N.opening p.writer.desk.shown.value.front p.last.front };

    ghost invariant = { λ p.
        IsPublisher N.book N.opening p.writer.desk.shown.value p.last p.book.head.book };
}

impl<N: Naming> Publisher<N> {
    /// Returns `true` if puts may be appended. Each has to be later than its owner's entry, in the opening table or
    /// appended since. The own one keeps the generation and all keys, none at a smaller version, and at most
    /// `MEMBER_LIMIT` owners are held with them. It takes no memory.
    pub fn may_append(&self, puts: &Puts) -> bool
        ensures { IsTrue result ↔ MayAppend self.now puts.now }
    {
        self.last.may_follow(puts)
    }

    // Makes one operation of these puts. All that can be refused comes before the book is told of it, so that what is
    // refused leaves the book as it was.
    fn add(&mut self, alloc: Global, puts: &Puts) -> Result<(), AllocError>
        requires { MayAppend self.old puts.now }
        ensures ok { OnOk result (self.new ≡ appended puts.now self.old) }
        ensures err { OnErr result (self.new ≡ self.old) }
    {
        let table = self.last.table_with(alloc, puts)?;
        let table = Arc::new(alloc, table)?;
        let mut front = self.last.front();
        if front.len() >= 1 << 62 || !front.add(&self.book, puts) {
            // The publisher alone adds to its book, so this never happens, though no proof rules it out.
            return Err(AllocError);
        }
        self.last = Shown { table, front };
        Ok(())
    }

    /// Makes one operation of a put, which is then pending. `may_append` says whether it may. If it is refused, for
    /// want of memory, nothing changes, and the entry is gone.
    pub fn append(&mut self, alloc: Global, owner: Endpoint, entry: Entry) -> Result<(), AllocError>
        requires { MayAppend self.old ((owner, entry) ∷ []) }
        ensures ok { OnOk result (self.new ≡ appended ((owner, entry) ∷ []) self.old) }
        ensures err { OnErr result (self.new ≡ self.old) }
    {
        let put = Puts::one(alloc, owner, entry)?;
        self.add(alloc, &put)
    }

    /// Makes one operation of all these puts, an owner with an entry each, which are then pending. The owners have to
    /// rise, as `puts_rise` tests, and `may_append` says whether `Puts` of them may be appended; no puts always may, and
    /// make an operation too. If it is refused, for want of memory, nothing changes, and the list is gone.
    pub fn append_all(
        &mut self,
        alloc: Global,
        puts: Vec<(Endpoint, Entry)>,
    ) -> Result<(), AllocError>
        requires rise { Rises (keys_of puts.items) }
        requires later { MayAppend self.old puts.items }
        ensures ok { OnOk result (self.new ≡ appended puts.items self.old) }
        ensures err { OnErr result (self.new ≡ self.old) }
    {
        let made = Puts::of(alloc, puts)?;
        match made {
            Some(puts) => self.add(alloc, &puts),
            None => unreachable!(),
        }
    }

    /// Appends as `append_all` does, of puts that may share their entries with a table.
    pub fn append_puts(&mut self, alloc: Global, puts: Puts) -> Result<(), AllocError>
        requires { MayAppend self.old puts }
        ensures ok { OnOk result (self.new ≡ appended puts self.old) }
        ensures err { OnErr result (self.new ≡ self.old) }
    {
        self.add(alloc, &puts)
    }

    /// Moves all pending puts, in order, to the end of the published ones. It waits for passes that still read the
    /// table before the last one. If it is refused, for want of memory, neither list changes.
    pub fn publish<R: Wait>(&mut self, rt: &R) -> Result<(), AllocError>
        ensures ok { OnOk result (self.new ≡ all_published self.old) }
        ensures err { OnErr result (self.new ≡ self.old) }
    {
        replace_with(self, rt, publish_out)
    }

    /// Returns what is published, for passes to learn. It takes no memory. The views open with the name's opening table.
    pub fn tell(&self) -> Told<N>
        ensures told { result ≡ self.now.published }
        ensures opening { self.now.opening ≡ N.opening }
    {
        Told::over(self.writer.published().front())
    }

    // Returns a reader that has seen nothing. There are as many places as passes, so there is always one, though no
    // proof says so.
    fn reader(&self) -> Option<Reader<Shown, Known, Published<N>>>
        ensures { IfSome result (λ r. view r.place ≡ []) }
    {
        self.writer.factory().reader().ok()
    }

    /// Waits for passes that still read, and ends the views: from then on passes read nothing.
    pub fn close<R: Wait>(self, rt: &R) {
        let Publisher {
            writer,
            last: _last,
            book: _book,
        } = self;
        writer.take(rt);
    }
}

fn publish_out<N: Naming, R: Wait>(
    publisher: Publisher<N>,
    rt: &R,
) -> (Publisher<N>, Result<(), AllocError>)
    ensures ok { OnOk result.1 (result.0 ≡ all_published publisher) }
    ensures err { OnErr result.1 (result.0 ≡ publisher) }
{
    let Publisher {
        mut writer,
        last,
        book,
    } = publisher;
    let Ok(operation) = last.again() else {
        return (Publisher { writer, last, book }, Err(AllocError));
    };
    match writer.append(operation) {
        Ok(()) => {}
        Err(_) => return (Publisher { writer, last, book }, Err(AllocError)),
    }
    let (writer, result) = writer.publish_as::<Sees<N>, R>(rt);
    match result {
        Ok(()) => (Publisher { writer, last, book }, Ok(())),
        Err(_) => (Publisher { writer, last, book }, Err(AllocError)),
    }
}

/// Makes a publisher of a table, and `readers` passes, 1 to `PASS_LIMIT`. It returns `AllocError` if one of its parts finds no
/// memory.
pub fn views<N: Naming>(
    alloc: Global,
    opened: Opened,
    table: Table,
    readers: usize,
) -> Result<(Publisher<N>, Vec<Pass<N>>), AllocError>
    requires book { opened ≡ N.book }
    requires opening { table ≡ N.opening }
    requires readers { (0 < readers) × (readers ≤ PASS_LIMIT) }
    ensures publisher { IfOk result (λ r. r.0 ≡ opened_with N.opening) }
    ensures passes { IfOk result (λ r. (vec_len r.1 ≡ readers) × All (λ p. p ≡ []) r.1.items) }
{
    let mut passes = Vec::with_capacity(alloc, readers)?;
    let (book, front) = opened.begin();
    let last = Shown::of(alloc, table, front)?;
    let writer = Writer::new(alloc, last.again()?, last.again()?, readers)?;
    let publisher = Publisher { writer, last, book };
    for _ in 0..readers {
        passes.push_reserved(Pass::over(publisher.reader(), publisher.last.front()));
    }
    Ok((publisher, passes))
}
