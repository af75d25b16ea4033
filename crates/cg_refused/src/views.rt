//! Operations appended to views and published, and reads of a pass.

ghost use Rattle.std.specs.Prelude.{◌≡◌, ◌∷◌, [], IfOk};

use crate::answers::Answer;
use crate::texts::add_table;
use crate::trials::{Outcome, Seen, Trial, compared, tried};
use cg_entry::Entry;
use cg_table::{Puts, Table};
use cg_testing::{A, B, C, endpoint, entry_at_start};
use cg_types::{Endpoint, Fault};
use cg_views::{Naming, Opened, Pass, Publisher, Snapshot, views};
use std::alloc::{AllocError, Global};
use std::fmt::Write;
use std::marker::Brand;
use std::sync::Wait;

/// The calls of a publisher and of a pass.
#[derive(Clone, Copy)]
pub(crate) enum Call {
    AppendAll,
    Publish,
    FirstRead,
    SecondRead,
}

// Puts of an owner that started.
fn put(alloc: Global, owner: u16, generation: u32) -> Result<Puts, AllocError> {
    Puts::one(alloc, endpoint(owner), entry_at_start(alloc, generation))
}

// Appends puts, if they may be.
fn append<N: Naming>(alloc: Global, publisher: &mut Publisher<N>, puts: Puts) -> Result<(), Fault> {
    if !publisher.may_append(&puts) {
        return Err(Fault::NotRising);
    }
    Ok(publisher.append_puts(alloc, puts)?)
}

// A list of two puts.
fn two_puts(
    alloc: Global,
    first: (Endpoint, Entry),
    second: (Endpoint, Entry),
) -> Result<Vec<(Endpoint, Entry)>, AllocError>
    ensures { IfOk result (λ puts. puts.items ≡ first ∷ (second ∷ [])) }
{
    let mut puts = Vec::with_capacity(alloc, 2)?;
    puts.push(first)?;
    puts.push(second)?;
    Ok(puts)
}

// Appends later starts of two owners as a list, by `append_all`, if they may be appended.
fn append_two<N: Naming>(alloc: Global, publisher: &mut Publisher<N>) -> Result<(), Fault> {
    let (b, c) = (endpoint(B), endpoint(C));
    let (of_b, of_c) = (entry_at_start(alloc, 6), entry_at_start(alloc, 8));
    let list = two_puts(alloc, (b, of_b.copy(alloc)?), (c, of_c.copy(alloc)?))?;
    let Some(puts) = Puts::of(alloc, list)? else {
        return Err(Fault::NotRising);
    };
    if !publisher.may_append(&puts) {
        return Err(Fault::NotRising);
    }
    let list = two_puts(alloc, (b, of_b), (c, of_c))?;
    Ok(publisher.append_all(alloc, list)?)
}

// A publisher with an operation that is pending, a pass that shows what is published, and another one with what it read.
#[derive(Drop)]
struct Publishing<'a, N: Naming, R: Wait> {
    rt: &'a R,
    publisher: &'a mut Publisher<N>,
    pass: &'a mut Pass<N>,
    reader: &'a mut Pass<N>,
    read: Option<Snapshot>,
    call: Call,
}

impl<'a, N: Naming, R: Wait> Trial for Publishing<'a, N, R> {
    ghost parts = { λ _. 0 };

    fn call(&mut self, alloc: Global) -> Result<Answer, Fault> {
        match self.call {
            Call::AppendAll => append_two(alloc, self.publisher)?,
            Call::Publish => self.publisher.publish(self.rt)?,
            Call::FirstRead | Call::SecondRead => self.read = Some(self.reader.read()?),
        }
        Ok(Answer::Done)
    }

    // What is pending shows by what may still be appended.
    fn show(&mut self, alloc: Global, text: &mut String) -> Result<(), Fault> {
        add_read(text, self.pass)?;
        let pending = self.publisher.may_append(&put(alloc, C, 7)?);
        let later = self.publisher.may_append(&put(alloc, B, 6)?);
        writeln!(text, "may append {pending} {later}")?;
        match &self.read {
            Some(snapshot) => Ok(add_table(text, snapshot.table())?),
            None => Ok(()),
        }
    }

    fn go_on(&mut self, _alloc: Global) -> Result<Answer, Fault> {
        self.publisher.publish(self.rt)?;
        Ok(Answer::Done)
    }
}

// Adds what a pass reads.
fn add_read<N: Naming>(text: &mut String, pass: &mut Pass<N>) -> Result<(), Fault> {
    let snapshot = pass.read()?;
    Ok(add_table(text, snapshot.table())?)
}

// Appends and publishes a start of an owner.
fn publish_one<N: Naming, R: Wait>(
    rt: &R,
    alloc: Global,
    publisher: &mut Publisher<N>,
    owner: u16,
    generation: u32,
) -> Result<(), Fault> {
    append(alloc, publisher, put(alloc, owner, generation)?)?;
    Ok(publisher.publish(rt)?)
}

// Has a pass read, and then publishes more, so that the next read shows something else.
fn read_once<N: Naming, R: Wait>(
    rt: &R,
    alloc: Global,
    publisher: &mut Publisher<N>,
    reader: &mut Pass<N>,
) -> Result<Snapshot, Fault> {
    let read = reader.read()?;
    publish_one(rt, alloc, publisher, C, 6)?;
    Ok(read)
}

fn tried_on<N: Naming, R: Wait>(
    rt: &R,
    alloc: Global,
    publisher: &mut Publisher<N>,
    pass: &mut Pass<N>,
    reader: &mut Pass<N>,
    call: Call,
) -> Result<Seen, Fault> {
    match call {
        // (a first publication finds no room that an earlier one left)
        Call::Publish => {}
        _ => publish_one(rt, alloc, publisher, B, 5)?,
    }
    let read = match call {
        Call::SecondRead => Some(read_once(rt, alloc, publisher, reader)?),
        _ => None,
    };
    append(alloc, publisher, put(alloc, C, 7)?)?;
    let mut trial = Publishing {
        rt,
        publisher,
        pass,
        reader,
        read,
        call,
    };
    tried(alloc, &mut trial)
}

fn seen_by<N: Naming, R: Wait>(
    rt: &R,
    alloc: Global,
    opened: Opened,
    table: Table,
    call: Call,
) -> Result<Seen, Fault>
    requires book { opened ≡ N.book }
    requires opening { table ≡ N.opening }
{
    let (mut publisher, mut passes) = views::<N>(alloc, opened, table, 2)?;
    let mut reader = passes.pop().unwrap();
    let mut pass = passes.pop().unwrap();
    let seen = tried_on(rt, alloc, &mut publisher, &mut pass, &mut reader, call);
    publisher.close(rt);
    seen
}

fn seen<R: Wait>(rt: &R, alloc: Global, call: Call) -> Result<Seen, Fault> {
    let table = Table::new(alloc, endpoint(A), entry_at_start(alloc, 9))?;
    seen_by::<Brand, R>(rt, alloc, Opened::new(), table, call)
}

/// Makes a call of a publisher or of a pass.
pub(crate) fn view<R: Wait>(rt: &R, alloc: Global, call: Call) -> Result<Outcome, Fault> {
    let due = seen(rt, alloc, call)?.of_twin()?;
    compared(alloc, &due, seen(rt, alloc, call)?)
}
