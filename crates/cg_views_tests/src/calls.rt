//! Reads of two passes after lists of calls of one publisher: published, learnt, none pending, several at once.

ghost use Rattle.std.specs.Prelude.{◌≡◌};

use crate::appending::append;
use crate::entries::{heartbeat, opening, put};
use cg_table::{Puts, Table};
use cg_testing::expect_eq;
use cg_types::Fault;
use cg_views::{Naming, Opened, Pass, Publisher, Told, views};
use std::alloc::Global;
use std::marker::Brand;
use std::sync::Wait;
use std::test::Fail;

// One call.
#[derive(Clone, Copy)]
enum Call {
    // A at this heartbeat, by `append_puts`
    Append(u32),
    // no puts
    AppendNone,
    Publish,
    // Tells what is published, and keeps that after what was told before.
    Tell,
    // A pass, by its number, learns what was told at this place, which is then gone from there.
    Learn(usize, usize),
    // A pass, by its number, reads A's heartbeat.
    Read(usize),
}

fn read<N: Naming>(pass: &mut Pass<N>) -> Result<u32, Fault> {
    let snapshot = pass.read()?;
    Ok(heartbeat(snapshot.table()))
}

fn learn<N: Naming>(
    passes: &mut Vec<Pass<N>>,
    told: &mut Vec<Told<N>>,
    number: usize,
    place: usize,
) -> Result<(), Fail> {
    if place >= told.len() {
        return Err(Fail::from("a place"));
    }
    let news = told.remove(place);
    let pass = passes.get_mut(number).ok_or("a pass")?;
    pass.learn(news);
    Ok(())
}

// Does one call, and returns what it read.
fn do_one<N: Naming, R: Wait>(
    rt: &R,
    alloc: Global,
    publisher: &mut Publisher<N>,
    passes: &mut Vec<Pass<N>>,
    told: &mut Vec<Told<N>>,
    call: Call,
) -> Result<Option<u32>, Fail> {
    match call {
        Call::Append(heartbeat) => append(alloc, publisher, put(alloc, heartbeat)?)?,
        Call::AppendNone => append(alloc, publisher, Puts::none(alloc))?,
        Call::Publish => publisher.publish(rt)?,
        Call::Tell => told.push(publisher.tell())?,
        Call::Learn(number, place) => learn(passes, told, number, place)?,
        Call::Read(number) => return Ok(Some(read(passes.get_mut(number).ok_or("a pass")?)?)),
    }
    Ok(None)
}

fn do_all<N: Naming, R: Wait>(
    rt: &R,
    alloc: Global,
    publisher: &mut Publisher<N>,
    passes: &mut Vec<Pass<N>>,
    calls: &[Call],
) -> Result<Vec<u32>, Fail> {
    let mut told = Vec::new(alloc);
    let mut shown = Vec::new(alloc);
    for one in calls {
        if let Some(heartbeat) = do_one(rt, alloc, publisher, passes, &mut told, *one)? {
            shown.push(heartbeat)?;
        }
    }
    Ok(shown)
}

// The reads of these calls, and the first pass's answer once the publisher is gone.
fn read_by<N: Naming, R: Wait>(
    rt: &R,
    alloc: Global,
    opened: Opened,
    table: Table,
    calls: &[Call],
) -> Result<(Vec<u32>, Option<Fault>), Fail>
    requires book { opened ≡ N.book }
    requires opening { table ≡ N.opening }
{
    let (mut publisher, mut passes) = views::<N>(alloc, opened, table, 2)?;
    let shown = do_all(rt, alloc, &mut publisher, &mut passes, calls);
    publisher.close(rt);
    let gone = match passes.first_mut() {
        Some(pass) => pass.read().err(),
        None => None,
    };
    Ok((shown?, gone))
}

fn read_in<R: Wait>(rt: &R, alloc: Global, calls: &[Call]) -> Result<Vec<u32>, Fail> {
    let table = opening(alloc)?;
    let (shown, gone) = read_by::<Brand, R>(rt, alloc, Opened::new(), table, calls)?;
    if gone != Some(Fault::NoSuchNode) {
        return Err(Fail::from("a read without a publisher"));
    }
    Ok(shown)
}

#[test]
fn a_pass_reads_what_is_published(rt: HostRuntime) -> Result<(), Fail> {
    let shown = read_in(
        &rt,
        rt.alloc(),
        &[
            Call::Append(2),
            Call::Read(0),
            Call::Publish,
            Call::Tell,
            Call::Learn(0, 0),
            Call::Read(0),
            Call::Read(0),
        ],
    )?;
    expect_eq!(shown.as_slice(), [1, 2, 2].as_slice())
}

#[test]
fn what_was_learnt_is_read(rt: HostRuntime) -> Result<(), Fail> {
    let alloc = rt.alloc();
    // before the first read
    let early = read_in(
        &rt,
        alloc,
        &[
            Call::Append(2),
            Call::Publish,
            Call::Tell,
            Call::Learn(0, 0),
            Call::Read(0),
        ],
    )?;
    // after it, and twice
    let twice = read_in(
        &rt,
        alloc,
        &[
            Call::Read(0),
            Call::Append(2),
            Call::Publish,
            Call::Tell,
            Call::Tell,
            Call::Learn(0, 0),
            Call::Learn(0, 0),
            Call::Read(0),
        ],
    )?;
    // an older one after a newer one
    let older = read_in(
        &rt,
        alloc,
        &[
            Call::Append(2),
            Call::Publish,
            Call::Tell,
            Call::Append(3),
            Call::Publish,
            Call::Tell,
            Call::Learn(0, 1),
            Call::Learn(0, 0),
            Call::Read(0),
        ],
    )?;
    expect_eq!(early.as_slice(), [2].as_slice())?;
    expect_eq!(twice.as_slice(), [1, 2].as_slice())?;
    expect_eq!(older.as_slice(), [3].as_slice())
}

#[test]
fn passes_read_by_themselves(rt: HostRuntime) -> Result<(), Fail> {
    let shown = read_in(
        &rt,
        rt.alloc(),
        &[
            Call::Append(2),
            Call::Publish,
            Call::Read(0),
            Call::Tell,
            Call::Append(3),
            Call::Publish,
            Call::Read(1),
            Call::Learn(1, 0),
            Call::Read(1),
            Call::Read(0),
        ],
    )?;
    expect_eq!(shown.as_slice(), [2, 3, 3, 3].as_slice())
}

#[test]
fn nothing_is_published_where_nothing_is_pending(rt: HostRuntime) -> Result<(), Fail> {
    let alloc = rt.alloc();
    let at_once = read_in(
        &rt,
        alloc,
        &[
            Call::Publish,
            Call::Publish,
            Call::Tell,
            Call::Learn(1, 0),
            Call::Read(1),
        ],
    )?;
    let after = read_in(
        &rt,
        alloc,
        &[
            Call::Append(2),
            Call::Publish,
            Call::Publish,
            Call::Read(0),
            Call::AppendNone,
            Call::Read(0),
            Call::Publish,
            Call::Tell,
            Call::Learn(0, 0),
            Call::Read(0),
        ],
    )?;
    expect_eq!(at_once.as_slice(), [1].as_slice())?;
    expect_eq!(after.as_slice(), [2, 2, 2].as_slice())
}

#[test]
fn several_operations_are_published_at_once(rt: HostRuntime) -> Result<(), Fail> {
    let shown = read_in(
        &rt,
        rt.alloc(),
        &[
            Call::Append(2),
            Call::Append(3),
            Call::AppendNone,
            Call::Append(4),
            Call::Read(0),
            Call::Publish,
            Call::Append(5),
            Call::Read(0),
            Call::Tell,
            Call::Publish,
            Call::Learn(0, 0),
            Call::Read(0),
        ],
    )?;
    expect_eq!(shown.as_slice(), [1, 4, 5].as_slice())
}
