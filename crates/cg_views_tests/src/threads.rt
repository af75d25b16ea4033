//! Reads of four threads while one publishes: versions never fall, and told Sets are read.

ghost use Rattle.std.specs.Prelude.{◌≡◌};

use crate::appending::append;
use crate::entries::opening;
use cg_entry::Entry;
use cg_table::{Puts, Table};
use cg_testing::{A, endpoint, expect_eq, generation, key};
use cg_types::{Fault, StateText};
use cg_version::Versions;
use cg_views::{Naming, Opened, Pass, Publisher, Told, views};
use crossbeam_channel::{Receiver, Sender, unbounded};
use std::alloc::Global;
use std::marker::Brand;
use std::sync::Wait;
use std::test::Fail;
use std::thread::{Threads, join};

// The told puts, and the version of the Set that they end with.
#[derive(Drop)]
struct News<N: Naming> {
    told: Told<N>,
    version: u32,
}

// ---- the readers

// The number of falls of the newest version, the number of told Sets that were read, and the newest version at the end.
#[derive(Clone, Copy, Debug, PartialEq, Eq)]
struct Seen {
    falls: u32,
    sets: u32,
    last: u32,
}

// A's newest version, and the version of its key 3.
fn read<N: Naming>(pass: &mut Pass<N>) -> Result<(u32, u32), Fault> {
    let snapshot = pass.read()?;
    let own = snapshot.table().own_entry();
    let set = match own.get(key(3)) {
        Some((_text, version)) => version.get(),
        None => 0,
    };
    Ok((own.newest().get(), set))
}

// Reads once, and counts a fall.
fn look<N: Naming>(pass: &mut Pass<N>, seen: &mut Seen) -> Result<u32, Fault> {
    let (newest, set) = read(pass)?;
    if newest < seen.last {
        seen.falls = seen.falls.saturating_add(1);
    }
    seen.last = newest;
    Ok(set)
}

// Reads a hundred times, then learns and reads what was told.
fn hear<N: Naming>(pass: &mut Pass<N>, seen: &mut Seen, news: News<N>) -> Result<(), Fault> {
    for _ in 0..100 {
        look(pass, seen)?;
    }
    let News { told, version } = news;
    pass.learn(told);
    let set = look(pass, seen)?;
    if set >= version {
        seen.sets = seen.sets.saturating_add(1);
    }
    Ok(())
}

// Reads on until nothing more is told.
fn read_on<N: Naming, R: Wait>(rt: &R, pass: Pass<N>, news: Receiver<News<N>>) -> Seen {
    let mut pass = pass;
    let mut seen = Seen {
        falls: 0,
        sets: 0,
        last: 0,
    };
    for one in news.iter(rt) {
        if hear(&mut pass, &mut seen, one).is_err() {
            seen.falls = seen.falls.saturating_add(1);
        }
    }
    seen
}

// ---- the publisher

// Hands each reader what is published.
fn tell_all<N: Naming, R: Wait>(
    rt: &R,
    publisher: &Publisher<N>,
    readers: &[Sender<News<N>>],
    version: u32,
) {
    for reader in readers {
        let told = publisher.tell();
        let _sent = reader.send(rt, News { told, version });
    }
}

// Appends and publishes A's next beat, or a Set of key 3 in each hundredth place, which is told.
fn publish_next<N: Naming, R: Wait>(
    rt: &R,
    alloc: Global,
    publisher: &mut Publisher<N>,
    readers: &[Sender<News<N>>],
    own: &mut Entry,
    turn: u32,
) -> Result<(), Fail> {
    let mut after = own.copy(alloc)?;
    let mut versions = Versions::after(after.newest());
    let is_set = turn % 100 == 0;
    if is_set {
        after.set(&mut versions, key(3), StateText::new(alloc, "x")?)?;
    } else {
        after.beat(&mut versions)?;
    }
    append(
        alloc,
        publisher,
        Puts::one(alloc, endpoint(A), after.copy(alloc)?)?,
    )?;
    publisher.publish(rt)?;
    if is_set {
        tell_all(rt, publisher, readers, after.newest().get());
    }
    *own = after;
    Ok(())
}

// Publishes this number of times.
fn publish_all<N: Naming, R: Wait>(
    rt: &R,
    alloc: Global,
    publisher: &mut Publisher<N>,
    readers: Vec<Sender<News<N>>>,
    own: Entry,
    count: u32,
) -> Result<(), Fail> {
    let mut own = own;
    for turn in 1..=count {
        publish_next(rt, alloc, publisher, &readers, &mut own, turn)?;
    }
    Ok(())
}

// ---- all of them

// A reader, if its pass and its news were made.
type Reader<N> = (Option<Pass<N>>, Option<Receiver<News<N>>>);

fn read_one<N: Naming, R: Wait>(rt: &R, reader: Reader<N>) -> Option<Seen> {
    let (pass, news) = reader;
    Some(read_on(rt, pass?, news?))
}

fn read_by_two<N: Naming + Send + Sync, R: Threads + Wait + Sync>(
    rt: &R,
    first: Reader<N>,
    second: Reader<N>,
) -> [Option<Seen>; 2] {
    let (one, other) = join(
        rt,
        move || -> Option<Seen> { read_one(rt, first) },
        move || -> Option<Seen> { read_one(rt, second) },
    );
    [one, other]
}

fn read_by_four<N: Naming + Send + Sync, R: Threads + Wait + Sync>(
    rt: &R,
    passes: Vec<Pass<N>>,
    news: Vec<Receiver<News<N>>>,
) -> [Option<Seen>; 4] {
    let mut passes = passes;
    let mut news = news;
    let (first, second) = ((passes.pop(), news.pop()), (passes.pop(), news.pop()));
    let (third, fourth) = ((passes.pop(), news.pop()), (passes.pop(), news.pop()));
    let ([a, b], [c, d]) = join(
        rt,
        move || -> [Option<Seen>; 2] { read_by_two(rt, first, second) },
        move || -> [Option<Seen>; 2] { read_by_two(rt, third, fourth) },
    );
    [a, b, c, d]
}

// The reads of the four.
fn seen_by<N: Naming + Send + Sync, R: Threads + Wait + Sync>(
    rt: &R,
    alloc: Global,
    opened: Opened,
    table: Table,
    own: Entry,
    count: u32,
) -> Result<[Option<Seen>; 4], Fail>
    requires book { opened ≡ N.book }
    requires opening { table ≡ N.opening }
{
    let mut readers = Vec::new(alloc);
    let mut news = Vec::new(alloc);
    for _ in 0..4 {
        let (sender, receiver) = unbounded(alloc)?;
        readers.push(sender)?;
        news.push(receiver)?;
    }
    let (mut publisher, passes) = views::<N>(alloc, opened, table, 4)?;
    let borrowed = &mut publisher;
    let (published, seen) = join(
        rt,
        move || -> Result<(), Fail> { publish_all(rt, alloc, borrowed, readers, own, count) },
        move || -> [Option<Seen>; 4] { read_by_four(rt, passes, news) },
    );
    publisher.close(rt);
    published?;
    Ok(seen)
}

fn four_seen<R: Threads + Wait + Sync>(
    rt: &R,
    alloc: Global,
    count: u32,
) -> Result<[Option<Seen>; 4], Fail> {
    let table = opening(alloc)?;
    let own = table.own_entry().copy(alloc)?;
    seen_by::<Brand, R>(rt, alloc, Opened::new(), table, own, count)
}

#[test]
fn four_read_while_one_publishes(rt: HostRuntime) -> Result<(), Fail> {
    let all = four_seen(&rt, rt.alloc(), 10_000)?;
    let each = Some(Seen {
        falls: 0,
        sets: 100,
        last: 10_001,
    });
    expect_eq!(all, [each, each, each, each])
}
