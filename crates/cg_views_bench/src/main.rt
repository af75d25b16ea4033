//! Measures published views of a table of 256 owners. With no words it does each task a hundred times and prints what was
//! read last. With the word `time` it measures each, and with the word `few` it does each twice, with a table of three.
#![tactic(auto)]

ghost use Rattle.std.specs.Prelude.{◌≡◌};

use anyhow::Result;
use cg_entry::Entry;
use cg_table::{Puts, Table};
use cg_types::{Endpoint, Fault, Generation, Version};
use cg_version::Versions;
use cg_views::{Naming, Opened, Pass, Publisher, views};
use std::alloc::Global;
use std::env::Env;
use std::marker::Brand;
use std::rt::Clock;
use std::sync::Wait;
use std::thread::{Threads, join, map_vec};
use std::time::Instant;

// The number of owners in the table, the number of times that each task is done, and whether times are printed.
#[derive(Clone, Copy)]
struct Counts {
    owners: u16,
    reads: u32,
    beats: u32,
    is_timed: bool,
}

const TIMED: Counts = Counts {
    owners: 256,
    reads: 1_000_000,
    beats: 20_000,
    is_timed: true,
};

const FEW: Counts = Counts {
    owners: 3,
    reads: 2,
    beats: 2,
    is_timed: false,
};

const SOME: Counts = Counts {
    owners: 256,
    reads: 100,
    beats: 100,
    is_timed: false,
};

// The counts of the first word after the program's name.
fn counts_by_word(rt: &impl Env) -> Counts {
    let mut word = [0u8; 4];
    match rt.arg(1, &mut word) {
        Ok(4) if word == *b"time" => TIMED,
        Ok(3) if word == *b"few\0" => FEW,
        _ => SOME,
    }
}

fn endpoint(number: u16) -> Option<Endpoint> {
    let [high, low] = number.to_be_bytes();
    Endpoint::new([10, 0, high, low], 7000)
}

fn started(alloc: Global) -> Option<Entry> {
    Some(Entry::start(alloc, Generation::new(9)?))
}

// Appends one put, if it may be appended.
fn append<N: Naming>(
    alloc: Global,
    publisher: &mut Publisher<N>,
    owner: Endpoint,
    entry: Entry,
) -> Result<(), Fault> {
    let puts = Puts::one(alloc, owner, entry)?;
    if publisher.may_append(&puts) {
        publisher.append_puts(alloc, puts)?;
    }
    Ok(())
}

// Fills the table up to this number of owners.
fn fill<N: Naming>(alloc: Global, publisher: &mut Publisher<N>, owners: u16) -> Result<(), Fault> {
    for number in 2..=owners {
        if let (Some(owner), Some(entry)) = (endpoint(number), started(alloc)) {
            append(alloc, publisher, owner, entry)?;
        }
    }
    Ok(())
}

// Appends and publishes this number of beats of the own entry.
fn beat_on<N: Naming, R: Wait>(
    rt: &R,
    alloc: Global,
    publisher: &mut Publisher<N>,
    own: (Endpoint, Entry),
    count: u32,
) -> Result<(Endpoint, Entry), Fault> {
    let (owner, mut entry) = own;
    for _ in 0..count {
        let mut versions = Versions::after(entry.newest());
        entry.beat(&mut versions)?;
        append(alloc, publisher, owner, entry.copy(alloc)?)?;
        publisher.publish(rt)?;
    }
    Ok((owner, entry))
}

// Reads this number of times, and returns the last heartbeat and the number of owners.
fn read_on<N: Naming>(pass: &mut Pass<N>, count: u32) -> Result<(u32, usize), Fault> {
    let mut last = (0, 0);
    for _ in 0..count {
        let snapshot = pass.read()?;
        let table = snapshot.table();
        last = (table.own_entry().heartbeat().get(), table.owners().len());
    }
    Ok(last)
}

// Prints what was read last, or the nanoseconds of each turn.
fn print_line(
    rt: &(impl Clock + Print),
    name: &str,
    counts: Counts,
    last: (u32, usize),
    spent: (Instant, u32),
) -> Result<()> {
    let (start, turns) = spent;
    if counts.is_timed {
        let each = start
            .elapsed(rt)?
            .as_nanos()
            .checked_div(u128::from(turns))
            .unwrap_or(0);
        println!(rt; "bench {name} ns_per_op {each}")?;
    } else {
        println!(rt; "case {name} {} {}", last.0, last.1)?;
    }
    Ok(())
}

// Takes this number of passes off a list.
fn some_of<N: Naming>(
    alloc: Global,
    passes: &mut Vec<Pass<N>>,
    count: usize,
) -> Result<Vec<Pass<N>>> {
    let mut some = Vec::new(alloc);
    for _ in 0..count {
        if let Some(pass) = passes.pop() {
            some.push(pass)?;
        }
    }
    Ok(some)
}

// Reads in as many threads as there are passes, and returns the number of threads that could.
fn read_in_threads<N: Naming + Send + Sync, R: Threads + Sync>(
    rt: &R,
    passes: Vec<Pass<N>>,
    count: u32,
) -> Result<usize> {
    let all = map_vec(rt, passes, &|pass| read_whole(pass, count))?;
    Ok(all.iter().filter(|done| **done).count())
}

fn read_whole<N: Naming>(pass: Pass<N>, count: u32) -> bool {
    let mut pass = pass;
    read_on(&mut pass, count).is_ok()
}

// Reads in this number of threads while one publishes.
fn beside<N: Naming + Send + Sync, R: Threads + Wait + Sync + Clock + Print>(
    rt: &R,
    alloc: Global,
    publisher: &mut Publisher<N>,
    passes: Vec<Pass<N>>,
    own: (Endpoint, Entry),
    counts: Counts,
    name: &str,
) -> Result<(Endpoint, Entry)> {
    let threads = passes.len();
    let (reads, beats) = (counts.reads, counts.beats);
    let start = Instant::now(rt)?;
    let (own, done) = join(
        rt,
        move || -> Result<(Endpoint, Entry), Fault> { beat_on(rt, alloc, publisher, own, beats) },
        move || -> Result<usize> { read_in_threads(rt, passes, reads) },
    );
    let (owner, entry) = own?;
    let last = (entry.heartbeat().get(), done?);
    let turns = reads.saturating_mul(u32::try_from(threads).unwrap_or(u32::MAX));
    print_line(rt, name, counts, last, (start, turns))?;
    Ok((owner, entry))
}

// Reads through the first pass while nobody publishes.
fn read_alone<N: Naming>(
    rt: &(impl Clock + Print),
    passes: &mut [Pass<N>],
    counts: Counts,
) -> Result<()> {
    let start = Instant::now(rt)?;
    let last = match passes.first_mut() {
        Some(pass) => read_on(pass, counts.reads)?,
        None => (0, 0),
    };
    print_line(rt, "read", counts, last, (start, counts.reads))
}

// Publishes while nobody reads.
fn publish_alone<N: Naming, R: Wait + Clock + Print>(
    rt: &R,
    alloc: Global,
    publisher: &mut Publisher<N>,
    own: (Endpoint, Entry),
    counts: Counts,
) -> Result<(Endpoint, Entry)> {
    let start = Instant::now(rt)?;
    let (owner, entry) = beat_on(rt, alloc, publisher, own, counts.beats)?;
    let spent = (start, counts.beats);
    let last = (entry.heartbeat().get(), 0);
    print_line(rt, "append_and_publish_a_beat", counts, last, spent)?;
    Ok((owner, entry))
}

// Reads in one, two and four threads, each with a pass of its own, while one publishes.
fn all_beside<N: Naming + Send + Sync, R: Threads + Wait + Sync + Clock + Print>(
    rt: &R,
    alloc: Global,
    publisher: &mut Publisher<N>,
    passes: &mut Vec<Pass<N>>,
    own: (Endpoint, Entry),
    counts: Counts,
) -> Result<()> {
    let name = "read_by_1_beside_a_publisher";
    let one = some_of(alloc, passes, 1)?;
    let own = beside(rt, alloc, publisher, one, own, counts, name)?;
    let name = "read_by_2_beside_a_publisher";
    let two = some_of(alloc, passes, 2)?;
    let own = beside(rt, alloc, publisher, two, own, counts, name)?;
    let name = "read_by_4_beside_a_publisher";
    let four = some_of(alloc, passes, 4)?;
    beside(rt, alloc, publisher, four, own, counts, name)?;
    Ok(())
}

fn all<N: Naming + Send + Sync, R: Threads + Wait + Sync + Clock + Print>(
    rt: &R,
    alloc: Global,
    publisher: &mut Publisher<N>,
    passes: Vec<Pass<N>>,
    own: (Endpoint, Entry),
    counts: Counts,
) -> Result<()> {
    let mut passes = passes;
    fill(alloc, publisher, counts.owners)?;
    publisher.publish(rt)?;
    read_alone(rt, &mut passes, counts)?;
    let own = publish_alone(rt, alloc, publisher, own, counts)?;
    all_beside(rt, alloc, publisher, &mut passes, own, counts)
}

fn all_by<N: Naming + Send + Sync, R: Threads + Wait + Sync + Clock + Print>(
    rt: &R,
    alloc: Global,
    opened: Opened,
    table: Table,
    own: (Endpoint, Entry),
    counts: Counts,
) -> Result<()>
    requires book { opened ≡ N.book }
    requires opening { table ≡ N.opening }
{
    let (mut publisher, passes) = views::<N>(alloc, opened, table, 8)?;
    let done = all(rt, alloc, &mut publisher, passes, own, counts);
    publisher.close(rt);
    done
}

fn main(rt: HostRuntime) -> Result<()> {
    let counts = counts_by_word(&rt);
    let alloc = rt.alloc();
    if let (Some(owner), Some(entry)) = (endpoint(1), started(alloc)) {
        let table = Table::new(alloc, owner, entry.copy(alloc)?)?;
        all_by::<Brand, HostRuntime>(&rt, alloc, Opened::new(), table, (owner, entry), counts)?;
    }
    Ok(())
}
