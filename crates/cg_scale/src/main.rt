//! Measures how gossip scales: a cluster in one process, whose messages are lost by chance.
//!
//! It prints how many rounds it takes until a set, a restart and a join are at every node, and how many bytes a node sends
//! in a round; with the word `time` also how many microseconds a node's round takes. At the end it says whether all
//! tables are equal.
#![tactic(auto)]

mod quiet;
mod spread;
mod turns;
mod words;

use crate::quiet::{Quiet, measured};
use crate::spread::spread_of;
use crate::turns::{learn, settle, taken};
use crate::words::{Asked, BadWords, USAGE, read};
use anyhow::{Result, bail};
use cg_core::Node;
use cg_fleet::{Chance, Fleet, hold_equal};
use rand_core::{Rng, SeedableRng};
use rand_pcg::Pcg64;
use std::alloc::Global;
use std::env;
use std::process::ExitCode;
use std::rt::{Clock, Env};

// The rounds of all turns, by what was changed.
#[derive(Drop)]
struct Rounds {
    set: Vec<u64>,
    restart: Vec<u64>,
    join: Vec<u64>,
}

fn print_quiet(rt: &impl Print, quiet: &Quiet, is_timed: bool) -> Result<()> {
    let Quiet {
        bytes,
        busiest,
        median,
        least,
    } = *quiet;
    println!(rt; "quiet: {bytes} bytes a node and round, {busiest} of the busiest")?;
    if is_timed {
        println!(rt; "time: {median} ns a node and round, least {least}")?;
    }
    Ok(())
}

// Lets a whole fleet start, and measures it while nothing changes.
fn whole<G: Rng + Drop>(
    rt: &(impl Clock + Print),
    alloc: Global,
    chance: &mut Chance<G>,
    asked: Asked,
) -> Result<Fleet> {
    let mut fleet = Fleet::start(alloc, asked.nodes)?;
    let rounds = learn(alloc, chance, &mut fleet)?;
    println!(rt; "start: every node holds every node after {rounds} rounds")?;
    let quiet = measured(rt, alloc, chance, &mut fleet)?;
    print_quiet(rt, &quiet, asked.is_timed)?;
    Ok(fleet)
}

// Does all turns, each from the same fleet of one node less, and returns the fleet after the last.
fn all_turns<G: Rng + Drop>(
    rt: &impl Print,
    alloc: Global,
    chance: &mut Chance<G>,
    asked: Asked,
) -> Result<Fleet> {
    let mut base = Fleet::start(alloc, asked.nodes.saturating_sub(1))?;
    learn(alloc, chance, &mut base)?;
    let mut fleet = base.copy(alloc)?;
    let mut rounds = Rounds {
        set: Vec::new(alloc),
        restart: Vec::new(alloc),
        join: Vec::new(alloc),
    };
    for _ in 0..asked.turns {
        fleet = base.copy(alloc)?;
        let done = taken(alloc, chance, &mut fleet)?;
        rounds.set.push(done.set)?;
        rounds.restart.push(done.restart)?;
        rounds.join.push(done.join)?;
    }
    println!(rt; "set: {} rounds", spread_of(&mut rounds.set))?;
    println!(rt; "restart: {} rounds", spread_of(&mut rounds.restart))?;
    println!(rt; "join: {} rounds", spread_of(&mut rounds.join))?;
    Ok(fleet)
}

// Names the nodes that do not hold what the first of them holds.
fn print_unequal(rt: &impl Print, nodes: &[Node]) -> Result<()> {
    if let Some((first, others)) = nodes.split_first() {
        for node in others {
            if !node.table().same_entries(first.table()) {
                let endpoint = node.table().own();
                println!(rt; "end: the table of {endpoint} is not that of the first node")?;
            }
        }
    }
    Ok(())
}

// Lets all settle, and says whether all tables are equal, or which are not.
fn end<G: Rng + Drop>(
    rt: &impl Print,
    alloc: Global,
    chance: &mut Chance<G>,
    fleet: &mut Fleet,
) -> Result<()> {
    let rounds = settle(alloc, chance, fleet)?;
    if hold_equal(fleet.nodes()) {
        println!(rt; "end: all tables are equal after {rounds} rounds without beats")?;
        return Ok(());
    }
    print_unequal(rt, fleet.nodes())?;
    bail!("not all tables are equal after {rounds} rounds without beats")
}

// The fleet that is left after the whole one was measured and all turns were done.
fn last<G: Rng + Drop>(
    rt: &(impl Clock + Print),
    alloc: Global,
    chance: &mut Chance<G>,
    asked: Asked,
) -> Result<Fleet> {
    let fleet = whole(rt, alloc, chance, asked)?;
    if asked.turns == 0 {
        return Ok(fleet);
    }
    drop(fleet);
    all_turns(rt, alloc, chance, asked)
}

fn measure(rt: &(impl Clock + Print), alloc: Global, asked: Asked) -> Result<()> {
    let Asked {
        nodes,
        loss,
        seed,
        turns,
        ..
    } = asked;
    let mut chance = Chance::new(Pcg64::seed_from_u64(seed), loss);
    println!(rt; "{nodes} nodes, {loss} of 100 messages lost, seed {seed}, {turns} turns")?;
    let mut fleet = last(rt, alloc, &mut chance, asked)?;
    end(rt, alloc, &mut chance, &mut fleet)
}

fn read_words(rt: &(impl Env + AllocGlobal)) -> Result<Result<Asked, BadWords>> {
    let words: Vec<String> = env::args(rt)?.collect(rt.alloc())?;
    Ok(read(&words))
}

fn main(rt: HostRuntime) -> Result<ExitCode> {
    match read_words(&rt)? {
        Ok(asked) => {
            measure(&rt, rt.alloc(), asked)?;
            Ok(ExitCode::SUCCESS)
        }
        Err(bad) => {
            eprintln!(rt; "cg_scale: {bad}\n{USAGE}")?;
            Ok(ExitCode::from(2))
        }
    }
}
