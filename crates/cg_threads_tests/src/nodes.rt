//! Sample nodes that run, and their results.

ghost use Rattle.std.specs.Prelude.{◌≡◌, [], IfSome};

use crate::links::Standing;
use cg_audit::{Lives, audit, endpoints_differ};
use cg_core::{Event, Reply, Settings};
use cg_history::History;
use cg_locked::Operate;
use cg_silence::Silence;
use cg_testing::{cluster, generation};
use cg_threads::{Parts, Ran, Turns, run_node};
use cg_types::Endpoint;
use cg_workers::{Dial, Listen, generator};
use std::alloc::Global;
use std::rt::Clock;
use std::sync::Wait;
use std::sync::atomic::AtomicBool;
use std::test::Fail;
use std::thread::Threads;

// A node that is to run: its endpoint and generation, its one seed, and the numbers of rounds that it begins and of
// exchanges that it answers; with two flags that it raises as it runs.
#[derive(Drop)]
pub(crate) struct Side {
    pub(crate) own: Endpoint,
    pub(crate) start: u32,
    pub(crate) seed: Endpoint,
    pub(crate) rounds: u32,
    pub(crate) exchanges: u32,
    // `true` if its listener was asked for a connection.
    pub(crate) asked: AtomicBool,
    // `true` if its operator made its read.
    pub(crate) read: AtomicBool,
}

impl Side {
    // A node with no flag raised yet.
    pub(crate) fn new(
        own: Endpoint,
        start: u32,
        seed: Endpoint,
        rounds: u32,
        exchanges: u32,
    ) -> Side {
        Side {
            own,
            start,
            seed,
            rounds,
            exchanges,
            asked: AtomicBool::new(false),
            read: AtomicBool::new(false),
        }
    }
}

// The history of a node that has just started.
fn begun(alloc: Global, side: &Side) -> Option<History>
    ensures { IfSome result (λ h. (h.records ≡ []) × (h.folded ≡ 0)) }
{
    let mut seeds = Vec::new(alloc);
    seeds.push(side.seed).ok()?;
    let settings = Settings::new(cluster(alloc).ok()?, seeds, Silence::default())?;
    History::begin(alloc, side.own, generation(side.start), settings).ok()
}

// The result of a node that ran; `None` if it did not run, or its receipts are not confirmed.
pub(crate) fn ran<
    R: Threads + Wait + Clock + Sync,
    L: Listen + Drop,
    D: Dial + Drop + Send,
    O: Operate + Drop + Send,
>(rt: &R, alloc: Global, side: &Side, listener: L, dialer: D, operator: O) -> Option<Ran>
where
    D::Reader: Send,
    D::Writer: Send,
{
    let history = begun(alloc, side)?;
    let parts = Parts {
        listener,
        dialer,
        clock: Standing,
        generator: generator(7),
        operator,
    };
    let turns = Turns {
        rounds: side.rounds,
        exchanges: side.exchanges,
        interval: 0,
    };
    run_node(rt, alloc, history, parts, turns).ok()
}

// The numbers of a history's records whose round has this one peer.
pub(crate) fn rounds(alloc: Global, history: &History, peer: Endpoint) -> Result<Vec<u64>, Fail> {
    let mut numbers = Vec::new(alloc);
    let mut number = 0u64;
    for item in history.records() {
        number = number.saturating_add(1);
        if let Reply::Round { peers, .. } = &item.reply {
            if peers.endpoints() == [peer].as_slice() {
                numbers.push(number)?;
            }
        }
    }
    Ok(numbers)
}

// The numbers of records of a history that are of a SYN, of an ACK2, and of a round.
pub(crate) fn kinds(history: &History) -> (u32, u32, u32) {
    let (mut syns, mut acks, mut rounds) = (0u32, 0u32, 0u32);
    for item in history.records() {
        match &item.event {
            Event::Syn { .. } => syns = syns.saturating_add(1),
            Event::Ack2 { .. } => acks = acks.saturating_add(1),
            Event::Tick { .. } => rounds = rounds.saturating_add(1),
            _ => {}
        }
    }
    (syns, acks, rounds)
}

// The number of records of a history that are of an ACK.
pub(crate) fn acks(history: &History) -> u32 {
    let mut count = 0u32;
    for item in history.records() {
        if let Event::Ack { .. } = &item.event {
            count = count.saturating_add(1);
        }
    }
    count
}

// The lives of an endpoint that has this one history.
fn lives_of(alloc: Global, at: Endpoint, history: History) -> Result<Lives, Fail> {
    let mut histories = Vec::new(alloc);
    histories.push(history)?;
    Ok(Lives::new(at, histories).ok_or("lives of the endpoint")?)
}

// The lives of two endpoints.
fn lives_of_two(
    alloc: Global,
    (a, of_a): (Endpoint, History),
    (b, of_b): (Endpoint, History),
) -> Result<Vec<Lives>, Fail> {
    let mut lives = Vec::new(alloc);
    lives.push(lives_of(alloc, a, of_a)?)?;
    lives.push(lives_of(alloc, b, of_b)?)?;
    Ok(lives)
}

// Tests whether the lives of two endpoints were one run of the gossip.
pub(crate) fn were_one_run(
    alloc: Global,
    a: (Endpoint, History),
    b: (Endpoint, History),
) -> Result<bool, Fail> {
    let lives = lives_of_two(alloc, a, b)?;
    Ok(endpoints_differ(&lives) && audit(alloc, &lives).is_ok())
}
