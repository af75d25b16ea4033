//! The rounds of a node.

ghost use Rattle.std.specs.Prelude.{◌≡◌};
ghost use Rattle.cg_agent.specs.Work.{SentTo, Turned, TurnedOn};
ghost use Rattle.cg_agent.specs.Worked.{LeftByTurns};

use crate::chores::Chores;
use crate::limits::NAP;
use crate::looking::{members_seen, publish};
use crate::members::{Member, tell_changes};
use crate::publishing::Publishing;
use crate::site::Site;
use cg_ahead_seats::AheadGate;
use cg_core::{Event, Peers, Reply};
use cg_engine::Gate;
use cg_locked::{Name, Seat};
use cg_messages::Syn;
use cg_types::Fault;
use cg_workers::{Dial, Milliseconds, next_words, reach};
use rand_core::Rng;
use std::alloc::Global;
use std::fs::OpenFile;
use std::io::{Eprint, Print, Write};
use std::rt::Clock;
use std::sync::Wait;
use std::thread;
use std::time::Duration;

/// The tools of the worker that does rounds.
#[derive(Drop)]
pub(crate) struct Rounds<D: Drop, G: Drop, F: Drop> {
    pub(crate) dialer: D,
    pub(crate) generator: G,
    pub(crate) interval: u32,
    /// A handle of the journal's file, by which it is synced.
    pub(crate) file: Option<F>,
}

// Sends a round: reaches each of its peers, in their order.
fn send<N: Name, W: Write + Drop, R: Wait, D: Dial, C: Milliseconds>(
    rt: &R,
    alloc: Global,
    site: &Site<N, W, C>,
    gate: &mut AheadGate<'_, N, W, R>,
    dialer: &mut D,
    peers: &Peers,
    syn: &Syn,
)
    ensures { SentTo N.start N.opening.own D.Reader.remaining D.Writer.contents D.dials (C.shows site.now.clock)
        syn.now peers.now (dialer.old, gate.old) (dialer.new, gate.new) }
{
    for peer in peers.endpoints() {
        let broken = reach(alloc, gate, dialer, &site.clock, syn, *peer);
        site.count_begun(rt, broken, gate.reply());
        gate.forget();
    }
}

// Ticks, and sends the round. `OutOfMemory` too if the round finds no memory to be sent.
fn turn<N: Name, W: Write + Drop, R: Wait, D: Dial, C: Milliseconds>(
    rt: &R,
    alloc: Global,
    site: &Site<N, W, C>,
    gate: &mut AheadGate<'_, N, W, R>,
    dialer: &mut D,
    words: [u64; 4],
) -> Result<(), Fault>
    ensures { Turned N.start N.opening.own D.Reader.remaining D.Writer.contents D.dials (C.shows site.now.clock)
        words result (dialer.old, gate.old) (dialer.new, gate.new) }
{
    let now = site.clock.now();
    gate.event(alloc, Event::Tick { now, words })?;
    if let Some(Reply::Round { peers, syn }) = gate.reply() {
        let peers = peers.copy(alloc)?;
        let syn = syn.copy(alloc)?;
        send(rt, alloc, site, gate, dialer, &peers, &syn);
    }
    Ok(())
}

// Sleeps until a time of the clock, unless the node is to end before, and does the chores meanwhile. A node whose journal
// can't be written is to end.
fn rest<N: Name, W: Write + Drop, R: Wait + Clock + Eprint, C: Milliseconds, F: OpenFile + Drop>(
    rt: &R,
    site: &Site<N, W, C>,
    chores: &mut Chores<F>,
    due: u64,
) {
    for _ in rt.forever() {
        if site.shared.is_torn(rt) {
            let _ = eprintln!(rt; "cg agent: the node ends, since its journal can't be written");
            site.end();
        }
        chores.do_due(rt, site);
        let left = due.saturating_sub(site.clock.now());
        if left == 0 || site.is_ending() {
            return;
        }
        thread::sleep(rt, Duration::from_millis(left.min(NAP)));
    }
}

// Prints the changes of the members since the last time, and returns the members.
fn tell_members<N: Name, W: Write + Drop, R: Wait + Print, C: Milliseconds>(
    rt: &R,
    alloc: Global,
    site: &Site<N, W, C>,
    before: Vec<Member>,
) -> Vec<Member> {
    match members_seen(rt, alloc, site) {
        Ok(after) => {
            tell_changes(rt, &before, &after);
            after
        }
        Err(_) => before,
    }
}

// Tells of the members behind a round, and publishes the status, if that is read.
fn tell_round<N: Name, W: Write + Drop, R: Wait + Print, C: Milliseconds>(
    rt: &R,
    alloc: Global,
    site: &Site<N, W, C>,
    publishing: &mut Option<Publishing<'_, R>>,
    before: Vec<Member>,
) -> Vec<Member> {
    site.counts.count_round(site.clock.now());
    if let Some(publishing) = publishing {
        let _ = publish(rt, alloc, site, publishing);
    }
    tell_members(rt, alloc, site, before)
}

// Does rounds at a gate until the node is to end, each an interval after the one before. After each it tells of members,
// and publishes the status.
fn turn_at<N: Name, W: Write + Drop, R, D, C, G, F>(
    rt: &R,
    alloc: Global,
    site: &Site<N, W, C>,
    gate: &mut AheadGate<'_, N, W, R>,
    dialer: &mut D,
    generator: &mut G,
    chores: &mut Chores<F>,
    publishing: &mut Option<Publishing<'_, R>>,
    interval: u32,
)
where
    R: Wait + Clock + Print + Eprint,
    D: Dial,
    C: Milliseconds,
    G: Rng,
    F: OpenFile + Drop,
    ensures { TurnedOn N.start N.opening.own D.Reader.remaining D.Writer.contents D.dials (C.shows site.now.clock)
        (G.stream generator.old, (dialer.old, gate.old)) (G.stream generator.new, (dialer.new, gate.new)) }
{
    let mut members = Vec::new(alloc);
    for _ in rt.forever() {
        if site.is_ending() {
            break;
        }
        let due = site.clock.now().saturating_add(u64::from(interval));
        let words = next_words(generator);
        let _turned = turn(rt, alloc, site, gate, dialer, words);
        members = tell_round(rt, alloc, site, publishing, members);
        rest(rt, site, chores, due);
    }
}

/// Does rounds from a seat until the node is to end, publishes the status behind each if that is read, and has the journal
/// on the disk once a second.
pub(crate) fn do_rounds<N: Name, W: Write + Drop, R, D, C, G, F>(
    rt: &R,
    alloc: Global,
    site: &Site<N, W, C>,
    seat: Seat<N>,
    rounds: Rounds<D, G, F>,
    publishing: Option<Publishing<'_, R>>,
) -> Seat<N>
where
    R: Wait + Clock + Print + Eprint,
    D: Dial + Drop,
    C: Milliseconds,
    G: Rng + Drop,
    F: OpenFile + Drop,
    ensures parts { result.parts ≡ seat.parts }
    ensures left { LeftByTurns N.start N.opening.own D.Reader.remaining D.Writer.contents D.dials
        (C.shows site.now.clock) (G.stream rounds.generator) rounds.dialer seat result }
{
    let Rounds {
        mut dialer,
        mut generator,
        interval,
        file,
    } = rounds;
    let mut publishing = publishing;
    let mut gate = AheadGate::new(rt, &site.shared, seat);
    let mut chores = Chores {
        file,
        last: site.clock.now(),
    };
    turn_at(
        rt,
        alloc,
        site,
        &mut gate,
        &mut dialer,
        &mut generator,
        &mut chores,
        &mut publishing,
        interval,
    );
    gate.into_seat()
}
