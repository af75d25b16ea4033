//! Rounds of a list of nodes, each at the place of its endpoint's number.

ghost use Rattle.std.specs.Prelude.{◌≡◌, ◌≢◌, ◌<◌, Some, length, IfOk, IfSome, OnOk};
ghost use Rattle.cg_messages.specs.declared.message.Message.TheVariants as messages;
ghost use Rattle.cg_core.specs.declared.reply.Reply.TheVariants as replies;
ghost use Rattle.cg_core.specs.Step.{opening};
ghost use Rattle.cg_fleet.specs.Moves.{EachDid, HasQuietRound, HasRound, Reaches, ReachesAll, exchanging, fleet_of, with_bytes};

use crate::chance::Chance;
use crate::relaying::relay;
use crate::samples::place_of;
use crate::single::step_at;
use cg_core::{Event, Node, Peers, Reply};
use cg_messages::{BorrowedMessage, Message, Syn};
use cg_types::{Endpoint, Fault};
use rand_core::Rng;
use std::alloc::Global;

// The milliseconds of a round.
const ROUND: u64 = 1000;

/// The time at which a node's round begins: all of them within a second, one after the other.
fn time_of(rounds: u64, place: usize, count: usize) -> u64 {
    let part = ROUND.saturating_mul(place as u64);
    let past = part.checked_div(count as u64).unwrap_or(0);
    rounds.saturating_mul(ROUND).saturating_add(past)
}

// Adds the bytes that the node of a place sent.
fn count(sent: &mut [u64], place: usize, bytes: u64)
    ensures { sent.new ≡ with_bytes place bytes sent.old }
{
    if place < sent.len() {
        sent[place] = sent[place].saturating_add(bytes);
    }
}

// The peers and the SYN of a round.
fn round_of(reply: Reply) -> Option<(Peers, Syn)>
    ensures { IfSome result (λ x. reply ≡ replies.Round x.0 x.1) }
{
    match reply {
        Reply::Round { peers, syn } => Some((peers, syn)),
        _ => None,
    }
}

// The SYN of a node.
fn syn_of(alloc: Global, node: &Node) -> Result<Syn, Fault>
    ensures { IfOk result (λ syn. syn ≡ opening node.now) }
{
    let (_, opened) = node.stepped(alloc, &Event::Opening)?;
    match opened {
        Reply::Sent(Message::Syn(syn)) => Ok(syn),
        _ => Err(Fault::OutOfMemory),
    }
}

// An exchange between the nodes of two places, which begins with a SYN of the first. The first `arrive` messages arrive.
#[tactic(auto, using(crate::proofs::MoveLemmas::exchanging_is))]
fn exchange(
    alloc: Global,
    now: u64,
    syn: &Syn,
    nodes: &mut [Node],
    sent: &mut [u64],
    opener: usize,
    answerer: usize,
    arrive: u8,
) -> Result<(), Fault>
    requires opener { opener < length nodes.old }
    requires answerer { answerer < length nodes.old }
    requires differ { opener ≢ answerer }
    ensures { OnOk result (exchanging (fleet_of nodes.old sent.old) now (messages.Syn syn.now) opener answerer arrive
        ≡ Some (fleet_of nodes.new sent.new)) }
{
    let mut from = nodes[opener].copy()?;
    let mut to = nodes[answerer].copy()?;
    let syn = BorrowedMessage::Syn(syn);
    let bytes = relay(alloc, now, syn, &mut from, &mut to, arrive)?;
    nodes[opener] = from;
    nodes[answerer] = to;
    count(sent, opener, bytes.first);
    count(sent, answerer, bytes.other);
    Ok(())
}

// The exchange of a node with one of its peers, if that is another node.
fn reach<G: Rng + Drop>(
    alloc: Global,
    chance: &mut Chance<G>,
    now: u64,
    nodes: &mut [Node],
    sent: &mut [u64],
    place: usize,
    peer: Endpoint,
    syn: &Syn,
) -> Result<(), Fault>
    requires { place < length nodes.old }
    ensures { OnOk result (Reaches now (messages.Syn syn.now) place peer
        (fleet_of nodes.old sent.old) (fleet_of nodes.new sent.new)) }
{
    let other = place_of(peer);
    if other >= nodes.len() || other == place {
        return Ok(());
    }
    let arrive = chance.arriving();
    exchange(alloc, now, syn, nodes, sent, place, other, arrive)?;
    Ok(())
}

// The exchanges of a node with its peers.
fn reach_all<G: Rng + Drop>(
    alloc: Global,
    chance: &mut Chance<G>,
    now: u64,
    nodes: &mut [Node],
    sent: &mut [u64],
    place: usize,
    peers: &[Endpoint],
    syn: &Syn,
) -> Result<(), Fault>
    requires { place < length nodes.old }
    ensures { OnOk result (ReachesAll now (messages.Syn syn.now) place peers.now
        (fleet_of nodes.old sent.old) (fleet_of nodes.new sent.new)) }
{
    let Some((first, others)) = peers.split_first() else {
        return Ok(());
    };
    reach(alloc, chance, now, nodes, sent, place, *first, syn)?;
    reach_all(alloc, chance, now, nodes, sent, place, others, syn)?;
    Ok(())
}

// The round of the node of a place.
fn round_at<G: Rng + Drop>(
    alloc: Global,
    chance: &mut Chance<G>,
    now: u64,
    nodes: &mut [Node],
    sent: &mut [u64],
    place: usize,
) -> Result<(), Fault>
    requires { place < length nodes.old }
    ensures { OnOk result (HasRound place (fleet_of nodes.old sent.old) (fleet_of nodes.new sent.new)) }
{
    let words = chance.words();
    let reply = step_at(alloc, nodes, place, &Event::Tick { now, words })?;
    let Some((peers, syn)) = round_of(reply) else {
        return Err(Fault::OutOfMemory);
    };
    reach_all(
        alloc,
        chance,
        now,
        nodes,
        sent,
        place,
        peers.endpoints(),
        &syn,
    )?;
    Ok(())
}

// The exchanges of the node of a place without a tick.
fn quiet_round_at<G: Rng + Drop>(
    alloc: Global,
    chance: &mut Chance<G>,
    now: u64,
    nodes: &mut [Node],
    sent: &mut [u64],
    place: usize,
) -> Result<(), Fault>
    requires { place < length nodes.old }
    ensures { OnOk result (HasQuietRound place (fleet_of nodes.old sent.old) (fleet_of nodes.new sent.new)) }
{
    let words = chance.words();
    let node = &nodes[place];
    let syn = syn_of(alloc, node)?;
    let (_, reply) = node.stepped(alloc, &Event::Tick { now, words })?;
    let Some((peers, _)) = round_of(reply) else {
        return Err(Fault::OutOfMemory);
    };
    reach_all(
        alloc,
        chance,
        now,
        nodes,
        sent,
        place,
        peers.endpoints(),
        &syn,
    )?;
    Ok(())
}

/// Has each node tick, and do the exchanges with its peers before the next one ticks. `sent` counts the bytes by places.
pub(crate) fn round<G: Rng + Drop>(
    alloc: Global,
    chance: &mut Chance<G>,
    rounds: u64,
    nodes: &mut [Node],
    sent: &mut [u64],
) -> Result<(), Fault>
    ensures { OnOk result (EachDid HasRound (length nodes.old) (fleet_of nodes.old sent.old) (fleet_of nodes.new sent.new)) }
{
    let count = nodes.len();
    for place in 0..count {
        let now = time_of(rounds, place, count);
        round_at(alloc, chance, now, nodes, sent, place)?;
    }
    Ok(())
}

/// Has each node do the exchanges with the peers that its tick would choose, without the tick.
pub(crate) fn quiet_round<G: Rng + Drop>(
    alloc: Global,
    chance: &mut Chance<G>,
    rounds: u64,
    nodes: &mut [Node],
    sent: &mut [u64],
) -> Result<(), Fault>
    ensures { OnOk result (EachDid HasQuietRound (length nodes.old) (fleet_of nodes.old sent.old) (fleet_of nodes.new sent.new)) }
{
    let count = nodes.len();
    for place in 0..count {
        let now = time_of(rounds, place, count);
        quiet_round_at(alloc, chance, now, nodes, sent, place)?;
    }
    Ok(())
}
