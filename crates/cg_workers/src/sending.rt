//! Rounds that are sent.

ghost use Rattle.std.specs.Prelude.{◌≡◌, ◌≤◌, ◌⊎◌, [], vec_capacity};
ghost use Rattle.cg_workers.specs.Ends.{TakesWhere};
ghost use Rattle.cg_workers.specs.declared.sending.TheConstants.{ROUNDS_AT_ONCE};
ghost use Rattle.cg_workers.specs.Workers.{BegunTo, ReachedTo, SentRound, SentRounds};

use crate::breaking::broken_by;
use crate::clock::Milliseconds;
use crate::ends::Taking;
use crate::links::Dial;
use crate::round::Round;
use cg_engine::{Counted, Gate, initiate};
use cg_messages::Syn;
use cg_types::{Endpoint, Fault};
use std::alloc::Global;
use std::io::{Read, Write};
use std::sync::Wait;

/// The number of rounds for whose numbers room is made at once.
pub const ROUNDS_AT_ONCE: usize = 1_000_000;

// Begins an exchange over a link, with this SYN. Returns the fault that broke it off, if one did.
fn begin<G: Gate, R: Read + Drop, W: Write + Drop, C: Milliseconds>(
    alloc: Global,
    gate: &mut G,
    clock: &C,
    syn: &Syn,
    link: (R, W),
) -> Option<Fault>
    ensures { BegunTo G.does G.refuses G.stays R.remaining W.contents (C.shows clock.now) result syn.now link gate.old gate.new }
{
    let (reader, writer) = link;
    let mut reader = Counted::new(reader);
    let mut writer = Counted::new(writer);
    let now = clock.now();
    broken_by(initiate(alloc, gate, now, syn, &mut reader, &mut writer))
}

/// Dials a peer, and begins an exchange with it if it can be reached. Returns the fault that broke the exchange off, if
/// one did.
pub fn reach<G: Gate, D: Dial, C: Milliseconds>(
    alloc: Global,
    gate: &mut G,
    dialer: &mut D,
    clock: &C,
    syn: &Syn,
    peer: Endpoint,
) -> Option<Fault>
    ensures { ReachedTo G.does G.refuses G.stays D.Reader.remaining D.Writer.contents D.dials (C.shows clock.now) result
        syn.now peer (dialer.old, gate.old) (dialer.new, gate.new) }
{
    match dialer.dial(peer) {
        Ok(link) => begin(alloc, gate, clock, syn, link),
        Err(_) => None,
    }
}

// Reaches each peer of a round, in their order.
fn send_round<G: Gate, D: Dial, C: Milliseconds>(
    alloc: Global,
    gate: &mut G,
    dialer: &mut D,
    clock: &C,
    round: &Round,
)
    ensures { SentRound G.does G.refuses G.stays D.Reader.remaining D.Writer.contents D.dials (C.shows clock.now)
        round.now (dialer.old, gate.old) (dialer.new, gate.new) }
{
    for peer in round.peers.endpoints() {
        let _broken = reach(alloc, gate, dialer, clock, &round.syn, *peer);
    }
}

// Returns an empty list with room for the numbers of `ROUNDS_AT_ONCE` rounds, or for none if that memory is refused.
fn with_room(alloc: Global) -> Vec<u64>
    ensures items { result.items ≡ [] }
    ensures room { (vec_capacity result ≡ 0) ⊎ (ROUNDS_AT_ONCE ≤ vec_capacity result) }
{
    match Vec::with_capacity(alloc, ROUNDS_AT_ONCE) {
        Ok(numbers) => numbers,
        Err(_) => Vec::new(alloc),
    }
}

/// Sends each round that it takes: it dials the round's peers in their order, and begins an exchange with each that it
/// reaches. A peer that can't be reached and a broken exchange end that exchange alone. Returns the numbers of the
/// rounds that it took.
///
/// It ends if the channel reports that no more rounds come, or if there is no memory for the number of a further one.
/// It makes room for a million numbers, 8 MB, before it takes a round. Beyond these, or if that room is refused, it takes
/// each round only once there is room for its number.
pub fn sender<G: Gate, D: Dial, C: Milliseconds, R: Wait>(
    rt: &R,
    alloc: Global,
    gate: &mut G,
    dialer: &mut D,
    clock: &C,
    from: &mut Taking,
) -> Vec<u64>
    ensures channel { TakesWhere from.new from.old }
    ensures sent { SentRounds G.does G.refuses G.stays D.Reader.remaining D.Writer.contents D.dials (C.shows clock.now)
        from.old from.new result.items (dialer.old, gate.old) (dialer.new, gate.new) }
{
    let mut numbers = with_room(alloc);
    for _ in rt.forever() {
        if numbers.reserve(1).is_err() {
            break;
        }
        let Some(round) = from.take(rt) else {
            break;
        };
        send_round(alloc, gate, dialer, clock, &round);
        numbers.push_reserved(round.number);
    }
    numbers
}
