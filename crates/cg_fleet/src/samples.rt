//! Nodes as they start: their endpoints, their settings and their states.

ghost use Rattle.std.specs.Prelude.{◌≡◌, ◌≤◌, ◌<◌, ◌+◌, ◌%◌, ◌/◌, ◌^◌, IfOk};
ghost use Rattle.cg_types.specs.declared.limits.TheConstants.{STATE_LIMIT};
ghost use Rattle.cg_fleet.specs.Moves as spec;
ghost use Rattle.cg_fleet.specs.Starting.{HasStarted, SetsKey, fleet_settings};

use cg_core::{Event, Node, Settings};
use cg_silence::Silence;
use cg_testing::{cluster, endpoint, key};
use cg_tokens::token_of;
use cg_types::{Endpoint, Fault, Generation, STATE_LIMIT, STATUS_KEY, StateText, TOKENS_KEY};
use std::alloc::{AllocError, Global};

// The bytes of a state's text.
const TEXT: usize = 64;

/// The place of the node of an endpoint.
pub(crate) fn place_of(endpoint: Endpoint) -> usize
    ensures { result ≡ spec.place_of endpoint }
{
    let [_, _, high, low] = endpoint.address();
    usize::from(u16::from_be_bytes([high, low]))
}

/// The settings of all nodes: the first three are seeds, and the silence is the default one.
pub(crate) fn settings(alloc: Global) -> Result<Settings, Fault>
    ensures { IfOk result (λ s. s ≡ fleet_settings) }
{
    let seeds = Vec::from_slice(alloc, &[endpoint(0), endpoint(1), endpoint(2)])?;
    match Settings::new(cluster(alloc)?, seeds, Silence::default()) {
        Some(settings) => Ok(settings),
        None => unreachable!(),
    }
}

// A text of `TEXT` bytes, another one for each place and key.
fn filled(alloc: Global, place: u16, number: u8) -> Result<String, AllocError> {
    let mut text = format!(in alloc; "{place}/{number}/")?;
    for _ in text.len()..TEXT {
        text.push('x')?;
    }
    Ok(text)
}

// The text of a key: the node is in the ring, and claims one token.
fn text_of(alloc: Global, place: u16, number: u8) -> Result<String, AllocError> {
    match number {
        STATUS_KEY => String::from_str(alloc, "NORMAL"),
        TOKENS_KEY => {
            let token = token_of(&place.to_be_bytes());
            format!(in alloc; "{token}")
        }
        _ => filled(alloc, place, number),
    }
}

// The node after it set a key.
fn with_key(alloc: Global, node: &Node, place: u16, number: u8) -> Result<Node, Fault>
    requires key { 0 < number }
    requires few { number ≤ STATE_LIMIT }
    ensures { IfOk result (λ m. SetsKey number node.now m) }
{
    let text = text_of(alloc, place, number)?;
    let event = Event::Set {
        key: key(number),
        text: StateText::new(alloc, &text)?,
    };
    let (after, _) = node.stepped(alloc, &event)?;
    Ok(after)
}

/// Starts the node of a place, and sets all its keys.
#[tactic(auto, using(crate::proofs::StartLemmas::keys_on))]
pub(crate) fn started(
    alloc: Global,
    place: u16,
    generation: Generation,
    settings: &Settings,
) -> Result<Node, Fault>
    ensures { IfOk result (λ n. HasStarted settings.now place generation n) }
{
    let mut node = Node::start(alloc, endpoint(place), generation, settings.copy(alloc)?)?;
    for before in 0..STATE_LIMIT {
        node = with_key(alloc, &node, place, before + 1)?;
    }
    Ok(node)
}
