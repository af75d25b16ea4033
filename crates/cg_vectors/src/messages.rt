//! The messages of frames, as words.

use cg_entry::{Digest, State};
use cg_messages::{Ack, Ack2, Message, OwnerDelta, Request, Syn};
use std::alloc::{AllocError, Global};

// Adds bytes as hexadecimal digits, or `-` if there are none.
fn add_digits(alloc: Global, text: &mut String, bytes: &[u8]) -> Result<(), AllocError> {
    if bytes.is_empty() {
        return text.push('-');
    }
    let digits = hex::encode(alloc, bytes)?;
    text.push_str(digits.as_str())
}

fn add_digest(text: &mut String, digest: &Digest) -> Result<(), AllocError> {
    let endpoint = digest.endpoint;
    let generation = digest.generation.get();
    let newest = digest.newest.get();
    write!(text, " digest {endpoint} {generation} {newest}")
}

fn add_request(text: &mut String, request: &Request) -> Result<(), AllocError> {
    let endpoint = request.endpoint();
    let generation = request.generation().get();
    let version = request.version();
    write!(text, " request {endpoint} {generation} {version}")
}

fn add_state(alloc: Global, text: &mut String, state: &State) -> Result<(), AllocError> {
    let key = state.key.get();
    let version = state.version.get();
    let Some(value) = &state.text else {
        return write!(text, " removed {key} {version}");
    };
    write!(text, " state {key} {version} ")?;
    add_digits(alloc, text, value.as_str().as_bytes())
}

fn add_delta_head(text: &mut String, owned: &OwnerDelta) -> Result<(), AllocError> {
    let endpoint = owned.endpoint;
    let generation = owned.delta.generation().get();
    let above = owned.delta.above();
    let heartbeat = owned.delta.heartbeat().get();
    write!(text, " delta {endpoint} {generation} {above} {heartbeat}")
}

fn add_delta(alloc: Global, text: &mut String, owned: &OwnerDelta) -> Result<(), AllocError> {
    add_delta_head(text, owned)?;
    let states = owned.delta.by_key();
    for place in 0..states.len() {
        add_state(alloc, text, states.at(place))?;
    }
    Ok(())
}

fn add_deltas(alloc: Global, text: &mut String, deltas: &[OwnerDelta]) -> Result<(), AllocError> {
    for delta in deltas {
        add_delta(alloc, text, delta)?;
    }
    Ok(())
}

fn add_syn(alloc: Global, text: &mut String, syn: &Syn) -> Result<(), AllocError> {
    text.push_str("syn ")?;
    add_digits(alloc, text, syn.cluster().name().as_bytes())?;
    let partitioner = syn.cluster().partitioner();
    write!(text, " {partitioner}")?;
    for digest in syn.digests() {
        add_digest(text, digest)?;
    }
    Ok(())
}

fn add_ack(alloc: Global, text: &mut String, ack: &Ack) -> Result<(), AllocError> {
    text.push_str("ack")?;
    for request in ack.requests() {
        add_request(text, request)?;
    }
    add_deltas(alloc, text, ack.deltas())
}

fn add_ack2(alloc: Global, text: &mut String, ack2: &Ack2) -> Result<(), AllocError> {
    text.push_str("ack2")?;
    add_deltas(alloc, text, ack2.deltas())
}

/// Adds a message's words: its kind, its fields, and the parts of its lists, each after a word that names it.
pub fn add_message(alloc: Global, text: &mut String, message: &Message) -> Result<(), AllocError> {
    match message {
        Message::Syn(syn) => add_syn(alloc, text, syn),
        Message::Ack(ack) => add_ack(alloc, text, ack),
        Message::Ack2(ack2) => add_ack2(alloc, text, ack2),
    }
}
