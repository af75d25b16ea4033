//! Calls on byte slices, which C can make: a frame is decoded, a stream is read in two pieces, an exchange is answered.
//!
//! They are for a fuzzer, which compares their answers with another implementation's (`scripts/fuzz`). Each call writes
//! its answer to the slice that it is lent, as much of it as fits, and returns the number of its bytes, or 2^64 - 1 if
//! memory was refused. An answer begins with frames; a text follows if the last one is not whole, or at the end of an
//! exchange.
#![tactic(auto)]

use cg_core::Node;
use cg_engine::{Broken, Ended, NodeGate, respond};
use cg_exchange::syn;
use cg_frames::{Feed, Message, decode, encode};
use cg_links::Counted;
use cg_testing::{B, endpoint, generation, settings};
use cg_types::Fault;
use std::alloc::Global;

// The answer of a call that was refused memory.
const REFUSED: usize = usize::MAX;

// Writes as much of an answer as fits, and returns the number of its bytes.
fn told(answer: Result<Vec<u8>, Fault>, out: &mut [u8]) -> usize {
    let Ok(bytes) = answer else {
        return REFUSED;
    };
    let room = bytes.len().min(out.len());
    out[..room].copy_from_slice(&bytes[..room]);
    bytes.len()
}

fn add_frame(alloc: Global, answer: &mut Vec<u8>, message: &Message) -> Result<(), Fault> {
    let frame = encode(alloc, message)?;
    answer.extend_from_slice(frame.as_slice())?;
    Ok(())
}

fn add_fault(alloc: Global, answer: &mut Vec<u8>, fault: Fault) -> Result<(), Fault> {
    let text = format!(in alloc; "fault {fault}")?;
    answer.extend_from_slice(text.as_bytes())?;
    Ok(())
}

// Decodes one frame.
fn decoded(alloc: Global, bytes: &[u8]) -> Result<Vec<u8>, Fault> {
    let mut answer = Vec::new(alloc);
    match decode(alloc, bytes) {
        Ok(Some((message, _))) => add_frame(alloc, &mut answer, &message)?,
        Ok(None) => answer.extend_from_slice(b"partial")?,
        Err(fault) => add_fault(alloc, &mut answer, fault)?,
    }
    Ok(answer)
}

// Adds the end of a stream: its fault, or the number of bytes that the last frame lacks.
fn add_end(alloc: Global, answer: &mut Vec<u8>, feed: &Feed) -> Result<(), Fault> {
    match feed.end() {
        Ok(()) => Ok(()),
        Err(Fault::Truncated) => {
            let wants = feed.wants();
            let text = format!(in alloc; "partial {wants}")?;
            answer.extend_from_slice(text.as_bytes())?;
            Ok(())
        }
        Err(fault) => add_fault(alloc, answer, fault),
    }
}

// Reads a stream that comes in two pieces.
fn read_in_two(alloc: Global, front: &[u8], back: &[u8]) -> Result<Vec<u8>, Fault> {
    let mut feed = Feed::new(alloc);
    let mut answer = Vec::new(alloc);
    for piece in [front, back] {
        let fed = feed.push(piece)?;
        for message in &fed.messages {
            add_frame(alloc, &mut answer, message)?;
        }
    }
    add_end(alloc, &mut answer, &feed)?;
    Ok(answer)
}

// Adds the end of an exchange.
fn add_ended(
    alloc: Global,
    answer: &mut Vec<u8>,
    ended: Result<Ended, Broken>,
) -> Result<(), Fault> {
    let text = match ended {
        Ok(Ended::Whole) => format!(in alloc; "whole")?,
        Ok(Ended::Closed(done)) => format!(in alloc; "closed {done}")?,
        Err(Broken { done, fault }) => format!(in alloc; "broken {done} {fault}")?,
    };
    answer.extend_from_slice(text.as_bytes())?;
    Ok(())
}

// Adds the SYN that a node sends, which has a digest of each entry that it holds.
fn add_digests(alloc: Global, answer: &mut Vec<u8>, node: &Node) -> Result<(), Fault> {
    let syn = syn(alloc, node.table(), node.settings().cluster())?;
    add_frame(alloc, answer, &Message::Syn(syn))
}

// Answers an exchange whose input is these bytes, at a node that has just started.
fn responded(alloc: Global, bytes: &[u8]) -> Result<Vec<u8>, Fault> {
    let node = Node::start(alloc, endpoint(B), generation(5), settings(alloc)?)?;
    let mut gate = NodeGate::new(node);
    let mut reader = Counted::new(bytes);
    let mut writer = Counted::new(Vec::new(alloc));
    let ended = respond(alloc, &mut gate, 1000, &mut reader, &mut writer);
    let mut answer = writer.into_link();
    add_ended(alloc, &mut answer, ended)?;
    add_digests(alloc, &mut answer, gate.node())?;
    Ok(answer)
}

/// Decodes the frame that bytes begin with. The answer is its message, written again, or `partial`, or `fault` and the
/// fault.
#[unsafe(no_mangle)]
pub extern "C" fn cg_decode(alloc: Global, bytes: &[u8], out: &mut [u8]) -> usize {
    told(decoded(alloc, bytes), out)
}

/// Reads a stream that comes in two pieces. The answer is each message, written again, and then `partial` and the
/// number of bytes that the last frame lacks, or `fault` and its fault.
#[unsafe(no_mangle)]
pub extern "C" fn cg_feed(alloc: Global, front: &[u8], back: &[u8], out: &mut [u8]) -> usize {
    told(read_in_two(alloc, front, back), out)
}

/// Answers an exchange at 10.0.0.2:7000, in generation 5 of the cluster c1, which has just started. The answer is what
/// the node wrote, then `whole`, `closed` and the number of events done, or `broken`, that number and the fault, and
/// then the SYN that the node would now send.
#[unsafe(no_mangle)]
pub extern "C" fn cg_respond(alloc: Global, bytes: &[u8], out: &mut [u8]) -> usize {
    told(responded(alloc, bytes), out)
}
