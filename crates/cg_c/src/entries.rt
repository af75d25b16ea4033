//! One entry of a node's table is read, one state of it, and what its window shows.

ghost use Rattle.std.specs.Prelude.{◌≡◌};
ghost use Rattle.cg_text.specs.Gives.{Gives};
ghost use Rattle.cg_c.specs.Told.{Tells};
ghost use Rattle.cg_c.specs.Bytes.{held_items};
ghost use Rattle.cg_c.specs.Entries.{numbers_at, state_at, verdict_at, held_entry, held_state, held_verdict};
ghost use Rattle.cg_c.specs.Entries as spec;

use crate::given::Bytes;
use crate::held_node::HeldNode;
use crate::told::{DONE, number};
use cg_core::Node;
use cg_silence::Verdict;
use cg_types::{Endpoint, Fault, StateKey};
use std::alloc::Global;

// The generation and the newest version of the entry of an endpoint.
fn numbers_in(node: &Node, endpoint: &[u8]) -> Result<(u32, u32), Fault>
    ensures { result ≡ numbers_at node.now endpoint.now }
{
    let Some(endpoint) = Endpoint::from_bytes(endpoint) else {
        return Err(Fault::BadText);
    };
    let Some(entry) = node.table().get(endpoint) else {
        return Err(Fault::NoSuchNode);
    };
    Ok((entry.generation().get(), entry.newest().get()))
}

// The text of a key of an endpoint, and the version that set it.
fn state_in(
    alloc: Global,
    node: &Node,
    endpoint: &[u8],
    key: u8,
) -> Result<(Box<Vec<u8>>, u32), Fault>
    ensures { Gives (λ p. (p.0.value.items, p.1)) result (state_at node.now endpoint.now key) }
{
    let Some(endpoint) = Endpoint::from_bytes(endpoint) else {
        return Err(Fault::BadText);
    };
    let Some(key) = StateKey::new(key) else {
        return Err(Fault::BadText);
    };
    let Some(entry) = node.table().get(endpoint) else {
        return Err(Fault::NoSuchNode);
    };
    let Some((text, version)) = entry.get(key) else {
        return Err(Fault::NoSuchKey);
    };
    let text = Vec::from_slice(alloc, text.as_str().as_bytes())?;
    Ok((Box::new(alloc, text)?, version.get()))
}

fn verdict_number(verdict: Verdict) -> u8
    ensures { result ≡ spec.verdict_number verdict }
{
    match verdict {
        Verdict::Alive => 0,
        Verdict::Silent => 1,
        Verdict::Unheard => 2,
    }
}

fn verdict_in(node: &Node, endpoint: &[u8], now: u64) -> Result<u8, Fault>
    ensures { result ≡ verdict_at node.now endpoint.now now }
{
    match Endpoint::from_bytes(endpoint) {
        Some(endpoint) => Ok(verdict_number(node.verdict(endpoint, now))),
        None => Err(Fault::BadText),
    }
}

/// Tells the generation and the newest version that is held of an endpoint. It answers `BadText` if that is not the text
/// of one, and `NoSuchNode` if no entry of it is held.
#[unsafe(no_mangle)]
pub extern "C" fn cg_entry(
    alloc: Global,
    node: &mut HeldNode,
    endpoint: &[u8],
    generation: &mut u32,
    newest: &mut u32,
) -> u32
    ensures told { Tells (held_entry node.old.value endpoint.now) (generation.new, newest.new)
        ((generation.new ≡ generation.old) × (newest.new ≡ newest.old)) result }
    ensures same { node.new.value ≡ node.old.value }
{
    let Some(inside) = node.take(alloc) else {
        return number(Fault::NoSuchNode);
    };
    let read = numbers_in(&inside, endpoint);
    node.put(alloc, inside);
    match read {
        Ok((of_start, last)) => {
            *generation = of_start;
            *newest = last;
            DONE
        }
        Err(fault) => number(fault),
    }
}

/// Gives the text of a key, 1 to 16, of an endpoint, and tells the version that set it. It answers `BadText` if the
/// endpoint or the key is not one, `NoSuchNode` if no entry of the endpoint is held, and `NoSuchKey` if the key has no
/// text there.
#[unsafe(no_mangle)]
pub extern "C" fn cg_state(
    alloc: Global,
    node: &mut HeldNode,
    endpoint: &[u8],
    key: u8,
    text: &mut Bytes,
    version: &mut u32,
) -> u32
    ensures told { Tells (held_state node.old.value endpoint.now key) (held_items text.new.held.value, version.new)
        ((text.new ≡ text.old) × (version.new ≡ version.old)) result }
    ensures same { node.new.value ≡ node.old.value }
{
    let Some(inside) = node.take(alloc) else {
        return number(Fault::NoSuchNode);
    };
    let read = state_in(alloc, &inside, endpoint, key);
    node.put(alloc, inside);
    match read {
        Ok((found, set_by)) => {
            text.put(alloc, found);
            *version = set_by;
            DONE
        }
        Err(fault) => number(fault),
    }
}

/// Tells the verdict of an endpoint's window at `now`: 0 for alive, 1 for silent, 2 if it was never heard. It answers
/// `BadText` if the endpoint is not one.
#[unsafe(no_mangle)]
pub extern "C" fn cg_verdict(
    alloc: Global,
    node: &mut HeldNode,
    endpoint: &[u8],
    now: u64,
    verdict: &mut u8,
) -> u32
    ensures told { Tells (held_verdict node.old.value endpoint.now now) verdict.new (verdict.new ≡ verdict.old) result }
    ensures same { node.new.value ≡ node.old.value }
{
    let Some(inside) = node.take(alloc) else {
        return number(Fault::NoSuchNode);
    };
    let read = verdict_in(&inside, endpoint, now);
    node.put(alloc, inside);
    match read {
        Ok(shown) => {
            *verdict = shown;
            DONE
        }
        Err(fault) => number(fault),
    }
}
