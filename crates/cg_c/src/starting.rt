//! A node is started, and freed.

ghost use Rattle.std.specs.Prelude.{◌≡◌, None, IfOk};
ghost use Rattle.cg_text.specs.Gives.{Finds};
ghost use Rattle.cg_c.specs.Told.{Tells};
ghost use Rattle.cg_c.specs.Starting.{defaults, silence_by, seeds_in_text, settings_in_texts, node_in_texts, held_start};
ghost use Rattle.cg_c.specs.Starting as spec;
ghost use Rattle.cg_c.specs.Ranges as ranges;

use crate::held_node::HeldNode;
use crate::told::{DONE, number};
use cg_core::{Node, Settings};
use cg_silence::{
    DEFAULT_INITIAL_GAP, DEFAULT_MAX_GAP, DEFAULT_THRESHOLD, DEFAULT_WINDOW, Silence,
};
use cg_text::{cluster_named, endpoints_in};
use cg_types::{Endpoint, Fault, Generation};
use std::alloc::Global;

/// The numbers by which a node judges silence, as the keys of a settings file name them.
#[repr(C)]
#[derive(Clone, Copy)]
pub struct Judgement {
    /// The number of gaps that a window keeps.
    pub window: u32,
    /// The gap that the first arrival records, in milliseconds.
    pub initial_gap: u32,
    /// The greatest gap that is recorded, in milliseconds.
    pub max_gap: u32,
    /// The time that may pass without an arrival, in thousandths of the mean gap.
    pub threshold: u32,
}

// The settings of silence, if each number is in its range.
fn silence_of(judgement: &Judgement) -> Option<Silence>
    ensures { result ≡ silence_by judgement.now }
{
    let window = judgement.window as usize;
    let gap = judgement.initial_gap;
    match Silence::try_new(window, gap, judgement.max_gap, judgement.threshold) {
        Ok(silence) => Some(silence),
        Err(_) => None,
    }
}

// The seeds of a text: endpoints with a comma between them, or none.
fn seeds_in(alloc: Global, text: &[u8]) -> Result<Vec<Endpoint>, Fault>
    ensures { Finds (λ v. v.items) result (seeds_in_text text.now) }
{
    if text.is_empty() {
        return Ok(Vec::new(alloc));
    }
    match endpoints_in(alloc, b',', text)? {
        Some(seeds) => Ok(seeds),
        None => Err(Fault::BadText),
    }
}

fn settings_in(
    alloc: Global,
    cluster: &[u8],
    seeds: &[u8],
    judgement: &Judgement,
) -> Result<Settings, Fault>
    ensures { Finds (λ s. s) result (settings_in_texts cluster.now seeds.now judgement.now) }
{
    let cluster = cluster_named(alloc, cluster)?;
    let seeds = seeds_in(alloc, seeds)?;
    let Some(silence) = silence_of(judgement) else {
        return Err(Fault::BadText);
    };
    match Settings::try_new(cluster, seeds, silence) {
        Ok(settings) => Ok(settings),
        Err(_) => Err(Fault::BadText),
    }
}

// The number of a generation, if it is one.
fn generation_of(number: u32) -> Option<Generation>
    ensures { result ≡ ranges.generation_of number }
{
    Generation::new(number)
}

fn node_in(
    alloc: Global,
    endpoint: &[u8],
    generation: u32,
    settings: Settings,
) -> Result<Box<Node>, Fault>
    ensures { Finds (λ b. b.value) result (node_in_texts endpoint.now generation settings) }
{
    let Some(own) = Endpoint::from_bytes(endpoint) else {
        return Err(Fault::BadText);
    };
    let Some(generation) = generation_of(generation) else {
        return Err(Fault::BadText);
    };
    let node = Node::start(alloc, own, generation, settings)?;
    Ok(Box::new(alloc, node)?)
}

fn started(
    alloc: Global,
    endpoint: &[u8],
    generation: u32,
    cluster: &[u8],
    seeds: &[u8],
    judgement: &Judgement,
) -> Result<Box<Node>, Fault>
    ensures { Finds (λ b. b.value) result
        (spec.started endpoint.now generation cluster.now seeds.now judgement.now) }
{
    let settings = settings_in(alloc, cluster, seeds, judgement)?;
    node_in(alloc, endpoint, generation, settings)
}

/// Tells the numbers by which silence is judged if a settings file says nothing.
#[unsafe(no_mangle)]
pub extern "C" fn cg_defaults(judgement: &mut Judgement)
    ensures { judgement.new ≡ defaults }
{
    *judgement = Judgement {
        window: DEFAULT_WINDOW as u32,
        initial_gap: DEFAULT_INITIAL_GAP,
        max_gap: DEFAULT_MAX_GAP,
        threshold: DEFAULT_THRESHOLD,
    };
}

/// Starts a node at an endpoint, as `10.0.0.1:7000`, in a generation, 1 to 2^31 - 1. The handle then holds the node; one
/// that it held is freed. The cluster is its name. The seeds are endpoints that rise, with a comma between them, or none.
/// It answers `BadText` if one of these, or a number of the judgement, is not of its form or out of its range.
#[unsafe(no_mangle)]
pub extern "C" fn cg_start(
    alloc: Global,
    node: &mut HeldNode,
    endpoint: &[u8],
    generation: u32,
    cluster: &[u8],
    seeds: &[u8],
    judgement: &Judgement,
) -> u32
    ensures { Tells (held_start endpoint.now generation cluster.now seeds.now judgement.now) node.new.value
        (node.new.value ≡ node.old.value) result }
{
    match started(alloc, endpoint, generation, cluster, seeds, judgement) {
        Ok(inside) => {
            node.put(alloc, inside);
            DONE
        }
        Err(fault) => number(fault),
    }
}

/// Frees the node that a handle holds, if it holds one. The handle then holds nothing.
#[unsafe(no_mangle)]
pub extern "C" fn cg_free(alloc: Global, node: &mut HeldNode)
    ensures { node.new.value ≡ None }
{
    let _freed = node.take(alloc);
}
