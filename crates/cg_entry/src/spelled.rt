//! Blocks of states beside what spells them in a frame.

ghost use Rattle.std.specs.Prelude.{◌≡◌, ◌++◌, ◌∷◌, [], ◌<◌, ◌^◌, IfOk, IfSome, OnOk, option_copied, length};
ghost use Rattle.std.specs.FinMap as map;
ghost use Rattle.std.specs.Arc.{arc_value};
ghost use Rattle.std.specs.List.{flat_map};
ghost use Rattle.cg_entry.specs.State.{pair};
ghost use Rattle.cg_entry.specs.Part.{IsPart};
ghost use Rattle.cg_entry.specs.Section as spec;

use crate::block::Block;
use crate::by_key::ByKey;
use crate::part::Part;
use crate::state::State;
use cg_types::{Endpoint, Generation, StateKey, StateText, Version};
use std::alloc::{AllocError, Global};
use std::fmt;
use std::marker::Model;
use std::ops::Deref;
use std::sync::Arc;

/// The length that stands for a tombstone in a frame; no text is so long.
pub const TOMBSTONE: u16 = 65_535;

/// The most bytes of a section that is kept. So a text keeps no more alive, which is what the longest one takes.
pub const SECTION_LIMIT: usize = 4_096;

// A block, and beside it its section of a frame, if that is kept: what spells its states, in the order of the keys. The
// texts are parts of that.
#[derive(Drop)]
pub(crate) struct Spelled {
    block: Block,
    section: Option<Arc<Vec<u8>, Global>>,
}

impl Model for Spelled {
    ghost use Rattle.std.specs.Prelude.{◌≡◌, IfSome};
    ghost use Rattle.std.specs.Ordering.{nat_cmp};
    ghost use Rattle.std.specs.FinMap as map;
    ghost use Rattle.std.specs.Arc.{arc_value};
    ghost use Rattle.std.specs.List.{flat_map};
    ghost use Rattle.cg_entry.specs.Versioned.{Versioned, states_code};
    ghost use Rattle.cg_entry.specs.Section.{state};

    ghost Value = { map.FinMap nat_cmp Versioned };

    ghost coded = { states_code };

    ghost view = { λ s. s.block };

    ghost invariant = { λ s. IfSome s.section (λ b. (arc_value b).items ≡ flat_map state (map.entries s.block)) };
}

impl fmt::Debug for Spelled {
    fn fmt<W: fmt::Write>(&self, f: &mut fmt::Formatter<W>) -> fmt::Result {
        self.block.fmt(f)
    }
}

// The bytes before a state's text: the key, the version and the length.
#[tactic(auto, unfolding(crate::specs::Section::two_bytes, crate::specs::Section::four_bytes))]
fn state_head(key: u8, version: u32, size: u16) -> [u8; 7]
    ensures { result ≡ key ∷ (spec.four_bytes version ++ spec.two_bytes size) }
{
    let mut bytes = [key; 7];
    bytes[1..5].copy_from_slice(&version.to_be_bytes());
    bytes[5..].copy_from_slice(&size.to_be_bytes());
    bytes
}

// Spells a state; a tombstone has no text.
pub(crate) fn put_state(
    out: &mut Vec<u8>,
    key: StateKey,
    text: Option<&StateText>,
    version: Version,
) -> Result<(), AllocError>
    ensures { OnOk result (out.new.items ≡ out.old.items
        ++ spec.state (key, record { text = option_copied text.entry; version = version })) }
{
    match text {
        Some(text) => {
            let text = text.as_str().as_bytes();
            out.extend_from_slice(&state_head(key.get(), version.get(), text.len() as u16))?;
            out.extend_from_slice(text)?;
        }
        None => out.extend_from_slice(&state_head(key.get(), version.get(), TOMBSTONE))?,
    }
    Ok(())
}

// Spells the states.
pub(crate) fn put_states(out: &mut Vec<u8>, states: &ByKey<'_>) -> Result<(), AllocError>
    ensures { OnOk result (out.new.items ≡ out.old.items ++ flat_map spec.state states.now) }
{
    for place in 0..states.len() {
        let state = states.at(place);
        put_state(out, state.key, state.text.as_ref(), state.version)?;
    }
    Ok(())
}

// The bytes before a delta's states: the endpoint, the generation, two versions and the count.
#[tactic(auto, unfolding(crate::specs::Section::two_bytes, crate::specs::Section::four_bytes))]
fn delta_head(
    endpoint: Endpoint,
    generation: u32,
    above: u32,
    heartbeat: u32,
    count: u8,
) -> [u8; 19]
    ensures { result ≡ spec.endpoint endpoint ++ (spec.four_bytes generation ++ (spec.four_bytes above
        ++ (spec.four_bytes heartbeat ++ (count ∷ [])))) }
{
    let mut bytes = [count; 19];
    bytes[..4].copy_from_slice(&endpoint.address());
    bytes[4..6].copy_from_slice(&endpoint.port().to_be_bytes());
    bytes[6..10].copy_from_slice(&generation.to_be_bytes());
    bytes[10..14].copy_from_slice(&above.to_be_bytes());
    bytes[14..18].copy_from_slice(&heartbeat.to_be_bytes());
    bytes
}

// What stands before the states of a delta, but their number.
#[derive(Clone, Copy)]
pub(crate) struct Head {
    pub(crate) endpoint: Endpoint,
    pub(crate) generation: Generation,
    pub(crate) above: u32,
    pub(crate) heartbeat: Version,
}

// Spells the head of a delta with this number of states.
pub(crate) fn put_head(out: &mut Vec<u8>, head: Head, count: usize) -> Result<(), AllocError>
    requires { count < 2 ^ 8 }
    ensures { OnOk result (out.new.items ≡ out.old.items ++ spec.head head count) }
{
    out.extend_from_slice(&delta_head(
        head.endpoint,
        head.generation.get(),
        head.above,
        head.heartbeat.get(),
        count as u8,
    ))
}

// What spells a block.
fn section_of(alloc: Global, block: &Block) -> Result<Vec<u8>, AllocError>
    ensures { IfOk result (λ v. v.items ≡ flat_map spec.state (map.entries block.now)) }
{
    let size = block.len().saturating_mul(7);
    let mut section = Vec::with_capacity(alloc, size.saturating_add(block.text_bytes()))?;
    put_states(&mut section, &block.by_key())?;
    Ok(section)
}

impl Spelled {
    // A block alone, whose texts lie where they lay.
    pub(crate) fn plain(block: Block) -> Spelled
        ensures { result ≡ block }
    {
        Spelled {
            block,
            section: None,
        }
    }

    // A block, whose texts become parts of what spells it, unless that is too long to be kept.
    pub(crate) fn of(alloc: Global, block: Block) -> Result<Spelled, AllocError>
        ensures { IfOk result (λ s. s ≡ block) }
    {
        let size = block.len().saturating_mul(7);
        if size.saturating_add(block.text_bytes()) > SECTION_LIMIT {
            return Ok(Spelled::plain(block));
        }
        let section = Arc::new(alloc, section_of(alloc, &block)?)?;
        Ok(Spelled::beside(block.gathered(&section)?, section))
    }

    // A block beside what is known to spell it.
    pub(crate) fn beside(block: Block, section: Arc<Vec<u8>, Global>) -> Spelled
        requires { (arc_value section).items ≡ flat_map spec.state (map.entries block) }
        ensures { result ≡ block }
    {
        Spelled {
            block,
            section: Some(section),
        }
    }

    pub(crate) fn block(&self) -> &Block
        ensures { result.now ≡ self.now }
    {
        &self.block
    }

    // What spells the states, if it is kept.
    fn section(&self) -> Option<&[u8]>
        ensures { IfSome result (λ s. s.now ≡ flat_map spec.state (map.entries self.now)) }
    {
        let Some(section) = &self.section else {
            return None;
        };
        let bytes: &Vec<u8> = section.deref();
        Some(bytes)
    }

    // Tests whether the section is kept.
    pub(crate) fn keeps_section(&self) -> bool {
        self.section.is_some()
    }

    // Spells the states, at once if their section is kept.
    pub(crate) fn put(&self, out: &mut Vec<u8>) -> Result<(), AllocError>
        ensures { OnOk result (out.new.items ≡ out.old.items ++ flat_map spec.state (map.entries self.now)) }
    {
        match self.section() {
            Some(section) => out.extend_from_slice(section),
            None => put_states(out, &self.block.by_key()),
        }
    }

    // Which part of the states is newer than a version.
    pub(crate) fn newer_part(&self, above: u32) -> Part<'_>
        ensures { IsPart above self.now result }
    {
        self.block.newer_part(above, self.section())
    }
}
