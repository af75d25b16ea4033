//! Sample states, deltas and entries.

ghost use Rattle.std.specs.Prelude.{◌≡◌, Some, IfOk};
ghost use Rattle.std.specs.FinMap as map;
ghost use Rattle.cg_entry.specs.Entry.{starting_entry};
ghost use Rattle.cg_entry.specs.State.{pairs};
ghost use Rattle.cg_testing.specs.Nearest.{nearest_number, nearest_key};

use crate::numbers::{generation, key, version};
use cg_entry::{Delta, Entry, State};
use cg_types::{Fault, StateText};
use std::alloc::Global;
use std::test::Fail;

/// Makes the state of a key at a version with this text. Refusals are those of `StateText::new`.
pub fn state(alloc: Global, number: u8, at: u32, text: &str) -> Result<State, Fault>
    ensures { IfOk result (λ s. s ≡ record { key = nearest_key number; version = nearest_number at; text = Some text.now }) }
{
    Ok(State {
        key: key(number),
        version: version(at),
        text: Some(StateText::new(alloc, text)?),
    })
}

/// Makes the delta of a generation, the version that it is above, and the heartbeat version.
pub fn delta(of: (u32, u32, u32), states: Vec<State>) -> Result<Delta, Fail>
    ensures numbers { IfOk result (λ d.
        (d.generation ≡ nearest_number of.0) × (d.above ≡ of.1) × (d.heartbeat ≡ nearest_number of.2)) }
    ensures states { IfOk result (λ d. d.states ≡ map.from_sorted (pairs states.items)) }
{
    let (at, above, heartbeat) = of;
    let delta = Delta::new(generation(at), above, version(heartbeat), states);
    Ok(delta.ok_or("a delta")?)
}

/// Makes a delta as `delta` does, with no states.
pub fn bare_delta(alloc: Global, of: (u32, u32, u32)) -> Result<Delta, Fail>
    ensures numbers { IfOk result (λ d.
        (d.generation ≡ nearest_number of.0) × (d.above ≡ of.1) × (d.heartbeat ≡ nearest_number of.2)) }
    ensures states { IfOk result (λ d. d.states ≡ map.empty) }
{
    delta(of, Vec::new(alloc))
}

/// Makes the entry of an endpoint that has just started at a generation.
pub fn entry_at_start(alloc: Global, at: u32) -> Entry
    ensures { result ≡ starting_entry (nearest_number at) }
{
    Entry::start(alloc, generation(at))
}

/// Makes an entry of a generation and a heartbeat version, with no states.
pub fn bare_entry(alloc: Global, at: u32, heartbeat: u32) -> Result<Entry, Fail>
    ensures { IfOk result (λ e.
        e ≡ record { generation = nearest_number at; heartbeat = nearest_number heartbeat; states = map.empty }) }
{
    let whole = bare_delta(alloc, (at, 0, heartbeat))?;
    Ok(Entry::of_delta(alloc, &whole)?.ok_or("an entry")?)
}
