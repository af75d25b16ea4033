//! Texts of a node's table and of its ring.

ghost use Rattle.std.specs.Prelude.{◌≡◌, ◌++◌, OnOk, string_bytes, option_copied};
ghost use Rattle.std.specs.List.{flat_map};
ghost use Rattle.std.specs.FinMap as map;
ghost use Rattle.cg_text.specs.Printed.{state_line, owner_line, generation_line, heartbeat_line, entry_lines, gossipinfo, digest_line, digest_lines, position_line, ring_lines, endpoint_line, replica_lines};

use crate::numbers::add_numbers;
use cg_entry::Entry;
use cg_table::Table;
use cg_tokens::{Ring, Token};
use cg_types::{Endpoint, Generation, Row, StateKey, StateText, Version};
use std::alloc::{AllocError, Global};
use std::fmt::Write;

// Adds a key's name, its version and its text; nothing of a tombstone.
#[tactic(auto, unfolding(crate::specs::Printed::state_line))]
fn add_state(
    text: &mut String,
    key: StateKey,
    value: Option<&StateText>,
    version: Version,
) -> Result<(), AllocError>
    ensures { OnOk result (string_bytes text.new ≡ string_bytes text.old
        ++ state_line (key, record { text = option_copied value.entry; version = version })) }
{
    let Some(value) = value else {
        return Ok(());
    };
    let name = key.name();
    let version = version.get();
    let value = value.as_str();
    writeln!(text, "  {name}:{version}:{value}")
}

#[tactic(auto, unfolding(crate::specs::Printed::owner_line))]
fn add_owner(text: &mut String, owner: Endpoint) -> Result<(), AllocError>
    ensures { OnOk result (string_bytes text.new ≡ string_bytes text.old ++ owner_line owner) }
{
    writeln!(text, "/{owner}")
}

#[tactic(auto, unfolding(crate::specs::Printed::generation_line))]
fn add_generation(text: &mut String, generation: Generation) -> Result<(), AllocError>
    ensures { OnOk result (string_bytes text.new ≡ string_bytes text.old ++ generation_line generation) }
{
    let generation = generation.get();
    writeln!(text, "  generation:{generation}")
}

#[tactic(auto, unfolding(crate::specs::Printed::heartbeat_line))]
fn add_heartbeat(text: &mut String, heartbeat: Version) -> Result<(), AllocError>
    ensures { OnOk result (string_bytes text.new ≡ string_bytes text.old ++ heartbeat_line heartbeat) }
{
    let heartbeat = heartbeat.get();
    writeln!(text, "  heartbeat:{heartbeat}")
}

// Adds the texts of an entry.
fn add_states(text: &mut String, entry: &Entry) -> Result<(), AllocError>
    ensures { OnOk result (string_bytes text.new
        ≡ string_bytes text.old ++ flat_map state_line (map.entries entry.now.states)) }
{
    let states = entry.by_key();
    for place in 0..states.len() {
        let (key, value, version) = states.at(place);
        add_state(text, key, value, version)?;
    }
    Ok(())
}

// Adds the lines of an endpoint's entry.
#[tactic(auto, unfolding(crate::specs::Printed::entry_lines))]
fn add_entry(text: &mut String, row: &Row<Entry>) -> Result<(), AllocError>
    ensures { OnOk result (string_bytes text.new ≡ string_bytes text.old ++ entry_lines row.now) }
{
    let entry = row.value();
    add_owner(text, row.endpoint())?;
    add_generation(text, entry.generation())?;
    add_heartbeat(text, entry.heartbeat())?;
    add_states(text, entry)
}

/// Adds the lines of a table, as Cassandra's `nodetool gossipinfo` does. For each owner, rising by endpoint, these are
/// a line with `/` and the endpoint, `  generation:` with its number, and `  heartbeat:` with its version. Then comes a
/// line for each text, rising by key: the key's name, the version and the text, as `  STATUS:2:NORMAL`. A key whose text
/// was removed has no line.
pub fn add_gossipinfo(text: &mut String, table: &Table) -> Result<(), AllocError>
    ensures { OnOk result (string_bytes text.new ≡ string_bytes text.old ++ gossipinfo table.now.entries) }
{
    for row in table.owners() {
        add_entry(text, row)?;
    }
    Ok(())
}

// Adds an endpoint, its generation and its newest version.
#[tactic(auto, unfolding(crate::specs::Printed::digest_line))]
fn add_digest(text: &mut String, row: &Row<Entry>) -> Result<(), AllocError>
    ensures { OnOk result (string_bytes text.new ≡ string_bytes text.old ++ digest_line row.now) }
{
    let endpoint = row.endpoint();
    let generation = row.value().generation().get();
    let newest = row.value().newest().get();
    endpoint.push_to(text)?;
    text.push_str(" ")?;
    add_numbers(text, generation, newest)
}

/// Adds a line for each entry of a table, rising by endpoint: the endpoint, its generation and its newest version.
pub fn add_digests(text: &mut String, table: &Table) -> Result<(), AllocError>
    ensures { OnOk result (string_bytes text.new ≡ string_bytes text.old ++ digest_lines table.now.entries) }
{
    for row in table.owners() {
        add_digest(text, row)?;
    }
    Ok(())
}

// Adds a token and the endpoint that has it.
#[tactic(auto, unfolding(crate::specs::Printed::position_line))]
fn add_position(text: &mut String, token: Token, endpoint: Endpoint) -> Result<(), AllocError>
    ensures { OnOk result (string_bytes text.new ≡ string_bytes text.old ++ position_line (token, endpoint)) }
{
    writeln!(text, "{token} {endpoint}")
}

/// Adds a line for each position of a ring, rising by token: the token and the endpoint that has it.
pub fn add_ring(text: &mut String, ring: &Ring) -> Result<(), AllocError>
    ensures { OnOk result (string_bytes text.new ≡ string_bytes text.old ++ ring_lines ring.now.positions) }
{
    for (token, endpoint) in ring.positions() {
        add_position(text, *token, *endpoint)?;
    }
    Ok(())
}

// Adds an endpoint in a line of its own.
#[tactic(auto, unfolding(crate::specs::Printed::endpoint_line))]
fn add_endpoint(text: &mut String, endpoint: Endpoint) -> Result<(), AllocError>
    ensures { OnOk result (string_bytes text.new ≡ string_bytes text.old ++ endpoint_line endpoint) }
{
    writeln!(text, "{endpoint}")
}

/// Adds a line for each of the endpoints that keep the keys of this token, at most `rf` of them, in the order of the
/// walk round the ring.
pub fn add_replicas(
    alloc: Global,
    text: &mut String,
    ring: &Ring,
    token: Token,
    rf: usize,
) -> Result<(), AllocError>
    ensures { OnOk result (string_bytes text.new ≡ string_bytes text.old ++ replica_lines ring.now.positions token rf) }
{
    let replicas = ring.replicas(alloc, token, rf)?;
    for endpoint in &replicas {
        add_endpoint(text, *endpoint)?;
    }
    Ok(())
}
