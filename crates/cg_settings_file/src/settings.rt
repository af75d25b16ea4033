//! Settings of a node that serves, and how they are read.

ghost use Rattle.std.specs.Prelude.{◌≡◌, IfOk, Ok, Err, option_map, codes};
ghost use Rattle.toml.specs.View.{table_view};
ghost use Rattle.cg_settings_file.specs.Settings as spec;
ghost use Rattle.cg_settings_file.specs.Settings.{settings_in, settings_or_key_in_bytes, settings_in_bytes};
ghost use Rattle.cg_settings_file.specs.Seen.{Finds, GivesOrStops, Names, Tells, IsUnsetBy, turns_view, settings_view};

use crate::keys::unknown_in;
use crate::limits::{DEFAULT_INTERVAL, DEFAULT_RANDOM, INTERVAL_LIMIT, TURN_LIMIT};
use crate::node::node_in;
use crate::stop::{Stop, Unset, without_key};
use crate::values::{endpoint_at, number_in, number_or_key, text_or_key, value_at};
use cg_core::Settings;
use cg_types::{Endpoint, Fault};
use cg_workers::Turns;
use std::alloc::Global;
use toml::Table;

/// The settings of a node that serves.
#[derive(Debug, Drop)]
pub struct ServeSettings {
    /// Its cluster, its seeds, and its judgement of silence.
    pub node: Settings,
    /// Its own endpoint, at which it listens.
    pub listen: Endpoint,
    /// The path of the file that keeps its generation.
    pub generation_file: String,
    /// The path of its journal.
    pub journal: String,
    /// Its rounds, its exchanges and its interval.
    pub turns: Turns,
    /// The seed of its random words.
    pub random: u64,
}

#[tactic(auto, unfolding(crate::specs::Settings::turns_from))]
fn turns_in(table: &Table) -> Result<Turns, &'static str>
    ensures { Names turns_view result (spec.turns_from (table_view table.now)) }
{
    let rounds = number_or_key(table, "rounds", TURN_LIMIT, None)?;
    let exchanges = number_or_key(table, "exchanges", TURN_LIMIT, None)?;
    let interval = number_or_key(table, "interval", INTERVAL_LIMIT, Some(DEFAULT_INTERVAL))?;
    Ok(Turns {
        rounds,
        exchanges,
        interval,
    })
}

#[tactic(auto, unfolding(crate::specs::Settings::random_from))]
pub(crate) fn random_in(table: &Table) -> Option<u64>
    ensures { result ≡ spec.random_from (table_view table.now) }
{
    match value_at(table, "random") {
        Some(value) => number_in(value),
        None => Some(DEFAULT_RANDOM),
    }
}

#[tactic(auto, unfolding(crate::specs::Settings::paths_from))]
fn paths_in(table: &Table) -> Result<(&str, &str), &'static str>
    ensures { Names (λ p. (p.0.now, p.1.now)) result (spec.paths_from (table_view table.now)) }
{
    let generation_file = text_or_key(table, "generation_file")?;
    let journal = text_or_key(table, "journal")?;
    Ok((generation_file, journal))
}

// Reads the settings of a table, or the first key that is refused: by its value, or else since it has no meaning.
#[tactic(auto, unfolding(crate::specs::Settings::settings_from))]
fn settings_in_table(alloc: Global, table: &Table) -> Result<ServeSettings, Stop<'_>>
    ensures { GivesOrStops settings_view result (spec.settings_from (table_view table.now)) }
{
    let node = node_in(alloc, table)?;
    let Some(listen) = endpoint_at(table, "listen") else {
        return Err(Stop::Key("listen"));
    };
    let (generation_file, journal) = paths_in(table)?;
    let turns = turns_in(table)?;
    let Some(random) = random_in(table) else {
        return Err(Stop::Key("random"));
    };
    if let Some(key) = unknown_in(table) {
        return Err(Stop::Key(key));
    }
    let Ok(generation_file) = String::from_str(alloc, generation_file) else {
        return Err(Stop::Memory);
    };
    let Ok(journal) = String::from_str(alloc, journal) else {
        return Err(Stop::Memory);
    };
    Ok(ServeSettings {
        node,
        listen,
        generation_file,
        journal,
        turns,
        random,
    })
}

// Returns the fault by which the reading of a table ended, with the key that is refused.
pub(crate) fn unset(alloc: Global, stop: Stop<'_>) -> Unset
    ensures { IsUnsetBy stop.entry result }
{
    let Stop::Key(key) = stop else {
        return without_key(Fault::OutOfMemory);
    };
    match String::from_str(alloc, key) {
        Ok(key) => Unset {
            fault: Fault::BadText,
            key: Some(key),
        },
        Err(_) => without_key(Fault::OutOfMemory),
    }
}

#[tactic(auto, unfolding(crate::specs::Settings::settings_or_key))]
fn settings_in_text(alloc: Global, text: &str) -> Result<ServeSettings, Unset>
    ensures { Tells settings_view result (spec.settings_or_key text.now) }
{
    let table = match toml::table_from_str(alloc, text) {
        Ok(table) => table,
        Err(error) => {
            return Err(without_key(if error.is_memory() {
                Fault::OutOfMemory
            } else {
                Fault::BadText
            }));
        }
    };
    match settings_in_table(alloc, &table) {
        Ok(settings) => Ok(settings),
        Err(stop) => Err(unset(alloc, stop)),
    }
}

// Returns the text that bytes are, if they are UTF-8.
#[tactic(auto, unfolding(crate::specs::Settings::text_in))]
pub(crate) fn text_in(bytes: &[u8]) -> Option<&str>
    ensures { option_map (λ t. t.now) result ≡ spec.text_in bytes.now }
{
    match std::str::from_utf8(bytes) {
        Ok(text) => Some(text),
        Err(_) => None,
    }
}

/// Reads the settings in the bytes of a file, which are the text of a TOML table.
///
/// `OutOfMemory` if memory runs out on the way. Else `BadText` if and only if the bytes are no UTF-8 or no TOML table, or
/// break one of these rules: no key that is needed is missing; each value is of its type and in its range; each key has
/// a meaning. Of a rule that is broken the key is told.
#[tactic(auto, unfolding(crate::specs::Settings::settings_or_key_in_bytes))]
pub fn settings_or_key(alloc: Global, bytes: &[u8]) -> Result<ServeSettings, Unset>
    ensures { Tells settings_view result (settings_or_key_in_bytes bytes.now) }
{
    match text_in(bytes) {
        Some(text) => settings_in_text(alloc, text),
        None => Err(without_key(Fault::BadText)),
    }
}

/// Reads the settings in a text, which is a TOML table, as `settings_or_key` does, and returns the fault without the
/// key.
pub fn settings_of(alloc: Global, text: &str) -> Result<ServeSettings, Fault>
    ensures { Finds settings_view result (settings_in text.now) }
{
    match settings_in_text(alloc, text) {
        Ok(settings) => Ok(settings),
        Err(unset) => Err(unset.fault),
    }
}

/// Reads the settings in the bytes of a file: as `settings_of`, and `BadText` too if they are not UTF-8.
pub fn settings_of_bytes(alloc: Global, bytes: &[u8]) -> Result<ServeSettings, Fault>
    ensures { Finds settings_view result (settings_in_bytes bytes.now) }
{
    match settings_or_key(alloc, bytes) {
        Ok(settings) => Ok(settings),
        Err(unset) => Err(unset.fault),
    }
}
