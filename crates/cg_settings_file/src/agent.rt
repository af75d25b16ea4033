//! Settings of a node that runs until it is stopped, and how they are read.

ghost use Rattle.std.specs.Prelude.{◌≡◌, IfOk, Ok, Err, None, option_map, codes, string_bytes};
ghost use Rattle.toml.specs.View.{table_view, view};
ghost use Rattle.cg_settings_file.specs.Agent.{journals_from as told_journals, input_from as told_input, loads_from as told_loads, http_at_from as told_http_at, writes_from as told_writes, http_from as told_http, agent_from as told_agent, agent_or_key as told_agent_or_key, agent_or_key_in_bytes, positive_or_key as told_positive};
ghost use Rattle.cg_settings_file.specs.AgentSeen.{agent_view, http_view, loads_view};
ghost use Rattle.cg_settings_file.specs.Seen.{GivesOrStops, Names, Tells};

use crate::agent_keys::unknown_to_agents;
use crate::limits::{
    DEFAULT_INTERVAL, DEFAULT_JOURNAL_MB, DEFAULT_KEEP, DEFAULT_RECEIVERS, INTERVAL_LIMIT,
    LOAD_LIMIT, RECEIVER_LIMIT,
};
use crate::node::node_in;
use crate::settings::{random_in, text_in, unset};
use crate::stop::{Stop, Unset, without_key};
use crate::values::{endpoint_at, number_or_key, text_or_key, value_at};
use cg_core::Settings;
use cg_types::{Endpoint, Fault};
use std::alloc::{AllocError, Global};
use toml::{Table, Value};

/// The use that a node makes of standard input.
#[derive(Clone, Copy, Debug, PartialEq, Eq)]
pub enum AgentInput {
    /// It is not read.
    Ignore,
    /// Its end stops the node.
    Stop,
    /// An operator's lines; `quit` or the end stops the node.
    Lines,
}

/// The loads of a node that runs until it is stopped.
#[derive(Clone, Copy, Debug, PartialEq, Eq)]
pub struct Loads {
    /// Milliseconds between two rounds.
    pub interval: u32,
    /// The MiB of journal that a life writes.
    pub journal_mb: u32,
    /// The records that stay in memory.
    pub keep: u32,
    /// The threads that answer connections.
    pub receivers: u32,
}

/// The use that a node makes of HTTP.
#[derive(Clone, Copy, Debug)]
pub struct Http {
    /// The endpoint at which it is served, if at any.
    pub at: Option<Endpoint>,
    /// `true` if it may change keys and stop the node.
    pub writes: bool,
}

/// The settings of a node that runs until it is stopped.
#[derive(Debug, Drop)]
pub struct AgentSettings {
    /// Its cluster, its seeds, and its judgement of silence.
    pub node: Settings,
    /// Its own endpoint, at which it listens.
    pub listen: Endpoint,
    /// The path of the file that keeps its generation.
    pub generation_file: String,
    /// The folder of the journals, if any are kept.
    pub journals: Option<String>,
    /// Its loads.
    pub loads: Loads,
    /// The seed of its random words.
    pub random: u64,
    /// The use of standard input.
    pub input: AgentInput,
    /// The use of HTTP.
    pub http: Http,
}

// The whole number from 1 to `most` at a key, or the default if the key is missing; or the key.
fn positive_or_key<'k>(table: &Table, key: &'k str, most: u32, default: u32) -> Result<u32, &'k str>
    ensures { Names (λ n. n) result (told_positive key.now most default (table_view table.now)) }
{
    let number = number_or_key(table, key, most, Some(default))?;
    if number == 0 {
        return Err(key);
    }
    Ok(number)
}

#[tactic(auto, unfolding(crate::specs::Agent::loads_from))]
fn loads_in(table: &Table) -> Result<Loads, &'static str>
    ensures { Names loads_view result (told_loads (table_view table.now)) }
{
    let interval = number_or_key(table, "interval", INTERVAL_LIMIT, Some(DEFAULT_INTERVAL))?;
    let journal_mb = positive_or_key(table, "journal_mb", LOAD_LIMIT, DEFAULT_JOURNAL_MB)?;
    let keep = positive_or_key(table, "keep", LOAD_LIMIT, DEFAULT_KEEP)?;
    let receivers = positive_or_key(table, "receivers", RECEIVER_LIMIT, DEFAULT_RECEIVERS)?;
    Ok(Loads {
        interval,
        journal_mb,
        keep,
        receivers,
    })
}

// The folder of the journals, `None` if the key is missing; or the key.
#[tactic(auto, unfolding(crate::specs::Agent::journals_from))]
fn journals_in(table: &Table) -> Result<Option<&str>, &'static str>
    ensures { Names (option_map (λ t. t.now)) result (told_journals (table_view table.now)) }
{
    match value_at(table, "journals") {
        Some(_) => Ok(Some(text_or_key(table, "journals")?)),
        None => Ok(None),
    }
}

#[tactic(auto, unfolding(crate::specs::Agent::input_from))]
fn input_in(value: Option<&Value>) -> Option<AgentInput>
    ensures { result ≡ told_input (option_map (λ v. view v.now) value.entry) }
{
    let Some(value) = value else {
        return Some(AgentInput::Ignore);
    };
    match value.as_str() {
        Some("ignore") => Some(AgentInput::Ignore),
        Some("stop") => Some(AgentInput::Stop),
        Some("lines") => Some(AgentInput::Lines),
        _ => None,
    }
}

// The endpoint where HTTP is served, `None` if the key is missing; or the key.
#[tactic(auto, unfolding(crate::specs::Agent::http_at_from))]
fn http_at(table: &Table) -> Result<Option<Endpoint>, &'static str>
    ensures { Names (λ at. at) result (told_http_at (table_view table.now)) }
{
    if value_at(table, "http").is_none() {
        return Ok(None);
    }
    match endpoint_at(table, "http") {
        Some(at) => Ok(Some(at)),
        None => Err("http"),
    }
}

#[tactic(auto, unfolding(crate::specs::Agent::writes_from))]
fn writes_in(value: Option<&Value>) -> Option<bool>
    ensures { result ≡ told_writes (option_map (λ v. view v.now) value.entry) }
{
    match value {
        Some(value) => value.as_bool(),
        None => Some(false),
    }
}

#[tactic(auto, unfolding(crate::specs::Agent::http_from))]
fn http_in(table: &Table) -> Result<Http, &'static str>
    ensures { Names http_view result (told_http (table_view table.now)) }
{
    let at = http_at(table)?;
    let Some(writes) = writes_in(value_at(table, "http_writes")) else {
        return Err("http_writes");
    };
    Ok(Http { at, writes })
}

// Copies a text, if there is one.
fn owned(alloc: Global, text: Option<&str>) -> Result<Option<String>, AllocError>
    ensures { IfOk result (λ copy. option_map string_bytes copy ≡ option_map (λ t. t.now) text.entry) }
{
    match text {
        Some(text) => {
            let copy = String::from_str(alloc, text)?;
            Ok(Some(copy))
        }
        None => Ok(None),
    }
}

// Reads the settings of a table, or the first key that is refused: by its value, or else since it has no meaning.
#[tactic(auto, unfolding(crate::specs::Agent::agent_from))]
fn agent_in_table(alloc: Global, table: &Table) -> Result<AgentSettings, Stop<'_>>
    ensures { GivesOrStops agent_view result (told_agent (table_view table.now)) }
{
    let node = node_in(alloc, table)?;
    let Some(listen) = endpoint_at(table, "listen") else {
        return Err(Stop::Key("listen"));
    };
    let generation_file = text_or_key(table, "generation_file")?;
    let journals = journals_in(table)?;
    let loads = loads_in(table)?;
    let Some(random) = random_in(table) else {
        return Err(Stop::Key("random"));
    };
    let Some(input) = input_in(value_at(table, "stdin")) else {
        return Err(Stop::Key("stdin"));
    };
    let http = http_in(table)?;
    if let Some(key) = unknown_to_agents(table) {
        return Err(Stop::Key(key));
    }
    let Ok(generation_file) = String::from_str(alloc, generation_file) else {
        return Err(Stop::Memory);
    };
    let Ok(journals) = owned(alloc, journals) else {
        return Err(Stop::Memory);
    };
    Ok(AgentSettings {
        node,
        listen,
        generation_file,
        journals,
        loads,
        random,
        input,
        http,
    })
}

#[tactic(auto, unfolding(crate::specs::Agent::agent_or_key))]
fn agent_in_text(alloc: Global, text: &str) -> Result<AgentSettings, Unset>
    ensures { Tells agent_view result (told_agent_or_key text.now) }
{
    let table = match toml::table_from_str(alloc, text) {
        Ok(table) => table,
        Err(error) => {
            return Err(without_key(if error.is_memory() {
                Fault::OutOfMemory
            } else {
                Fault::BadText
            }));
        }
    };
    match agent_in_table(alloc, &table) {
        Ok(settings) => Ok(settings),
        Err(stop) => Err(unset(alloc, stop)),
    }
}

/// Reads the settings of a node that runs until it is stopped, in the bytes of a file, which are the text of a TOML
/// table.
///
/// `OutOfMemory` if memory runs out on the way. Else `BadText` if and only if the bytes are no UTF-8 or no TOML table, or
/// break one of these rules: no key that is needed is missing; each value is of its type and in its range; each key has
/// a meaning. Of a rule that is broken the key is told.
#[tactic(auto, unfolding(crate::specs::Agent::agent_or_key_in_bytes))]
pub fn agent_or_key(alloc: Global, bytes: &[u8]) -> Result<AgentSettings, Unset>
    ensures { Tells agent_view result (agent_or_key_in_bytes bytes.now) }
{
    match text_in(bytes) {
        Some(text) => agent_in_text(alloc, text),
        None => Err(without_key(Fault::BadText)),
    }
}
