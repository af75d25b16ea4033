//! The keys that the table of a node may have that runs until it is stopped.

ghost use Rattle.std.specs.Prelude.{◌≡◌, not, option_map, string_bytes};
ghost use Rattle.std.specs.List.{find};
ghost use Rattle.std.specs.BTreeMap.{keys};
ghost use Rattle.toml.specs.View.{table_view};
ghost use Rattle.cg_settings_file.specs.Agent.{is_load_key as names_load, is_http_key as names_http, is_agent_text_key as names_text, is_agent_key as names_agent, unknown_to_agents as unknown_key};

use crate::keys::is_silence_key;
use toml::Table;

#[tactic(auto, unfolding(crate::specs::Agent::is_agent_text_key))]
fn is_text_key(key: &str) -> bool
    ensures { result ≡ names_text key.now }
{
    key == "cluster"
        || key == "listen"
        || key == "generation_file"
        || key == "journals"
        || key == "seeds"
        || key == "stdin"
}

#[tactic(auto, unfolding(crate::specs::Agent::is_load_key))]
fn is_load_key(key: &str) -> bool
    ensures { result ≡ names_load key.now }
{
    key == "interval"
        || key == "random"
        || key == "journal_mb"
        || key == "keep"
        || key == "receivers"
}

#[tactic(auto, unfolding(crate::specs::Agent::is_http_key))]
fn is_http_key(key: &str) -> bool
    ensures { result ≡ names_http key.now }
{
    key == "http" || key == "http_writes"
}

#[tactic(auto, unfolding(crate::specs::Agent::is_agent_key))]
fn is_agent_key(key: &str) -> bool
    ensures { result ≡ names_agent key.now }
{
    is_text_key(key) || is_load_key(key) || is_http_key(key) || is_silence_key(key)
}

fn first_unknown(table: &Table) -> Option<&String>
    ensures { option_map (λ k. k.now) result ≡ find (λ k. not (names_agent (string_bytes k))) (keys table.now) }
{
    table.keys().find(|key| !is_agent_key(key.as_str()))
}

/// The first key of the table that has no meaning.
pub(crate) fn unknown_to_agents(table: &Table) -> Option<&str>
    ensures { option_map (λ k. k.now) result ≡ unknown_key (table_view table.now) }
{
    match first_unknown(table) {
        Some(key) => Some(key.as_str()),
        None => None,
    }
}
