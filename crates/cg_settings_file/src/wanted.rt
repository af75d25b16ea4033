//! The values that an agent's settings want, as texts for a person.

ghost use Rattle.std.specs.Prelude.{◌≡◌, is_some};
ghost use Rattle.cg_settings_file.specs.Agent.{is_load_key as names_load, is_http_key as names_http, is_agent_text_key as names_text, is_agent_key as names_agent};
ghost use Rattle.cg_settings_file.specs.Keys as spec;

// What a key with a text wants.
#[tactic(auto, unfolding(crate::specs::Agent::is_agent_text_key))]
fn text_wanted(key: &str) -> Option<&'static str>
    ensures { is_some result ≡ names_text key.now }
{
    match key {
        "cluster" => Some("a name of 1 to 48 bytes"),
        "listen" => Some("an endpoint as 10.0.0.1:7000"),
        "generation_file" => Some("the path of a file of its own"),
        "journals" => Some("the path of a folder"),
        "seeds" => Some("up to 16 endpoints in an array"),
        "stdin" => Some("\"ignore\", \"stop\" or \"lines\""),
        _ => None,
    }
}

// What a key of a load, or of the random words, wants.
#[tactic(auto, unfolding(crate::specs::Agent::is_load_key))]
fn load_wanted(key: &str) -> Option<&'static str>
    ensures { is_some result ≡ names_load key.now }
{
    match key {
        "interval" => Some("0 to 60000"),
        "random" => Some("a whole number from 0 on"),
        "journal_mb" => Some("1 to 1000000"),
        "keep" => Some("1 to 1000000"),
        "receivers" => Some("1 to 8"),
        _ => None,
    }
}

// What a key of HTTP wants.
#[tactic(auto, unfolding(crate::specs::Agent::is_http_key))]
fn http_wanted(key: &str) -> Option<&'static str>
    ensures { is_some result ≡ names_http key.now }
{
    match key {
        "http" => Some("an endpoint as 127.0.0.1:8000"),
        "http_writes" => Some("true or false"),
        _ => None,
    }
}

// What a key of silence wants.
#[tactic(auto, unfolding(crate::specs::Keys::is_silence_key))]
fn silence_wanted(key: &str) -> Option<&'static str>
    ensures { is_some result ≡ spec.is_silence_key key.now }
{
    match key {
        "window" => Some("1 to 1000"),
        "initial_gap" => Some("1 to 86400000, and at most max_gap"),
        "max_gap" => Some("1 to 86400000, and at least initial_gap"),
        "threshold" => Some("1 to 1000000000"),
        _ => None,
    }
}

/// Returns the values that an agent's settings want at a key; `None` if it has no meaning there.
#[tactic(auto, unfolding(crate::specs::Agent::is_agent_key))]
pub fn wanted_by_agents(key: &str) -> Option<&'static str>
    ensures { is_some result ≡ names_agent key.now }
{
    match (text_wanted(key), load_wanted(key), http_wanted(key)) {
        (Some(wanted), _, _) => Some(wanted),
        (None, Some(wanted), _) => Some(wanted),
        (None, None, Some(wanted)) => Some(wanted),
        (None, None, None) => silence_wanted(key),
    }
}
