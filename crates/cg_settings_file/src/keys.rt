//! The keys that a table may have.

ghost use Rattle.std.specs.Prelude.{◌≡◌, not, option_map, string_bytes};
ghost use Rattle.std.specs.List.{find};
ghost use Rattle.std.specs.BTreeMap.{keys};
ghost use Rattle.toml.specs.View.{table_view};
ghost use Rattle.cg_settings_file.specs.Keys as spec;

use toml::Table;

#[tactic(auto, unfolding(crate::specs::Keys::is_text_key))]
fn is_text_key(key: &str) -> bool
    ensures { result ≡ spec.is_text_key key.now }
{
    key == "cluster"
        || key == "listen"
        || key == "generation_file"
        || key == "journal"
        || key == "seeds"
}

#[tactic(auto, unfolding(crate::specs::Keys::is_turn_key))]
fn is_turn_key(key: &str) -> bool
    ensures { result ≡ spec.is_turn_key key.now }
{
    key == "rounds" || key == "exchanges" || key == "interval" || key == "random"
}

#[tactic(auto, unfolding(crate::specs::Keys::is_silence_key))]
pub(crate) fn is_silence_key(key: &str) -> bool
    ensures { result ≡ spec.is_silence_key key.now }
{
    key == "window" || key == "initial_gap" || key == "max_gap" || key == "threshold"
}

#[tactic(auto, unfolding(crate::specs::Keys::is_known))]
fn is_known(key: &str) -> bool
    ensures { result ≡ spec.is_known key.now }
{
    is_text_key(key) || is_turn_key(key) || is_silence_key(key)
}

fn first_unknown(table: &Table) -> Option<&String>
    ensures { option_map (λ k. k.now) result ≡ find (λ k. not (spec.is_known (string_bytes k))) (keys table.now) }
{
    table.keys().find(|key| !is_known(key.as_str()))
}

/// The first key of the table that has no meaning.
pub(crate) fn unknown_in(table: &Table) -> Option<&str>
    ensures { option_map (λ k. k.now) result ≡ spec.unknown_in (table_view table.now) }
{
    match first_unknown(table) {
        Some(key) => Some(key.as_str()),
        None => None,
    }
}
