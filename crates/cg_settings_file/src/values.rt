//! The values at the keys of a table.

ghost use Rattle.std.specs.Prelude.{◌≡◌, Ok, Err, option_map};
ghost use Rattle.toml.specs.Data.{get_member};
ghost use Rattle.toml.specs.View.{table_view, view};
ghost use Rattle.cg_settings_file.specs.Values as spec;
ghost use Rattle.cg_settings_file.specs.Seen.{Names};

use cg_types::Endpoint;
use toml::{Table, Value};

/// The value at a key.
pub(crate) fn value_at<'a>(table: &'a Table, key: &str) -> Option<&'a Value>
    ensures { option_map (λ v. view v.now) result ≡ get_member key.now (table_view table.now) }
{
    table.get(key)
}

/// The text at a key.
#[tactic(auto, unfolding(crate::specs::Values::text_at))]
pub(crate) fn text_at<'a>(table: &'a Table, key: &str) -> Option<&'a str>
    ensures { option_map (λ t. t.now) result ≡ spec.text_at key.now (table_view table.now) }
{
    match value_at(table, key) {
        Some(value) => value.as_str(),
        None => None,
    }
}

/// The endpoint whose text a value is.
#[tactic(auto, unfolding(crate::specs::Values::endpoint_in_value))]
pub(crate) fn endpoint_in_value(value: &Value) -> Option<Endpoint>
    ensures { result ≡ spec.endpoint_in_value (view value.now) }
{
    match value.as_str() {
        Some(text) => Endpoint::from_bytes(text.as_bytes()),
        None => None,
    }
}

/// The endpoint at a key.
#[tactic(auto, unfolding(crate::specs::Values::endpoint_at))]
pub(crate) fn endpoint_at(table: &Table, key: &str) -> Option<Endpoint>
    ensures { result ≡ spec.endpoint_at key.now (table_view table.now) }
{
    match value_at(table, key) {
        Some(value) => endpoint_in_value(value),
        None => None,
    }
}

/// The whole number from 0 on that a value is.
#[tactic(auto, unfolding(crate::specs::Values::number_in))]
pub(crate) fn number_in(value: &Value) -> Option<u64>
    ensures { result ≡ spec.number_in (view value.now) }
{
    let number = value.as_integer()?;
    match u64::try_from(number) {
        Ok(number) => Some(number),
        Err(_) => None,
    }
}

// The whole number from 0 to `most` that a value is.
#[tactic(auto, unfolding(crate::specs::Values::small_number_in))]
fn small_number_in(value: &Value, most: u32) -> Option<u32>
    ensures { result ≡ spec.small_number_in most (view value.now) }
{
    let number = number_in(value)?;
    if number <= u64::from(most) {
        Some(number as u32)
    } else {
        None
    }
}

/// The whole number from 0 to `most` at a key; if the key is missing, the default, if there is one.
#[tactic(auto, unfolding(crate::specs::Values::number_at))]
fn number_at(table: &Table, key: &str, most: u32, default: Option<u32>) -> Option<u32>
    ensures { result ≡ spec.number_at key.now most default (table_view table.now) }
{
    match value_at(table, key) {
        Some(value) => small_number_in(value, most),
        None => default,
    }
}

/// The same number, or the key.
pub(crate) fn number_or_key<'k>(
    table: &Table,
    key: &'k str,
    most: u32,
    default: Option<u32>,
) -> Result<u32, &'k str>
    ensures { Names (λ n. n) result (spec.number_or_key key.now most default (table_view table.now)) }
{
    match number_at(table, key, most, default) {
        Some(number) => Ok(number),
        None => Err(key),
    }
}

/// The text at a key, or the key.
pub(crate) fn text_or_key<'a, 'k>(table: &'a Table, key: &'k str) -> Result<&'a str, &'k str>
    ensures { Names (λ t. t.now) result (spec.text_or_key key.now (table_view table.now)) }
{
    match text_at(table, key) {
        Some(text) => Ok(text),
        None => Err(key),
    }
}
