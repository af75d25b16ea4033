//! Sample texts of settings, and their faults.

use cg_settings_file::settings_of;
use cg_types::Fault;
use std::alloc::{AllocError, Global};

/// The keys that are needed, and values for them.
pub(crate) const NEEDED: [(&str, &str); 6] = [
    ("cluster", "\"c1\""),
    ("listen", "\"127.0.0.1:7000\""),
    ("generation_file", "\"g\""),
    ("journal", "\"j\""),
    ("rounds", "0"),
    ("exchanges", "0"),
];

/// The keys that are needed, with this value for this key, which is left out if the value is empty.
pub(crate) fn text_with(alloc: Global, key: &str, value: &str) -> Result<String, AllocError> {
    let mut text = String::new(alloc);
    for (name, given) in NEEDED {
        if name != key {
            writeln!(text, "{name} = {given}")?;
        }
    }
    if !value.is_empty() {
        writeln!(text, "{key} = {value}")?;
    }
    Ok(text)
}

/// The fault by which the settings with this value for this key are refused, if they are.
pub(crate) fn fault_with(
    alloc: Global,
    key: &str,
    value: &str,
) -> Result<Option<Fault>, AllocError> {
    let text = text_with(alloc, key, value)?;
    Ok(settings_of(alloc, text.as_str()).err())
}
