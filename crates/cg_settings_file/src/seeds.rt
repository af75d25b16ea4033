//! The seeds that an array lists.

ghost use Rattle.std.specs.Prelude.{◌≡◌, IfOk, option_map};
ghost use Rattle.toml.specs.View.{array_view, table_view};
ghost use Rattle.cg_settings_file.specs.Seeds as spec;

use crate::values::endpoint_in_value;
use cg_types::Endpoint;
use std::alloc::{AllocError, Global};
use std::collections::BTreeSet;
use toml::value::Array;

/// Reads the endpoints whose texts the items are, if each item is one.
pub(crate) fn endpoints_in(
    alloc: Global,
    items: &Array,
) -> Result<Option<Vec<Endpoint>>, AllocError>
    ensures { IfOk result (λ found. option_map (λ v. v.items) found ≡ spec.endpoints_in (array_view items.now)) }
{
    let mut endpoints = Vec::new(alloc);
    for item in items {
        let Some(endpoint) = endpoint_in_value(item) else {
            return Ok(None);
        };
        endpoints.push(endpoint)?;
    }
    Ok(Some(endpoints))
}

/// Returns the same endpoints, rising, each once.
#[tactic(auto, unfolding(crate::specs::Seeds::distinct))]
pub(crate) fn distinct(alloc: Global, endpoints: &[Endpoint]) -> Result<Vec<Endpoint>, AllocError>
    ensures { IfOk result (λ seeds. seeds.items ≡ spec.distinct endpoints.now) }
{
    let mut seeds = BTreeSet::new(alloc);
    for endpoint in endpoints {
        seeds.insert(*endpoint)?;
    }
    seeds.into_iter().collect(alloc)
}
