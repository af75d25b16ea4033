//! Members of an object of JSON: a name and a value.

ghost use Rattle.std.specs.Prelude.{◌≡◌, ◌++◌, ◌∷◌, [], OnOk, decimal};
ghost use Rattle.json.specs.Token.{key, string, number, null};
ghost use Rattle.cg_types.specs.EndpointText.{endpoint_text};

use cg_types::Endpoint;
use json::Writer;
use std::alloc::{AllocError, Global};

/// Adds a text.
pub(crate) fn add_text(writer: &mut Writer, name: &str, text: &str) -> Result<(), AllocError>
    ensures tokens { OnOk result (writer.new.tokens ≡ writer.old.tokens ++ (key name.now ∷ string text.now ∷ [])) }
    ensures before { OnOk result (writer.new.before ≡ writer.old.before) }
{
    writer.key(name)?;
    writer.string(text)
}

/// Adds a number.
pub(crate) fn add_number(writer: &mut Writer, name: &str, n: u64) -> Result<(), AllocError>
    ensures tokens { OnOk result (writer.new.tokens ≡ writer.old.tokens ++ (key name.now ∷ number (decimal n) ∷ [])) }
    ensures before { OnOk result (writer.new.before ≡ writer.old.before) }
{
    writer.key(name)?;
    writer.u64(n)
}

/// Adds an endpoint, as a text.
pub(crate) fn add_endpoint(
    alloc: Global,
    writer: &mut Writer,
    endpoint: Endpoint,
) -> Result<(), AllocError>
    ensures tokens { OnOk result (writer.new.tokens ≡ writer.old.tokens ++ (string (endpoint_text endpoint) ∷ [])) }
    ensures before { OnOk result (writer.new.before ≡ writer.old.before) }
{
    let mut text = String::new(alloc);
    endpoint.push_to(&mut text)?;
    writer.string(text.as_str())
}
