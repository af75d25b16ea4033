//! Parts of a page: texts as they stand, texts of peers, numbers and endpoints.

ghost use Rattle.std.specs.Prelude.{◌≡◌, ◌++◌, OnOk, decimal};
ghost use Rattle.std.specs.List.{flat_map};
ghost use Rattle.cg_types.specs.EndpointText.{endpoint_text};
ghost use Rattle.cg_page.specs.Escaped as spec;

use cg_types::Endpoint;
use itoa::Buffer;
use std::alloc::{AllocError, Global};

/// Adds a text as it stands.
pub(crate) fn add(page: &mut Vec<u8>, text: &str) -> Result<(), AllocError>
    ensures { OnOk result (page.new.items ≡ page.old.items ++ text.now) }
{
    page.extend_from_slice(text.as_bytes())
}

// Adds a byte of a text, or its entity.
fn add_byte(page: &mut Vec<u8>, byte: u8) -> Result<(), AllocError>
    ensures { OnOk result (page.new.items ≡ page.old.items ++ spec.escaped_byte byte) }
{
    match byte {
        b'&' => add(page, "&amp;"),
        b'<' => add(page, "&lt;"),
        b'>' => add(page, "&gt;"),
        b'"' => add(page, "&quot;"),
        b'\'' => add(page, "&#39;"),
        _ => Ok(page.push(byte)?),
    }
}

/// Adds a text of a peer, escaped.
#[tactic(auto, unfolding(crate::specs::Escaped::escaped))]
pub(crate) fn add_escaped(page: &mut Vec<u8>, text: &str) -> Result<(), AllocError>
    ensures { OnOk result (page.new.items ≡ page.old.items ++ spec.escaped text.now) }
{
    for byte in text.as_bytes() {
        add_byte(page, *byte)?;
    }
    Ok(())
}

/// Adds a number.
pub(crate) fn add_number(page: &mut Vec<u8>, number: u64) -> Result<(), AllocError>
    ensures { OnOk result (page.new.items ≡ page.old.items ++ decimal number) }
{
    let mut buffer = Buffer::new();
    add(page, buffer.format(number))
}

/// Adds an endpoint.
pub(crate) fn add_endpoint(
    alloc: Global,
    page: &mut Vec<u8>,
    endpoint: Endpoint,
) -> Result<(), AllocError>
    ensures { OnOk result (page.new.items ≡ page.old.items ++ endpoint_text endpoint) }
{
    let mut text = String::new(alloc);
    endpoint.push_to(&mut text)?;
    add(page, text.as_str())
}
