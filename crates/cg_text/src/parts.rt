//! Parts of lines, put into the text with no format string.

ghost use Rattle.std.specs.Prelude.{◌≡◌, ◌++◌, OnOk, string_bytes, decimal};
ghost use Rattle.cg_text.specs.Printed.{peer_word};

use cg_types::Endpoint;
use itoa::Buffer;
use std::alloc::AllocError;

/// Adds a number.
pub(crate) fn add_number(text: &mut String, number: u64) -> Result<(), AllocError>
    ensures { OnOk result (string_bytes text.new ≡ string_bytes text.old ++ decimal number) }
{
    let mut buffer = Buffer::new();
    text.push_str(buffer.format(number))
}

/// Adds a space and an endpoint.
#[tactic(auto, unfolding(crate::specs::Printed::peer_word))]
pub(crate) fn add_peer(text: &mut String, peer: Endpoint) -> Result<(), AllocError>
    ensures { OnOk result (string_bytes text.new ≡ string_bytes text.old ++ peer_word peer) }
{
    text.push_str(" ")?;
    peer.push_to(text)
}
