//! The items of a run of several nodes.

ghost use Rattle.std.specs.Prelude.{◌≡◌, ◌++◌, OnOk, string_bytes};
ghost use Rattle.cg_text.specs.Printed.{item_line, stuck_line};

use cg_types::{Endpoint, Generation};
use std::alloc::AllocError;
use std::fmt::Write;

/// Adds `10.0.0.1:7000 9 2`: the item of this number, of a node in a generation. The start is item 0, the records are
/// numbered from 1.
#[tactic(auto, unfolding(crate::specs::Printed::item_line))]
pub fn add_item(
    text: &mut String,
    node: Endpoint,
    generation: Generation,
    number: u64,
) -> Result<(), AllocError>
    ensures { OnOk result (string_bytes text.new ≡ string_bytes text.old ++ item_line node generation number) }
{
    let generation = generation.get();
    writeln!(text, "{node} {generation} {number}")
}

/// Adds `stuck 10.0.0.1:7000 9 2`: the item that a node is to do next, and can't.
#[tactic(auto, unfolding(crate::specs::Printed::stuck_line))]
pub fn add_stuck(
    text: &mut String,
    node: Endpoint,
    generation: Generation,
    number: u64,
) -> Result<(), AllocError>
    ensures { OnOk result (string_bytes text.new ≡ string_bytes text.old ++ stuck_line node generation number) }
{
    text.push_str("stuck ")?;
    add_item(text, node, generation, number)
}
