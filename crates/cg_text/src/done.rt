//! Texts of what nodes did.

ghost use Rattle.std.specs.Prelude.{◌≡◌, ◌++◌, OnOk, string_bytes};
ghost use Rattle.cg_text.specs.Printed.{started_line, version_line, message_line, round_line, outcome_line, outcome_lines, peer_word};
ghost use Rattle.std.specs.List.{flat_map};

use crate::parts::{add_number, add_peer};
use cg_messages::{Kind, Outcome};
use cg_types::{Endpoint, Generation, Version};
use std::alloc::AllocError;
use std::fmt::Write;

/// Adds `started 10.0.0.1:7000 9`: a node started in a generation.
#[tactic(auto, unfolding(crate::specs::Printed::started_line))]
pub fn add_started(
    text: &mut String,
    node: Endpoint,
    generation: Generation,
) -> Result<(), AllocError>
    ensures { OnOk result (string_bytes text.new ≡ string_bytes text.old ++ started_line node generation) }
{
    let generation = generation.get();
    writeln!(text, "started {node} {generation}")
}

/// Adds `version 2`: a change was given a version.
#[tactic(auto, unfolding(crate::specs::Printed::version_line))]
pub fn add_version(text: &mut String, version: Version) -> Result<(), AllocError>
    ensures { OnOk result (string_bytes text.new ≡ string_bytes text.old ++ version_line version) }
{
    text.push_str("version ")?;
    add_number(text, u64::from(version.get()))?;
    text.push_str("\n")
}

/// Adds `message 1 syn`: a message of a number and a kind was sent.
#[tactic(auto, unfolding(crate::specs::Printed::message_line))]
pub fn add_message(text: &mut String, number: u64, kind: Kind) -> Result<(), AllocError>
    ensures { OnOk result (string_bytes text.new ≡ string_bytes text.old ++ message_line number kind) }
{
    text.push_str("message ")?;
    add_number(text, number)?;
    text.push_str(" ")?;
    text.push_str(kind.name())?;
    text.push_str("\n")
}

fn add_peers(text: &mut String, peers: &[Endpoint]) -> Result<(), AllocError>
    ensures { OnOk result (string_bytes text.new ≡ string_bytes text.old ++ flat_map peer_word peers.now) }
{
    for peer in peers {
        add_peer(text, *peer)?;
    }
    Ok(())
}

/// Adds `round 10.0.0.2:7000 10.0.0.3:7000`: a round is for these peers.
#[tactic(auto, unfolding(crate::specs::Printed::round_line))]
pub fn add_round(text: &mut String, peers: &[Endpoint]) -> Result<(), AllocError>
    ensures { OnOk result (string_bytes text.new ≡ string_bytes text.old ++ round_line peers.now) }
{
    text.push_str("round")?;
    add_peers(text, peers)?;
    text.push('\n')
}

// Adds the outcome of the delta about an endpoint.
#[tactic(auto, unfolding(crate::specs::Printed::outcome_line, crate::specs::Printed::peer_word))]
fn add_outcome(text: &mut String, outcome: Outcome) -> Result<(), AllocError>
    ensures { OnOk result (string_bytes text.new ≡ string_bytes text.old ++ outcome_line outcome) }
{
    text.push_str(outcome.took.name())?;
    add_peer(text, outcome.endpoint)?;
    text.push_str("\n")
}

/// Adds a line for each delta of a message, as `took 10.0.0.1:7000`: `took`, `old`, `gap` or `own`, and the endpoint of
/// the delta.
pub fn add_outcomes(text: &mut String, outcomes: &[Outcome]) -> Result<(), AllocError>
    ensures { OnOk result (string_bytes text.new ≡ string_bytes text.old ++ outcome_lines outcomes.now) }
{
    for outcome in outcomes {
        add_outcome(text, *outcome)?;
    }
    Ok(())
}
