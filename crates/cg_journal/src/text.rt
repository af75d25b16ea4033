//! The first line of a journal, as text.

ghost use Rattle.std.specs.Prelude.{◌≡◌, ◌++◌, OnOk, IfOk, string_bytes};
ghost use Rattle.std.specs.List.{flat_map};
ghost use Rattle.cg_table.specs.Own.{own_entry};
ghost use Rattle.cg_journal.specs.Text.{silence_text, further_seed, seeds_text, settings_text, life_line};

use cg_core::{Node, Settings};
use cg_silence::Silence;
use cg_types::Endpoint;
use std::alloc::{AllocError, Global};
use std::fmt::Write;

#[tactic(auto, unfolding(crate::specs::Text::silence_text))]
fn add_silence(text: &mut String, silence: Silence) -> Result<(), AllocError>
    ensures { OnOk result (string_bytes text.new ≡ string_bytes text.old ++ silence_text silence) }
{
    let window = silence.window();
    let initial = silence.initial_gap();
    let greatest = silence.max_gap();
    let threshold = silence.threshold();
    write!(text, "{window} {initial} {greatest} {threshold}")
}

#[tactic(auto, unfolding(crate::specs::Text::further_seed))]
fn add_further_seed(text: &mut String, seed: Endpoint) -> Result<(), AllocError>
    ensures { OnOk result (string_bytes text.new ≡ string_bytes text.old ++ further_seed seed) }
{
    write!(text, ",{seed}")
}

fn add_further_seeds(text: &mut String, seeds: &[Endpoint]) -> Result<(), AllocError>
    ensures { OnOk result (string_bytes text.new ≡ string_bytes text.old ++ flat_map further_seed seeds.now) }
{
    for seed in seeds {
        add_further_seed(text, *seed)?;
    }
    Ok(())
}

fn add_seeds(text: &mut String, seeds: &[Endpoint]) -> Result<(), AllocError>
    ensures { OnOk result (string_bytes text.new ≡ string_bytes text.old ++ seeds_text seeds.now) }
{
    match seeds.split_first() {
        None => text.push_str("-"),
        Some((first, others)) => {
            let first = *first;
            write!(text, "{first}")?;
            add_further_seeds(text, others)
        }
    }
}

#[tactic(auto, unfolding(crate::specs::Text::settings_text))]
fn add_settings(text: &mut String, settings: &Settings) -> Result<(), AllocError>
    ensures { OnOk result (string_bytes text.new ≡ string_bytes text.old ++ settings_text settings.now) }
{
    add_silence(text, settings.silence())?;
    text.push_str(" ")?;
    add_seeds(text, settings.seeds())?;
    text.push_str(" ")?;
    text.push_str(settings.cluster().name())
}

// Returns the generation of a node's own entry.
fn generation(node: &Node) -> u32
    ensures { result ≡ (own_entry node.now.table).generation }
{
    node.table().own_entry().generation().get()
}

/// Writes the line of a life that began with a node.
#[tactic(auto, unfolding(crate::specs::Text::life_line))]
pub(crate) fn life_text(alloc: Global, node: &Node) -> Result<String, AllocError>
    ensures { IfOk result (λ text. string_bytes text ≡ life_line node.now) }
{
    let mut text = String::new(alloc);
    let own = node.table().own();
    let generation = generation(node);
    write!(text, "life {own} {generation} ")?;
    add_settings(&mut text, node.settings())?;
    text.push_str("\n")?;
    Ok(text)
}
