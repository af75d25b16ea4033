//! The part of a script that was read.

ghost use Rattle.std.specs.Prelude.{◌≡◌, ◌++◌, OnOk, IfOk, string_bytes};
ghost use Rattle.std.specs.FinMap as map;
ghost use Rattle.cg_types.specs.Fault.{fault_text};
ghost use Rattle.cg_world.specs.World as spec;
ghost use Rattle.cg_world.specs.Acting.{showing};
ghost use Rattle.cg_sim.specs.Script.{first_play, action_lines, view_lines, after_line, line_text, printed_of, world_after_line};

use crate::line::Line;
use crate::printing::{add_shown, add_view};
use crate::reading::read_line;
use crate::settings::settings_with;
use cg_text::View;
use cg_types::{Endpoint, Fault};
use cg_world::{Action, World};
use std::alloc::{AllocError, Global};

/// The world so far, and whether a line was read.
#[derive(Drop)]
pub(crate) struct Play {
    pub world: World,
    pub is_begun: bool,
}

// Adds the line of a fault.
fn add_fault(alloc: Global, text: &mut String, fault: Fault) -> Result<(), AllocError>
    ensures { OnOk result (string_bytes text.new ≡ string_bytes text.old ++ fault_text fault) }
{
    let line = fault.line(alloc)?;
    text.push_str(&line)
}

// Does an action, and adds the text that it prints.
fn act(
    alloc: Global,
    world: &mut World,
    text: &mut String,
    action: &Action,
) -> Result<(), AllocError>
    ensures text { OnOk result (string_bytes text.new
        ≡ string_bytes text.old ++ action_lines action.now (showing world.old action.now)) }
    ensures after { OnOk result (world.new ≡ spec.act world.old action.now) }
{
    match world.act(alloc, action) {
        Ok(shown) => add_shown(text, action, &shown),
        Err(Fault::OutOfMemory) => Err(AllocError),
        Err(fault) => add_fault(alloc, text, fault),
    }
}

// Adds the text of a view of a node.
fn show(
    alloc: Global,
    world: &World,
    text: &mut String,
    node: Endpoint,
    view: View,
) -> Result<(), AllocError>
    ensures { OnOk result (string_bytes text.new
        ≡ string_bytes text.old ++ view_lines (map.get world.now.nodes node) view) }
{
    match world.node(node) {
        Some(node) => add_view(alloc, text, node, view),
        None => add_fault(alloc, text, Fault::NoSuchNode),
    }
}

impl Play {
    /// Returns the play before any line was read.
    pub(crate) fn new(alloc: Global) -> Result<Play, AllocError>
        ensures { IfOk result (λ p. p ≡ first_play) }
    {
        let Some(settings) = settings_with(alloc, Vec::new(alloc))? else {
            return Err(AllocError);
        };
        Ok(Play {
            world: World::new(alloc, settings),
            is_begun: false,
        })
    }

    // Does a line's request, and adds the text that it prints.
    fn ask(&mut self, alloc: Global, text: &mut String, line: Line) -> Result<(), AllocError>
        ensures text { OnOk result (string_bytes text.new ≡ string_bytes text.old ++ printed_of self.old (Ok line)) }
        ensures world { OnOk result (self.new.world ≡ world_after_line self.old (Ok line)) }
        ensures begun { self.new.is_begun ≡ self.old.is_begun }
    {
        match line {
            Line::Seeds(settings) => {
                if self.is_begun {
                    return add_fault(alloc, text, Fault::BadText);
                }
                self.world = World::new(alloc, settings);
                Ok(())
            }
            Line::Act(action) => act(alloc, &mut self.world, text, &action),
            Line::Show(node, view) => show(alloc, &self.world, text, node, view),
        }
    }

    /// Does a line, and adds the text that it prints. `AllocError` if memory runs out.
    #[tactic(auto, unfolding(crate::specs::Script::line_text, crate::specs::Script::after_line))]
    pub(crate) fn line(
        &mut self,
        alloc: Global,
        text: &mut String,
        line: &[u8],
    ) -> Result<(), AllocError>
        ensures text { OnOk result (string_bytes text.new ≡ string_bytes text.old ++ line_text self.old line.now) }
        ensures after { OnOk result (self.new ≡ after_line self.old line.now) }
    {
        match read_line(alloc, line) {
            Ok(line) => self.ask(alloc, text, line)?,
            Err(Fault::OutOfMemory) => return Err(AllocError),
            Err(fault) => add_fault(alloc, text, fault)?,
        }
        self.is_begun = true;
        Ok(())
    }
}
