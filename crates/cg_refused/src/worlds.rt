//! Actions on a world, one at a time and as a run.

use crate::answers::Answer;
use crate::samples::{action, world};
use crate::texts::add_world;
use crate::trials::{Outcome, Seen, Trial, compared, compared_or_kept, tried};
use cg_testing::settings;
use cg_types::Fault;
use cg_world::{Action, World, is_out_of_memory};
use std::alloc::Global;

// A world, and an action to be done on it.
#[derive(Drop)]
struct Acting {
    world: World,
    action: Action,
}

impl Trial for Acting {
    ghost parts = { λ _. 0 };

    fn call(&mut self, alloc: Global) -> Result<Answer, Fault> {
        match self.world.act(alloc, &self.action) {
            Ok(shown) => Ok(Answer::Acted(shown)),
            Err(fault) => Err(fault),
        }
    }

    fn show(&mut self, alloc: Global, text: &mut String) -> Result<(), Fault> {
        Ok(add_world(alloc, text, &self.world)?)
    }
}

fn seen_acting(alloc: Global, line: &str) -> Result<Seen, Fault> {
    let world = world(alloc)?;
    let action = action(alloc, line)?;
    tried(alloc, &mut Acting { world, action })
}

/// Does the action of a line on a world.
pub(crate) fn act(alloc: Global, line: &str) -> Result<Outcome, Fault> {
    let due = seen_acting(alloc, line)?.of_twin()?;
    compared(alloc, &due, seen_acting(alloc, line)?)
}

// The actions of a run. The third and the last are refused.
const RUN: [&str; 12] = [
    "start 10.0.0.1:7000 9",
    "start 10.0.0.2:7000 5",
    "start 10.0.0.1:7000 9",
    "set 10.0.0.1:7000 2 00000000000000000000000000000010",
    "open 10.0.0.1:7000",
    "deliver 1 10.0.0.2:7000 1000",
    "deliver 2 10.0.0.1:7000 1000",
    "deliver 3 10.0.0.2:7000 1000",
    "beat 10.0.0.1:7000",
    "tick 10.0.0.1:7000 2000 7 3 5 9",
    "deliver 4 10.0.0.2:7000 2000",
    "deliver 9 10.0.0.2:7000 2000",
];

// Actions to be run, and the world that they led to. A run that is cut short ends as at a refusal behind its actions.
#[derive(Drop)]
struct Running {
    actions: Vec<Action>,
    is_cut: bool,
    world: Option<World>,
    // the number of actions done before one that found no memory
    cut_at: Option<usize>,
}

impl Trial for Running {
    ghost parts = { λ _. 0 };

    fn call(&mut self, alloc: Global) -> Result<Answer, Fault> {
        let (world, mut answers) = World::run(alloc, settings(alloc)?, &self.actions)?;
        self.world = Some(world);
        if self.is_cut {
            answers.push(Err(Fault::OutOfMemory))?;
        }
        self.cut_at = match answers.split_last() {
            Some((last, before)) if is_out_of_memory(last) => Some(before.len()),
            _ => None,
        };
        Ok(Answer::Ran(answers))
    }

    fn show(&mut self, alloc: Global, text: &mut String) -> Result<(), Fault> {
        match &self.world {
            Some(world) => Ok(add_world(alloc, text, world)?),
            None => Ok(()),
        }
    }
}

// A run of the first actions.
fn first_actions(alloc: Global, count: usize, is_cut: bool) -> Result<Running, Fault> {
    let mut actions = Vec::new(alloc);
    for line in RUN.iter().take(count) {
        actions.push(action(alloc, line)?)?;
    }
    Ok(Running {
        actions,
        is_cut,
        world: None,
        cut_at: None,
    })
}

// What is seen of a run of the first actions, and how many were done before one that found no memory.
fn seen_running(alloc: Global, count: usize, is_cut: bool) -> Result<(Seen, Option<usize>), Fault> {
    let mut running = first_actions(alloc, count, is_cut)?;
    let seen = tried(alloc, &mut running)?;
    Ok((seen, running.cut_at))
}

// What is seen of a run whose memory is not refused.
fn due_of_run(alloc: Global) -> Result<Seen, Fault> {
    match seen_running(alloc, RUN.len(), false)? {
        (due, None) => due.of_twin(),
        (_, Some(_)) => Err(Fault::OutOfMemory),
    }
}

/// Runs actions from the empty world. A run that is cut short has done the actions before the refused one.
pub(crate) fn run(alloc: Global) -> Result<Outcome, Fault> {
    let due = due_of_run(alloc)?;
    let (seen, cut_at) = seen_running(alloc, RUN.len(), false)?;
    match cut_at {
        None => compared(alloc, &due, seen),
        Some(count) => {
            let (kept, _) = seen_running(alloc, count, true)?;
            compared_or_kept(alloc, &due, &kept, seen)
        }
    }
}
