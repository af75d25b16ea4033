//! Three starts, done by `World::run`. From outside it is counted how often a refused request for memory loses the world.

use cg_measure::Failure;
use cg_testing::{endpoint, generation, settings};
use cg_types::Fault;
use cg_world::{Action, Shown, World};
use std::alloc::Global;

fn start(number: u16) -> Action {
    Action::Start(endpoint(number), generation(5))
}

// The number of nodes, of three, that run.
fn running(world: &World) -> u8 {
    let mut count: u8 = 0;
    for number in 1..=3u16 {
        if world.node(endpoint(number)).is_some() {
            count = count.wrapping_add(1);
        }
    }
    count
}

// The world to which three starts lead, with their answers. Settings are made a second time if memory is refused to them.
fn run(alloc: Global) -> Result<(World, Vec<Result<Shown, Fault>>), Fault> {
    let set_to = match settings(alloc) {
        Ok(made) => made,
        Err(_) => settings(alloc)?,
    };
    World::run(alloc, set_to, &[start(1), start(2), start(3)])
}

/// Prints how many nodes run after three starts, or that there is no world.
pub(crate) fn print_run(rt: &impl Print, alloc: Global) -> Result<(), Failure> {
    match run(alloc) {
        Ok((world, _answers)) => println!(rt; "{} nodes", running(&world))?,
        Err(_) => println!(rt; "no world")?,
    }
    Ok(())
}
