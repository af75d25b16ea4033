//! Scripts of a cluster, played as text, and their actions alone.

use cg_links::Counted;
use cg_measure::Failure;
use cg_sim::{Line, read_line, settings_with, sim};
use cg_testing::endpoint;
use cg_world::{Action, World};
use std::alloc::{AllocError, Global};
use std::hint::black_box;

// A script, and the number of messages that it sends.
#[derive(Drop)]
struct Script {
    text: String,
    sent: u64,
}

// An exchange: four lines, three messages.
fn add_exchange(
    alloc: Global,
    script: &mut Script,
    opener: u16,
    answerer: u16,
) -> Result<(), AllocError> {
    let one = endpoint(opener);
    let other = endpoint(answerer);
    let syn = script.sent.wrapping_add(1);
    let ack = script.sent.wrapping_add(2);
    let ack2 = script.sent.wrapping_add(3);
    script.sent = ack2;
    let text = format!(in alloc;
        "open {one}\ndeliver {syn} {other} {ack2}000\ndeliver {ack} {one} {ack2}000\ndeliver {ack2} {other} {ack2}000\n"
    )?;
    Ok(script.text.push_str(&text)?)
}

// One line about a node.
fn add_line(
    alloc: Global,
    script: &mut Script,
    word: &str,
    number: u16,
    end: &str,
) -> Result<(), AllocError> {
    let node = endpoint(number);
    let line = format!(in alloc; "{word} {node}{end}\n")?;
    Ok(script.text.push_str(&line)?)
}

// A round: a beat, an exchange, and the digests of the answerer.
fn add_round(
    alloc: Global,
    script: &mut Script,
    opener: u16,
    answerer: u16,
) -> Result<(), AllocError> {
    add_line(alloc, script, "beat", opener, "")?;
    add_exchange(alloc, script, opener, answerer)?;
    add_line(alloc, script, "digests", answerer, "")
}

// Each node starts, and each but the first has two exchanges with the first, after which it holds all others.
fn add_beginning(alloc: Global, script: &mut Script, nodes: u16) -> Result<(), AllocError> {
    for number in 0..nodes {
        add_line(alloc, script, "start", number, " 5")?;
    }
    for _ in 0..2 {
        for number in 1..nodes {
            add_exchange(alloc, script, number, 0)?;
        }
    }
    Ok(())
}

// A number below the count, which goes round.
fn among(number: u32, count: u16) -> u16 {
    let rest = number.checked_rem(u32::from(count)).unwrap_or(0);
    u16::try_from(rest).unwrap_or(0)
}

/// A script of `nodes` nodes, and then `rounds` rounds: in each the next node opens, and the answerer is one of the
/// seven after it.
pub(crate) fn script_of(alloc: Global, nodes: u16, rounds: u32) -> Result<String, AllocError> {
    let mut script = Script {
        text: String::new(alloc),
        sent: 0,
    };
    add_beginning(alloc, &mut script, nodes)?;
    for round in 0..rounds {
        let step = 1 + round.wrapping_mul(31) % 7;
        let answerer = among(round.wrapping_add(step), nodes);
        add_round(alloc, &mut script, among(round, nodes), answerer)?;
    }
    Ok(script.text)
}

/// The text that a script prints.
pub(crate) fn played(alloc: Global, script: &str) -> Result<Vec<u8>, Failure> {
    let mut reader = Counted::new(script.as_bytes());
    let mut writer = Counted::new(Vec::new(alloc));
    if sim(alloc, &mut reader, &mut writer) != 0 {
        return Err(Failure::Lacking("a script that is played to its end"));
    }
    Ok(writer.into_link())
}

/// The actions of a script's lines.
pub(crate) fn actions_of(alloc: Global, script: &str) -> Result<Vec<Action>, Failure> {
    let mut actions = Vec::new(alloc);
    for line in script.lines() {
        if let Line::Act(action) = read_line(alloc, line.as_bytes())? {
            actions.push(action)?;
        }
    }
    Ok(actions)
}

fn new_world(alloc: Global) -> Result<World, Failure> {
    match settings_with(alloc, Vec::new(alloc))? {
        Some(settings) => Ok(World::new(alloc, settings)),
        None => Err(Failure::Lacking("settings of a script")),
    }
}

/// The world after these actions.
pub(crate) fn acted(alloc: Global, actions: &[Action]) -> Result<World, Failure> {
    let mut world = new_world(alloc)?;
    for action in actions {
        black_box(world.act(alloc, action)?);
    }
    Ok(world)
}
