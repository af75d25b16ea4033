//! Changes of the node's keys, and their answers.

ghost use Rattle.std.specs.Prelude.{IfOk, string_bytes};
ghost use Rattle.cg_views.specs.Lists.{StartsWith};
ghost use Rattle.cg_operator.specs.Doing.{TellsChange};
ghost use Rattle.cg_web.specs.Changes.{fault_told, Changed, TellsEntered};

use cg_ahead_seats::AheadGate;
use cg_core::{Event, Reply};
use cg_engine::Gate;
use cg_locked::Name;
use cg_operator::add_unpublished;
use cg_text::add_version;
use cg_types::{Fault, Version};
use cg_views::{Pass, Told};
use std::alloc::{AllocError, Global};
use std::io::Write;
use std::sync::Wait;

// Returns the answer to a change, once the pass has learnt the `Told` of it.
fn change_text<N: Name>(
    alloc: Global,
    pass: &mut Pass<N>,
    told: Option<Told<N>>,
    version: Version,
) -> Result<String, AllocError>
    ensures later { StartsWith pass.new pass.old }
    ensures text { IfOk result (λ text. TellsChange version told pass.old pass.new (string_bytes text)) }
{
    let mut text = String::new(alloc);
    match told {
        Some(told) => {
            pass.learn(told);
            add_version(&mut text, version)?;
        }
        None => add_unpublished(&mut text, version)?,
    }
    Ok(text)
}

/// Changes a key by an event, a Set or a Remove, and returns the line of its version. From then on the pass reads no less
/// than the change.
///
/// `OutOfMemory` if memory ran out before the event or behind it, or if the journal could not be written.
pub fn change<N: Name, W: Write + Drop, R: Wait>(
    alloc: Global,
    gate: &mut AheadGate<'_, N, W, R>,
    pass: &mut Pass<N>,
    event: Event,
) -> Result<String, Fault>
    ensures changed { Changed N.start N.opening.own event (fault_told result) gate.old gate.new }
    ensures tells { IfOk result (λ text. TellsEntered N.start N.opening.own event
        gate.old pass.old (string_bytes text) gate.new pass.new) }
    ensures later { StartsWith pass.new pass.old }
{
    match gate.event(alloc, event) {
        Ok(()) => {}
        Err(fault) => return Err(fault),
    }
    let told = gate.told();
    let version = match gate.reply() {
        Some(Reply::Done(version)) => *version,
        _ => return Err(Fault::OutOfMemory),
    };
    match change_text(alloc, pass, told, version) {
        Ok(text) => Ok(text),
        Err(_) => Err(Fault::OutOfMemory),
    }
}
