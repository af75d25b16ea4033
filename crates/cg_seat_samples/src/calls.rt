//! Calls that the operators of tests make at a gate.

ghost use Rattle.std.specs.Prelude.{IfErr};
ghost use Rattle.cg_locked.specs.Seats.{GoesOn, IsOperatorFault};

use cg_core::{Event, Reply};
use cg_engine::Gate;
use cg_locked::{Name, SeatGate};
use cg_testing::key;
use cg_types::{Fault, StateText, Version};
use cg_views::Pass;
use std::alloc::Global;
use std::sync::Wait;

/// Sets key 3 to x.
pub fn set_three<N: Name, R: Wait>(
    alloc: Global,
    gate: &mut SeatGate<'_, N, R>,
) -> Result<(), Fault>
    ensures gate { GoesOn gate.old gate.new }
    ensures fault { IfErr result IsOperatorFault }
{
    let Ok(text) = StateText::new(alloc, "x") else {
        return Err(Fault::OutOfMemory);
    };
    match gate.event(alloc, Event::Set { key: key(3), text }) {
        Ok(()) => Ok(()),
        Err(_) => Err(Fault::OutOfMemory),
    }
}

/// Removes key 3, and returns the number of the fault by which it is refused, or 0 if it is not.
pub fn remove_three<N: Name, R: Wait>(alloc: Global, gate: &mut SeatGate<'_, N, R>) -> u8
    ensures { GoesOn gate.old gate.new }
{
    match gate.event(alloc, Event::Remove { key: key(3) }) {
        Ok(()) => 0,
        Err(fault) => fault.number(),
    }
}

/// Returns the version of the last reply.
pub fn last_version<N: Name, R: Wait>(gate: &SeatGate<'_, N, R>) -> Option<Version> {
    match gate.reply() {
        Some(Reply::Done(version)) => Some(*version),
        _ => None,
    }
}

/// Learns the `Told` of the last event, and returns `true` if there was one.
pub fn learn<N: Name, R: Wait>(gate: &mut SeatGate<'_, N, R>, pass: &mut Pass<N>) -> bool
    ensures { GoesOn gate.old gate.new }
{
    match gate.told() {
        Some(told) => {
            pass.learn(told);
            true
        }
        None => false,
    }
}

/// Reads the version of key 3, if its text is x.
pub fn read_three<N: Name>(pass: &mut Pass<N>) -> Result<Option<Version>, Fault>
    ensures { IfErr result IsOperatorFault }
{
    let shown = pass.read()?;
    Ok(match shown.table().own_entry().get(key(3)) {
        Some((text, version)) if text.as_str() == "x" => Some(version),
        _ => None,
    })
}

/// Reads the version of key 3, if it has a tombstone.
pub fn read_removed<N: Name>(pass: &mut Pass<N>) -> Result<Option<Version>, Fault>
    ensures { IfErr result IsOperatorFault }
{
    let shown = pass.read()?;
    Ok(match shown.table().own_entry().state(key(3)) {
        Some((None, version)) => Some(version),
        _ => None,
    })
}
