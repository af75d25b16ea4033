//! Sample operators of nodes that run.

ghost use Rattle.std.specs.Prelude.{IfErr};
ghost use Rattle.cg_locked.specs.Seats.{GoesOn, IsOperatorFault};

use crate::nodes::Side;
use crate::waiting::is_raised;
use cg_locked::Name;
use cg_seat_samples::{last_version, learn, read_removed, read_three, remove_three, set_three};
use cg_threads::{Operate, SeatGate};
use cg_types::{Fault, Version};
use cg_views::Pass;
use std::alloc::Global;
use std::rt::Clock;
use std::sync::Wait;
use std::sync::atomic::Ordering;

// An operator that ends at once.
#[derive(Drop)]
pub(crate) struct Quits;

impl Operate for Quits {
    fn run<N: Name, R: Wait>(
        &mut self,
        _alloc: Global,
        _gate: &mut SeatGate<'_, N, R>,
        _pass: &mut Pass<N>,
    ) -> Result<(), Fault> {
        Ok(())
    }
}

// An operator that waits until a node's listener is asked for a connection, reads the published table, and reports the
// read.
#[derive(Drop)]
pub(crate) struct ReadsOnce<'a, C: Clock> {
    pub(crate) clock: &'a C,
    pub(crate) side: &'a Side,
}

impl<'a, C: Clock> Operate for ReadsOnce<'a, C> {
    fn run<N: Name, R: Wait>(
        &mut self,
        _alloc: Global,
        _gate: &mut SeatGate<'_, N, R>,
        pass: &mut Pass<N>,
    ) -> Result<(), Fault> {
        if is_raised(self.clock, &self.side.asked) && pass.read().is_ok() {
            self.side.read.store(true, Ordering::SeqCst);
        }
        Ok(())
    }
}

// An operator that ends by a fault.
#[derive(Drop)]
pub(crate) struct Fails;

impl Operate for Fails {
    fn run<N: Name, R: Wait>(
        &mut self,
        _alloc: Global,
        _gate: &mut SeatGate<'_, N, R>,
        _pass: &mut Pass<N>,
    ) -> Result<(), Fault> {
        Err(Fault::ReadFault)
    }
}

// Tests whether a change was told, and read at its version or a later one.
fn is_read(told: bool, changed: Option<Version>, read: Option<Version>) -> bool {
    match (changed, read) {
        (Some(version), Some(at)) => told && at >= version,
        _ => false,
    }
}

// Sets key 3, learns the `Told`, and tests whether it reads the text then.
fn sets_and_reads<N: Name, R: Wait>(
    alloc: Global,
    gate: &mut SeatGate<'_, N, R>,
    pass: &mut Pass<N>,
) -> Result<bool, Fault>
    ensures gate { GoesOn gate.old gate.new }
    ensures fault { IfErr result IsOperatorFault }
{
    set_three(alloc, gate)?;
    let version = last_version(gate);
    let told = learn(gate, pass);
    Ok(is_read(told, version, read_three(pass)?))
}

// Removes key 3, learns the `Told`, and tests whether it reads the tombstone then.
fn removes_and_reads<N: Name, R: Wait>(
    alloc: Global,
    gate: &mut SeatGate<'_, N, R>,
    pass: &mut Pass<N>,
) -> Result<bool, Fault>
    ensures gate { GoesOn gate.old gate.new }
    ensures fault { IfErr result IsOperatorFault }
{
    let fault = remove_three(alloc, gate);
    let version = last_version(gate);
    let told = learn(gate, pass);
    Ok(fault == 0 && is_read(told, version, read_removed(pass)?))
}

// An operator that sets key 3 and then removes it, and reports that it read both the text and the tombstone.
#[derive(Drop)]
pub(crate) struct ChangesAndReads<'a> {
    pub(crate) side: &'a Side,
}

impl<'a> Operate for ChangesAndReads<'a> {
    fn run<N: Name, R: Wait>(
        &mut self,
        alloc: Global,
        gate: &mut SeatGate<'_, N, R>,
        pass: &mut Pass<N>,
    ) -> Result<(), Fault> {
        let is_set = sets_and_reads(alloc, gate, pass)?;
        let is_removed = removes_and_reads(alloc, gate, pass)?;
        if is_set && is_removed {
            self.side.read.store(true, Ordering::SeqCst);
        }
        Ok(())
    }
}
