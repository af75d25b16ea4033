//! Sample operators at the one seat of a board.

ghost use Rattle.cg_locked.specs.Seats.{GoesOn};

use cg_core::Event;
use cg_engine::Gate;
use cg_history::Enter;
use cg_links::Counted;
use cg_locked::{Name, Operate, SeatGate};
use cg_messages::Syn;
use cg_operator::operate;
use cg_seat_samples::{last_version, learn, read_removed, read_three, remove_three, set_three};
use cg_testing::key;
use cg_types::{Cluster, Fault, StateText, Version};
use cg_views::Pass;
use std::alloc::Global;
use std::io::{Read, Write};
use std::sync::Wait;

// An event that another cluster's SYN makes.
fn syn_of_another_cluster(alloc: Global) -> Option<Event> {
    let cluster = Cluster::new(alloc, "c2").ok()?;
    let m = Syn::new(cluster, Vec::new(alloc))?;
    Some(Event::Syn { m })
}

// The number of the fault by which another cluster's SYN is refused, or 0 if it is not.
fn refuse<N: Name, R: Wait>(alloc: Global, gate: &mut SeatGate<'_, N, R>) -> u8
    ensures { GoesOn gate.old gate.new }
{
    let Some(event) = syn_of_another_cluster(alloc) else {
        return 0;
    };
    match gate.event(alloc, event) {
        Ok(()) => 0,
        Err(fault) => fault.number(),
    }
}

/// An operator that sets key 3, learns its `Told`, tries to learn it again, and reads.
#[derive(Drop)]
pub(crate) struct LearnsTwice {
    /// `true` if there was a `Told` at first, and then.
    pub(crate) told: (bool, bool),
    /// The version of key 3 that it read.
    pub(crate) version: Option<Version>,
}

impl Operate for LearnsTwice {
    fn run<N: Name, R: Wait>(
        &mut self,
        alloc: Global,
        gate: &mut SeatGate<'_, N, R>,
        pass: &mut Pass<N>,
    ) -> Result<(), Fault> {
        set_three(alloc, gate)?;
        let first = learn(gate, pass);
        let again = learn(gate, pass);
        self.told = (first, again);
        self.version = read_three(pass)?;
        Ok(())
    }
}

/// An operator that sets key 3, removes it, learns the `Told`, reads, and tries to remove it again.
#[derive(Drop)]
pub(crate) struct RemovesTwice {
    /// The numbers of the faults by which both removals were refused, 0 for none.
    pub(crate) faults: (u8, u8),
    /// `true` if there was a `Told` of the first one.
    pub(crate) told: bool,
    /// The version of the tombstone of key 3 that it read.
    pub(crate) version: Option<Version>,
    /// The number of receipts at the end, and the version of the last reply.
    pub(crate) left: (usize, Option<Version>),
}

impl Operate for RemovesTwice {
    fn run<N: Name, R: Wait>(
        &mut self,
        alloc: Global,
        gate: &mut SeatGate<'_, N, R>,
        pass: &mut Pass<N>,
    ) -> Result<(), Fault> {
        set_three(alloc, gate)?;
        let first = remove_three(alloc, gate);
        self.told = learn(gate, pass);
        self.version = read_removed(pass)?;
        let again = remove_three(alloc, gate);
        self.faults = (first, again);
        self.left = (gate.receipts().len(), last_version(gate));
        Ok(())
    }
}

/// An operator that sets key 3, is refused, and ends by a fault.
#[derive(Drop)]
pub(crate) struct IsRefused {
    /// The number of the fault by which it was refused.
    pub(crate) fault: u8,
    /// The number of receipts then, and the version of the last reply.
    pub(crate) left: (usize, Option<Version>),
    /// `true` if there was a `Told` then.
    pub(crate) told: bool,
}

impl Operate for IsRefused {
    fn run<N: Name, R: Wait>(
        &mut self,
        alloc: Global,
        gate: &mut SeatGate<'_, N, R>,
        pass: &mut Pass<N>,
    ) -> Result<(), Fault> {
        set_three(alloc, gate)?;
        self.fault = refuse(alloc, gate);
        self.left = (gate.receipts().len(), last_version(gate));
        self.told = learn(gate, pass);
        Err(Fault::WriteFault)
    }
}

// Enters an event through the trait that all events are entered through; returns the number of the fault by which it is
// refused, or 0 if it is not.
fn enter<N: Name, R: Wait>(alloc: Global, gate: &mut SeatGate<'_, N, R>, event: Event) -> u8
    ensures { GoesOn gate.old gate.new }
{
    match gate.enter(alloc, event) {
        Ok(()) => 0,
        Err(fault) => fault.number(),
    }
}

// The number of the last receipt, or 0 if there is none.
fn last_number<E: Enter>(entering: &E) -> u64 {
    match entering.last() {
        Some(receipt) => receipt.number,
        None => 0,
    }
}

/// An operator that enters a Set of key 3, and is then refused.
#[derive(Drop)]
pub(crate) struct Enters {
    /// The number of the last receipt at first, after the Set, and after the refusal.
    pub(crate) last: [u64; 3],
    /// The numbers of the faults by which both were refused, 0 for none.
    pub(crate) faults: (u8, u8),
}

impl Operate for Enters {
    fn run<N: Name, R: Wait>(
        &mut self,
        alloc: Global,
        gate: &mut SeatGate<'_, N, R>,
        _pass: &mut Pass<N>,
    ) -> Result<(), Fault> {
        let Ok(text) = StateText::new(alloc, "x") else {
            return Err(Fault::OutOfMemory);
        };
        let Some(refused) = syn_of_another_cluster(alloc) else {
            return Err(Fault::OutOfMemory);
        };
        let first = last_number(gate);
        let set = enter(alloc, gate, Event::Set { key: key(3), text });
        let second = last_number(gate);
        let syn = enter(alloc, gate, refused);
        self.last = [first, second, last_number(gate)];
        self.faults = (set, syn);
        Ok(())
    }
}

/// An operator that does the lines of a reader, and writes the texts that they show.
#[derive(Drop)]
pub(crate) struct DoesLines<I, O> {
    pub(crate) reader: Counted<I>,
    pub(crate) writer: Counted<O>,
}

impl<I: Read, O: Write> Operate for DoesLines<I, O> {
    fn run<N: Name, R: Wait>(
        &mut self,
        alloc: Global,
        gate: &mut SeatGate<'_, N, R>,
        pass: &mut Pass<N>,
    ) -> Result<(), Fault> {
        operate(alloc, &mut self.reader, &mut self.writer, gate, pass)
    }
}
