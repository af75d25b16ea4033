//! The nodes of a fleet, and what one of them does by itself.

ghost use Rattle.std.specs.Prelude.{◌≡◌, ◌≤◌, ◌∷◌, ◌++◌, Err, IfOk, OnOk, OnErr, [], length, replicate};
ghost use Rattle.cg_types.specs.declared.fault.Fault.TheVariants as faults;
ghost use Rattle.cg_fleet.specs.Moves.{EachDid, HasQuietRound, HasRound, fleet_of};
ghost use Rattle.cg_fleet.specs.Starting.{HaveJoined, Joins, Restarts, Steps, fleet_settings};

use crate::chance::Chance;
use crate::rounds::{quiet_round, round};
use crate::samples::{settings, started};
use crate::single::{restart_at, step_at};
use cg_core::{Event, Node, Reply, Settings};
use cg_testing::generation;
use cg_types::Fault;
use rand_core::Rng;
use std::alloc::{AllocError, Global};

/// The nodes of a cluster, each at the place of its endpoint's number, the bytes that each has sent, and the number of
/// rounds that they did.
#[derive(Drop)]
pub struct Fleet {
    settings: Settings,
    nodes: Vec<Node>,
    sent: Vec<u64>,
    rounds: u64,
}

// The same nodes, which share what they hold.
fn copies(alloc: Global, nodes: &[Node]) -> Result<Vec<Node>, AllocError>
    ensures { IfOk result (λ v. v.items ≡ nodes.now) }
{
    let mut copies = Vec::with_capacity(alloc, nodes.len())?;
    for node in nodes {
        copies.push(node.copy()?)?;
    }
    Ok(copies)
}

impl Fleet {
    /// Starts `count` nodes, each of which knows only itself and the seeds.
    pub fn start(alloc: Global, count: u16) -> Result<Fleet, Fault>
        ensures settings { IfOk result (λ f. f.settings ≡ fleet_settings) }
        ensures nodes { IfOk result (λ f. HaveJoined count fleet_settings f.nodes.items) }
    {
        let mut fleet = Fleet {
            settings: settings(alloc)?,
            nodes: Vec::new(alloc),
            sent: Vec::new(alloc),
            rounds: 0,
        };
        for _before in 0..count {
            fleet.join(alloc)?;
        }
        Ok(fleet)
    }

    /// The same fleet, which has sent nothing yet. It shares what the nodes hold.
    pub fn copy(&self, alloc: Global) -> Result<Fleet, AllocError>
        ensures settings { IfOk result (λ f. f.settings ≡ self.now.settings) }
        ensures nodes { IfOk result (λ f. f.nodes.items ≡ self.now.nodes.items) }
        ensures sent { IfOk result (λ f. f.sent.items ≡ replicate (length self.now.nodes.items) 0) }
        ensures rounds { IfOk result (λ f. f.rounds ≡ self.now.rounds) }
    {
        Ok(Fleet {
            settings: self.settings.copy(alloc)?,
            nodes: copies(alloc, &self.nodes)?,
            sent: vec![in alloc; 0; self.nodes.len()]?,
            rounds: self.rounds,
        })
    }

    /// The nodes, by their places.
    pub fn nodes(&self) -> &[Node]
        ensures { result.now ≡ self.now.nodes.items }
    {
        &self.nodes
    }

    /// The bytes that each node has sent, by their places.
    pub fn sent(&self) -> &[u64]
        ensures { result.now ≡ self.now.sent.items }
    {
        &self.sent
    }

    /// One more node starts, and sets all its keys. After a refusal there are the same nodes.
    pub fn join(&mut self, alloc: Global) -> Result<(), Fault>
        ensures joined { OnOk result (Joins self.old.settings self.old.nodes.items self.new.nodes.items) }
        ensures sent { OnOk result (self.new.sent.items ≡ self.old.sent.items ++ 0 ∷ []) }
        ensures settings { self.new.settings ≡ self.old.settings }
        ensures err { OnErr result (self.new.nodes.items ≡ self.old.nodes.items) }
    {
        let Ok(place) = u16::try_from(self.nodes.len()) else {
            return Err(Fault::TableFull);
        };
        let node = started(alloc, place, generation(1), &self.settings)?;
        self.sent.push(0)?;
        self.nodes.push(node)?;
        Ok(())
    }

    /// The node of a place starts in its next generation, and forgets what it held. `NoSuchNode` if there is no such node.
    /// After a refusal there are the same nodes.
    pub fn restart(&mut self, alloc: Global, place: u16) -> Result<(), Fault>
        ensures none { length self.old.nodes.items ≤ place → result ≡ Err faults.NoSuchNode }
        ensures restarted { OnOk result (Restarts self.old.settings place self.old.nodes.items self.new.nodes.items) }
        ensures settings { self.new.settings ≡ self.old.settings }
        ensures err { OnErr result (self.new.nodes.items ≡ self.old.nodes.items) }
    {
        if usize::from(place) >= self.nodes.len() {
            return Err(Fault::NoSuchNode);
        }
        restart_at(alloc, &mut self.nodes, place, &self.settings)
    }

    /// The node of a place takes the step of an event, and replies. `NoSuchNode` if there is no such node. After a refusal
    /// there are the same nodes.
    pub fn step(&mut self, alloc: Global, place: u16, event: &Event) -> Result<Reply, Fault>
        ensures none { length self.old.nodes.items ≤ place → result ≡ Err faults.NoSuchNode }
        ensures stepped { IfOk result (λ reply. Steps place event.now self.old.nodes.items reply self.new.nodes.items) }
        ensures settings { self.new.settings ≡ self.old.settings }
        ensures err { OnErr result (self.new.nodes.items ≡ self.old.nodes.items) }
    {
        let at = usize::from(place);
        if at >= self.nodes.len() {
            return Err(Fault::NoSuchNode);
        }
        step_at(alloc, &mut self.nodes, at, event)
    }

    /// Has each node do a round, one after the other: a tick, and an exchange with each peer that its words choose.
    ///
    /// What each node sent is counted. After a refusal the round stays where it was.
    pub fn round<G: Rng + Drop>(
        &mut self,
        alloc: Global,
        chance: &mut Chance<G>,
    ) -> Result<(), Fault>
        ensures rounds { OnOk result (EachDid HasRound (length self.old.nodes.items)
            (fleet_of self.old.nodes.items self.old.sent.items) (fleet_of self.new.nodes.items self.new.sent.items)) }
        ensures settings { self.new.settings ≡ self.old.settings }
    {
        round(alloc, chance, self.rounds, &mut self.nodes, &mut self.sent)?;
        self.rounds = self.rounds.saturating_add(1);
        Ok(())
    }

    /// Has each node do the exchanges of a round, one after the other, without its tick.
    pub fn quiet_round<G: Rng + Drop>(
        &mut self,
        alloc: Global,
        chance: &mut Chance<G>,
    ) -> Result<(), Fault>
        ensures rounds { OnOk result (EachDid HasQuietRound (length self.old.nodes.items)
            (fleet_of self.old.nodes.items self.old.sent.items) (fleet_of self.new.nodes.items self.new.sent.items)) }
        ensures settings { self.new.settings ≡ self.old.settings }
    {
        quiet_round(alloc, chance, self.rounds, &mut self.nodes, &mut self.sent)?;
        self.rounds = self.rounds.saturating_add(1);
        Ok(())
    }
}
