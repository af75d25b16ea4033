//! All nodes of a cluster, as a list of actions leaves them.

ghost use Rattle.std.specs.Prelude.{◌≡◌, ◌≤◌, IsOk, IfOk, IfErr, OnOk, OnErr, [], length, vec_capacity, option_copied};
ghost use Rattle.std.specs.FinMap as map;
ghost use Rattle.cg_types.specs.declared.fault.Fault.TheVariants as faults;
ghost use Rattle.cg_types.specs.Answer.{Answers};
ghost use Rattle.cg_entry.specs.History.{at_place};
ghost use Rattle.cg_world.specs.Acting.{showing, found_no_memory, done_of, Ran};
ghost use Rattle.cg_world.specs.World as spec;
ghost use Rattle.cg_world.specs.World.{new_world};
ghost use Rattle.cg_world.specs.Headline.{Headline};
ghost use Rattle.cg_world.specs.Consistent.{IsConsistent, IsConsistentWorld};

use crate::action::Action;
use crate::nodes::Nodes;
use cg_core::{Node, Reply, Settings};
use cg_messages::Message;
use cg_types::{Endpoint, Fault};
use std::alloc::{AllocError, Global};
use std::marker::Model;

/// The outcome of an action that is done: its reply, and the number of the message that was sent.
#[derive(Debug, Drop, PartialEq, Eq)]
pub struct Shown {
    /// The reply of the node that made a step; `None` for a start.
    pub reply: Option<Reply>,
    /// The number of the message that was sent, if one was; they are numbered from 1.
    pub sent: Option<u64>,
}

impl Shown {
    /// Returns the same outcome, which shares its texts.
    pub fn copy(&self, alloc: Global) -> Result<Shown, AllocError>
        ensures { IfOk result (λ s. s ≡ self.now) }
    {
        let reply = match &self.reply {
            Some(reply) => Some(reply.copy(alloc)?),
            None => None,
        };
        Ok(Shown {
            reply,
            sent: self.sent,
        })
    }
}

/// The nodes that run and all messages that were ever sent, as some list of actions leaves them. So the laws of every
/// list of actions (`laws`) hold of it.
#[derive(Drop)]
pub struct World {
    nodes: Nodes,
}

impl Model for World {
    ghost use Rattle.cg_world.specs.World.{WorldValue, world_code};
    ghost use Rattle.cg_world.specs.WorldLaws.{IsReached};

    ghost Value = { WorldValue };

    ghost coded = { world_code };

    ghost view = { λ w. w.nodes };

    ghost invariant = { λ w. IsReached w.nodes };
}

/// Returns `true` if an action found no memory.
pub fn is_out_of_memory(answer: &Result<Shown, Fault>) -> bool
    ensures { result ≡ found_no_memory answer.now }
{
    matches!(answer, Err(Fault::OutOfMemory))
}

impl World {
    /// Makes a world in which no node runs and nothing was sent. All nodes will have `settings`. It takes no memory.
    pub fn new(alloc: Global, settings: Settings) -> World
        ensures { result ≡ new_world settings }
    {
        World {
            nodes: Nodes::new(alloc, settings),
        }
    }

    /// The settings of all nodes.
    pub fn settings(&self) -> &Settings
        ensures { result.now ≡ self.now.settings }
    {
        self.nodes.settings()
    }

    /// The node of an endpoint, if it runs.
    pub fn node(&self, endpoint: Endpoint) -> Option<&Node>
        ensures value { option_copied result ≡ map.get self.now.nodes endpoint }
        // the headline holds of each list of actions that leads here, and the nodes hold what their places say
        ensures consistent { IsConsistentWorld self.now }
    {
        self.nodes.node(endpoint)
    }

    /// The message of a number, if one was sent; they are numbered from 1.
    pub fn message(&self, number: u64) -> Option<&Message>
        ensures { option_copied result ≡ at_place self.now.sent number }
    {
        self.nodes.message(number)
    }

    /// The number of messages sent, which is the number of the last one.
    pub fn message_count(&self) -> u64
        ensures { result ≡ length self.now.sent }
    {
        self.nodes.message_count()
    }

    /// The endpoints of the nodes that run, rising.
    pub fn endpoints(&self, alloc: Global) -> Result<Vec<Endpoint>, AllocError>
        ensures { IfOk result (λ endpoints. endpoints.items ≡ map.keys self.now.nodes) }
    {
        self.nodes.endpoints(alloc)
    }

    /// Does an action, and returns its outcome. A refused action changes nothing.
    ///
    /// `NotRising` for a start in a generation that is not greater than that of the endpoint's last start. `TableFull`
    /// if a start would make one endpoint more than `MEMBER_LIMIT`. `NoSuchMessage`, and then `NoSuchNode`, for a
    /// delivery of a message that was not sent, or to an endpoint that runs no node. `NoSuchNode` for a local event of
    /// an endpoint that runs no node, and then `NoSuchKey` for a removal if the key has no text. `VersionsSpent` for a
    /// beat, a set, a removal or a tick if the node's versions are spent. A delivery has no other refusal
    /// (`laws::deliveries_find_room`). Else at most `OutOfMemory`.
    pub fn act(&mut self, alloc: Global, action: &Action) -> Result<Shown, Fault>
        ensures shown { Answers (λ s. s) (showing self.old action.now) result }
        ensures done { OnOk result (self.new ≡ spec.act self.old action.now) }
        ensures err { OnErr result (self.new ≡ self.old) }
        // the headline holds of each list of actions that leads here, and the nodes hold what their places say
        ensures consistent { IsConsistentWorld self.new }
    {
        self.nodes.act(alloc, action)
    }

    /// Does actions from the empty world, up to the first that finds no memory, and returns the world and the answers.
    /// An answer is the action's outcome, or the fault with which it is refused, and then the run goes on. An action
    /// that finds no memory ends the run: its `OutOfMemory` is the last answer, and the world is the one before it,
    /// after the actions that were done.
    ///
    /// `OutOfMemory` comes in place of a world only if the list of answers could not be made, before the first action:
    /// the rest is `run_in`, which can't fail.
    pub fn run(
        alloc: Global,
        settings: Settings,
        actions: &[Action],
    ) -> Result<(World, Vec<Result<Shown, Fault>>), Fault>
        ensures ran { IfOk result (λ x. Ran (new_world settings) actions.now x.1.items x.0) }
        // the headline holds of the actions before the first that finds no memory
        ensures headline { IfOk result (λ x. Headline settings (done_of actions.now x.1.items) x.0) }
        // their places say what the nodes hold
        ensures consistent { IfOk result (λ x. IsConsistent settings (done_of actions.now x.1.items) x.0) }
        // both hold of each list of actions that leads to this world
        ensures world { IfOk result (λ x. IsConsistentWorld x.0) }
        ensures err { IfErr result (λ f. f ≡ faults.OutOfMemory) }
        // no room is needed for no answers
        ensures empty { actions.now ≡ [] → IsOk result }
    {
        let room = Vec::with_capacity(alloc, actions.len())?;
        Ok(World::run_in(alloc, settings, actions, room))
    }

    /// Runs actions as `run` does, into a list of answers that the caller made. The list has room for one answer for
    /// each action, and its members are dropped. It always returns a world.
    pub fn run_in(
        alloc: Global,
        settings: Settings,
        actions: &[Action],
        mut answers: Vec<Result<Shown, Fault>>,
    ) -> (World, Vec<Result<Shown, Fault>>)
        requires { length actions.now ≤ vec_capacity answers }
        ensures ran { Ran (new_world settings) actions.now result.1.items result.0 }
        ensures headline { Headline settings (done_of actions.now result.1.items) result.0 }
        ensures consistent { IsConsistent settings (done_of actions.now result.1.items) result.0 }
        ensures world { IsConsistentWorld result.0 }
    {
        let mut world = World::new(alloc, settings);
        answers.clear();
        for action in actions {
            let answer = world.act(alloc, action);
            let ends = is_out_of_memory(&answer);
            answers.push_reserved(answer);
            if ends {
                return (world, answers);
            }
        }
        (world, answers)
    }
}
