//! Nodes of a cluster and the messages that they sent, changed one action at a time.

ghost use Rattle.std.specs.Prelude.{◌≡◌, ◌+◌, IfOk, OnOk, OnErr, length, option_copied};
ghost use Rattle.std.specs.Option.{option_map};
ghost use Rattle.std.specs.FinMap as map;
ghost use Rattle.cg_types.specs.Answer.{Answers};
ghost use Rattle.cg_entry.specs.History.{at_place};
ghost use Rattle.cg_world.specs.Acting.{showing};
ghost use Rattle.cg_world.specs.World as spec;
ghost use Rattle.cg_world.specs.World.{Start, Local, Deliver, new_world, with_node, with_sent, generation_held};

use crate::action::{Action, LocalEvent};
use crate::world::Shown;
use cg_core::{BorrowedEvent, Node, Reply, Settings};
use cg_messages::Message;
use cg_types::{Endpoint, Fault, Generation, MEMBER_LIMIT, SharedMap};
use std::alloc::{AllocError, Global};
use std::marker::Model;

/// The nodes that run and the messages that were sent, of which nothing more is known.
#[derive(Drop)]
pub(crate) struct Nodes {
    settings: Settings,
    nodes: SharedMap<Node>,
    sent: Vec<Message>,
}

impl Model for Nodes {
    ghost use Rattle.cg_world.specs.World.{WorldValue, world_code};

    ghost Value = { WorldValue };

    ghost coded = { world_code };

    ghost view = { λ c. record { settings = c.settings; nodes = c.nodes; sent = c.sent.items } };
}

// The message that a reply sends, if it sends one.
fn message_of(alloc: Global, reply: &Reply) -> Result<Option<Message>, AllocError>
    ensures { IfOk result (λ m. m ≡ spec.message_of reply.now) }
{
    match reply.message() {
        Some(message) => Ok(Some(message.copy(alloc)?)),
        None => Ok(None),
    }
}

impl Nodes {
    /// Makes a cluster in which no node runs and nothing was sent. It takes no memory.
    pub(crate) fn new(alloc: Global, settings: Settings) -> Nodes
        ensures { result ≡ new_world settings }
    {
        Nodes {
            settings,
            nodes: SharedMap::new(alloc),
            sent: Vec::new(alloc),
        }
    }

    /// The settings of all nodes.
    pub(crate) fn settings(&self) -> &Settings
        ensures { result.now ≡ self.now.settings }
    {
        &self.settings
    }

    /// The node of an endpoint, if it runs.
    pub(crate) fn node(&self, endpoint: Endpoint) -> Option<&Node>
        ensures { option_copied result ≡ map.get self.now.nodes endpoint }
    {
        self.nodes.get(endpoint)
    }

    /// The message of a number, if one was sent.
    pub(crate) fn message(&self, number: u64) -> Option<&Message>
        ensures { option_copied result ≡ at_place self.now.sent number }
    {
        let place = number.checked_sub(1)?;
        self.sent.get(place as usize)
    }

    /// The number of messages sent.
    pub(crate) fn message_count(&self) -> u64
        ensures { result ≡ length self.now.sent }
    {
        self.sent.len() as u64
    }

    /// The endpoints of the nodes that run, rising.
    pub(crate) fn endpoints(&self, alloc: Global) -> Result<Vec<Endpoint>, AllocError>
        ensures { IfOk result (λ endpoints. endpoints.items ≡ map.keys self.now.nodes) }
    {
        let rows = self.nodes.rows();
        let mut endpoints = Vec::with_capacity(alloc, rows.len())?;
        for row in rows {
            endpoints.push(row.endpoint())?;
        }
        Ok(endpoints)
    }

    // The generation in which an endpoint started last, and 0 if it never did.
    fn generation_held(&self, endpoint: Endpoint) -> u32
        ensures { result ≡ generation_held (map.get self.now.nodes endpoint) }
    {
        match self.node(endpoint) {
            Some(node) => node.table().own_entry().generation().get(),
            None => 0,
        }
    }

    // Returns `true` if the node runs, or there may be one more.
    fn has_room(&self, endpoint: Endpoint) -> bool
        ensures { result ≡ spec.has_room self.now endpoint }
    {
        match self.node(endpoint) {
            Some(_) => true,
            None => self.nodes.rows().len() < MEMBER_LIMIT,
        }
    }

    // Starts a node, anew or for the first time.
    fn start(
        &mut self,
        alloc: Global,
        endpoint: Endpoint,
        generation: Generation,
    ) -> Result<Shown, Fault>
        ensures shown { Answers (λ s. s) (showing self.old (Start endpoint generation)) result }
        ensures done { OnOk result (self.new ≡ spec.act self.old (Start endpoint generation)) }
        ensures err { OnErr result (self.new ≡ self.old) }
    {
        if generation.get() <= self.generation_held(endpoint) {
            return Err(Fault::NotRising);
        }
        if !self.has_room(endpoint) {
            return Err(Fault::TableFull);
        }
        let settings = self.settings.copy(alloc)?;
        let node = Node::start(alloc, endpoint, generation, settings)?;
        self.nodes = self.nodes.put(alloc, endpoint, node)?;
        Ok(Shown {
            reply: None,
            sent: None,
        })
    }

    // Keeps the message that a reply sends, if any, and returns its number.
    fn send(&mut self, alloc: Global, reply: &Reply) -> Result<Option<u64>, AllocError>
        ensures ok { IfOk result (λ number. (self.new ≡ with_sent self.old (spec.message_of reply.now))
            × (number ≡ option_map (λ m. length self.old.sent + 1) (spec.message_of reply.now))) }
        ensures err { OnErr result (self.new ≡ self.old) }
    {
        match message_of(alloc, reply)? {
            None => Ok(None),
            Some(message) => {
                self.sent.push(message)?;
                Ok(Some(self.sent.len() as u64))
            }
        }
    }

    // Takes in a node's step that is done: the node is now this one, and the message of its reply is sent.
    fn done(
        &mut self,
        alloc: Global,
        endpoint: Endpoint,
        after: Node,
        reply: Reply,
    ) -> Result<Shown, AllocError>
        ensures ok { IfOk result (λ shown.
            (self.new ≡ with_sent (with_node self.old endpoint after) (spec.message_of reply))
            × (shown ≡ record {
              reply = Some reply;
              sent = option_map (λ m. length self.old.sent + 1) (spec.message_of reply);
            })) }
        ensures err { OnErr result (self.new ≡ self.old) }
    {
        let nodes = self.nodes.put(alloc, endpoint, after)?;
        let sent = self.send(alloc, &reply)?;
        self.nodes = nodes;
        Ok(Shown {
            reply: Some(reply),
            sent,
        })
    }

    // Has a node do something by itself.
    fn local(
        &mut self,
        alloc: Global,
        endpoint: Endpoint,
        event: &LocalEvent,
    ) -> Result<Shown, Fault>
        ensures shown { Answers (λ s. s) (showing self.old (Local endpoint event.now)) result }
        ensures done { OnOk result (self.new ≡ spec.act self.old (Local endpoint event.now)) }
        ensures err { OnErr result (self.new ≡ self.old) }
    {
        let Some(node) = self.node(endpoint) else {
            return Err(Fault::NoSuchNode);
        };
        let (after, reply) = node.stepped_borrowed(alloc, event.borrowed())?;
        Ok(self.done(alloc, endpoint, after, reply)?)
    }

    // Hands a message to a node.
    fn deliver(
        &mut self,
        alloc: Global,
        number: u64,
        to: Endpoint,
        now: u64,
    ) -> Result<Shown, Fault>
        ensures shown { Answers (λ s. s) (showing self.old (Deliver number to now)) result }
        ensures done { OnOk result (self.new ≡ spec.act self.old (Deliver number to now)) }
        ensures err { OnErr result (self.new ≡ self.old) }
    {
        let Some(message) = self.message(number) else {
            return Err(Fault::NoSuchMessage);
        };
        let Some(node) = self.node(to) else {
            return Err(Fault::NoSuchNode);
        };
        let arriving = BorrowedEvent::arriving(message.borrowed(), now);
        let (after, reply) = node.stepped_borrowed(alloc, arriving)?;
        Ok(self.done(alloc, to, after, reply)?)
    }

    /// Does an action; a refused one changes nothing.
    pub(crate) fn act(&mut self, alloc: Global, action: &Action) -> Result<Shown, Fault>
        ensures shown { Answers (λ s. s) (showing self.old action.now) result }
        ensures done { OnOk result (self.new ≡ spec.act self.old action.now) }
        ensures err { OnErr result (self.new ≡ self.old) }
    {
        match action {
            Action::Start(endpoint, generation) => self.start(alloc, *endpoint, *generation),
            Action::Local(endpoint, event) => self.local(alloc, *endpoint, event),
            Action::Deliver { number, to, now } => self.deliver(alloc, *number, *to, *now),
        }
    }
}
