//! Actions on the nodes of a cluster.

ghost use Rattle.std.specs.Prelude.{◌≡◌, IfOk};
ghost use Rattle.cg_core.specs.Borrowed.{borrowed_event};
ghost use Rattle.cg_world.specs.World.{event_of, starts};

use cg_core::BorrowedEvent;
use cg_types::{Endpoint, Generation, StateKey, StateText};
use std::alloc::AllocError;

/// An event that a node does by itself.
#[derive(Debug, Drop)]
pub enum LocalEvent {
    /// Raises the node's heartbeat version.
    Beat,
    /// Sets one of the node's own keys to a text.
    Set { key: StateKey, text: StateText },
    /// Removes the text of one of the node's own keys.
    Remove(StateKey),
    /// Sends a SYN.
    Opening,
    /// Does a round at a time, in milliseconds: a beat, and a SYN for peers that are chosen with four random words.
    Tick { now: u64, words: [u64; 4] },
}

impl LocalEvent {
    /// Returns the same event, which shares its text.
    pub fn copy(&self) -> Result<LocalEvent, AllocError>
        ensures { IfOk result (λ e. e ≡ self.now) }
    {
        Ok(match self {
            LocalEvent::Beat => LocalEvent::Beat,
            LocalEvent::Set { key, text } => LocalEvent::Set {
                key: *key,
                text: text.copy()?,
            },
            LocalEvent::Remove(key) => LocalEvent::Remove(*key),
            LocalEvent::Opening => LocalEvent::Opening,
            LocalEvent::Tick { now, words } => LocalEvent::Tick {
                now: *now,
                words: *words,
            },
        })
    }

    /// Returns the event that the node handles, borrowed.
    pub fn borrowed(&self) -> BorrowedEvent<'_>
        ensures { borrowed_event result ≡ event_of self.now }
    {
        match self {
            LocalEvent::Beat => BorrowedEvent::Beat,
            LocalEvent::Set { key, text } => BorrowedEvent::Set { key, text },
            LocalEvent::Remove(key) => BorrowedEvent::Remove { key },
            LocalEvent::Opening => BorrowedEvent::Opening,
            LocalEvent::Tick { now, words } => BorrowedEvent::Tick {
                now: *now,
                words: *words,
            },
        }
    }
}

/// One action of a run.
#[derive(Debug, Drop)]
pub enum Action {
    /// The node of an endpoint starts in a generation, and forgets what it held.
    Start(Endpoint, Generation),
    /// A node does something by itself.
    Local(Endpoint, LocalEvent),
    /// The message of a number is handed to a node at a time, in milliseconds. A loss is a delivery that never comes.
    Deliver { number: u64, to: Endpoint, now: u64 },
}

impl Action {
    /// Returns `true` if it starts the node of this endpoint.
    pub fn starts(&self, endpoint: Endpoint) -> bool
        ensures { result ≡ starts endpoint self.now }
    {
        match self {
            Action::Start(node, _) => *node == endpoint,
            Action::Local(..) | Action::Deliver { .. } => false,
        }
    }

    /// Returns the same action, which shares its text.
    pub fn copy(&self) -> Result<Action, AllocError>
        ensures { IfOk result (λ a. a ≡ self.now) }
    {
        Ok(match self {
            Action::Start(node, generation) => Action::Start(*node, *generation),
            Action::Local(node, event) => Action::Local(*node, event.copy()?),
            Action::Deliver { number, to, now } => Action::Deliver {
                number: *number,
                to: *to,
                now: *now,
            },
        })
    }
}
