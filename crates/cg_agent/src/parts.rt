//! The parts that a node runs with, and its plan.

use cg_links::Counted;
use cg_settings_file::AgentInput;
use cg_types::{Endpoint, Generation};
use cg_workers::Traffic;
use std::alloc::Global;
use std::sync::Arc;

/// The parts of a node that runs until it is stopped.
#[derive(Drop)]
pub struct Parts<L, D, C, G, W, F> {
    /// A listener for each thread that answers connections of peers.
    pub listeners: Vec<L>,
    /// A listener for each thread that answers requests over HTTP.
    pub web: Vec<L>,
    /// The dialer by which rounds are sent.
    pub dialer: D,
    /// The dialer by which, at the end, the node connects to itself, so that no listener waits for a connection.
    pub waker: D,
    /// The clock of its times.
    pub clock: C,
    /// The generator of its random words.
    pub generator: G,
    /// The writer of its journal.
    pub sink: Counted<W>,
    /// Handles of the journal's file by which it is synced: one while it runs, one at the end.
    pub files: Option<(F, F)>,
    /// The traffic in which the bytes of peers' connections are counted.
    pub traffic: Arc<Traffic, Global>,
}

/// The plan of a node that runs until it is stopped.
#[derive(Clone, Copy, Debug)]
pub struct Plan {
    /// Its own endpoint.
    pub own: Endpoint,
    /// Its generation.
    pub generation: Generation,
    /// Milliseconds between two rounds.
    pub interval: u32,
    /// The records that stay in memory.
    pub keep: u32,
    /// The use of standard input.
    pub input: AgentInput,
    /// The endpoint at which HTTP is served, if at any.
    pub http: Option<Endpoint>,
    /// `true` if requests over HTTP may change keys and stop the node.
    pub writes: bool,
}
