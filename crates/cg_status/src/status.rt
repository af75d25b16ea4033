//! The status of a node.

ghost use Rattle.std.specs.Prelude.{◌≡◌};
ghost use Rattle.std.specs.Option.{option_copied};
ghost use Rattle.cg_status.specs.Status as spec;

use cg_silence::Verdict;
use cg_types::{Cluster, Endpoint, Generation};

/// An endpoint as it was seen at the last round.
#[derive(Clone, Copy, Debug)]
pub struct Seen {
    /// The endpoint.
    pub endpoint: Endpoint,
    /// The verdict on it.
    pub verdict: Verdict,
    /// The milliseconds since its last arrival, if there was one.
    pub since: Option<u64>,
}

/// The counts of a node since it started.
#[derive(Clone, Copy, Debug)]
pub struct Counters {
    /// Rounds begun.
    pub rounds: u64,
    /// Exchanges begun.
    pub begun: u64,
    /// Exchanges answered.
    pub answered: u64,
    /// Deltas taken.
    pub taken: u64,
    /// Deltas that were old.
    pub old: u64,
    /// Deltas with a gap before them.
    pub gap: u64,
    /// Deltas about the node itself.
    pub own: u64,
    /// Bytes read of peers.
    pub bytes_in: u64,
    /// Bytes written to peers.
    pub bytes_out: u64,
    /// Records made.
    pub records: u64,
    /// Records folded.
    pub folded: u64,
}

/// The status that a node publishes behind each round.
#[derive(Debug, Drop)]
pub struct Status {
    /// Its endpoint.
    pub own: Endpoint,
    /// Its generation.
    pub generation: Generation,
    /// Its cluster.
    pub cluster: Cluster,
    /// The milliseconds since it started.
    pub uptime: u64,
    /// The versions that it may still give.
    pub versions_left: u32,
    /// Its counts.
    pub counters: Counters,
    /// The exchanges that broke, by the number of their fault.
    pub broken: Vec<(u8, u64)>,
    /// The other endpoints.
    pub seen: Vec<Seen>,
}

impl Status {
    /// Looks up an endpoint as it was seen.
    pub fn of(&self, endpoint: Endpoint) -> Option<Seen>
        ensures { result ≡ spec.seen_of self.now.seen.items endpoint }
    {
        for seen in &self.seen {
            if seen.endpoint == endpoint {
                return Some(*seen);
            }
        }
        None
    }
}
