//! Outcomes of a message's deltas, each with its endpoint.

use cg_entry::Took;
use cg_types::Endpoint;

/// The outcome of a message's delta, and the endpoint that the delta was about.
#[derive(Clone, Copy, Debug, PartialEq, Eq)]
pub struct Outcome {
    pub endpoint: Endpoint,
    pub took: Took,
}
