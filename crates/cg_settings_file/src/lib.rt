//! The settings of a node that serves, and of one that runs until it is stopped, as a TOML table holds them.
//!
//! Each key is a whole number, a text, an endpoint's text or an array of these. A table with another key, without a key
//! that is needed, or with a value of another type or out of its range is refused, and the first such key is told.
#![tactic(auto)]

mod agent;
mod agent_keys;
mod keys;
pub mod laws;
mod limits;
mod node;
mod seeds;
mod settings;
mod stop;
mod values;
mod wanted;

pub use agent::{AgentInput, AgentSettings, Http, Loads, agent_or_key};
pub use cg_workers::Turns;
pub use limits::{
    DEFAULT_INTERVAL, DEFAULT_JOURNAL_MB, DEFAULT_KEEP, DEFAULT_RANDOM, DEFAULT_RECEIVERS,
    INTERVAL_LIMIT, LOAD_LIMIT, RECEIVER_LIMIT, TURN_LIMIT,
};
pub use settings::{ServeSettings, settings_of, settings_of_bytes, settings_or_key};
pub use stop::Unset;
pub use wanted::wanted_by_agents;
