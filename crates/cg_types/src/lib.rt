//! Names, limits and texts that the members of a cluster share, and maps from endpoints to values that copies share.
#![tactic(auto)]

mod endpoint;
mod fault;
mod generation;
/// Laws of the limits.
pub mod laws;
mod limits;
mod map;
mod owned;
mod rows;
mod shows;
mod state_key;
mod text;
mod version;
mod words;

pub use endpoint::Endpoint;
pub use fault::{Cause, Fault, OUT_OF_MEMORY_LINE, READ_FAULT_LINE};
pub use generation::Generation;
pub use limits::{
    MEMBER_LIMIT, NAME_LIMIT, NUMBER_LIMIT, PARTITIONER, STATE_LIMIT, STATUS_KEY, TEXT_LIMIT,
    TOKENS_KEY,
};
pub use map::SharedMap;
pub use owned::{Owned, endpoints_rise, owners_rise};
pub use rows::Row;
pub use shows::{Shows, show_all};
pub use state_key::StateKey;
pub use text::{Cluster, StateText, is_plain};
pub use version::Version;
pub use words::{cut, number, number_between};
