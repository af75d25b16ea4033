//! Entries and deltas: the state that a member holds of one endpoint, and the part of it in a message.
//!
//! An entry is called `EndpointState` in Apache Cassandra's gossip. It has the generation and the heartbeat version of
//! Cassandra's `HeartBeatState`, and application states, each with the version that set it. A delta is the part of an
//! entry above a version, as in van Renesse et al., "Efficient Reconciliation and Flow Control for Anti-Entropy
//! Protocols" (2008).
#![tactic(auto)]

mod block;
mod borrowed;
mod by_key;
mod delta;
mod digest;
mod entry;
mod held;
/// Laws of histories and deltas.
pub mod laws;
mod part;
mod places;
mod removals;
mod spelled;
mod standing;
mod state;
mod states;
mod took;

pub use borrowed::{BorrowedDelta, BorrowedStates};
pub use by_key::ByKey;
pub use delta::Delta;
pub use digest::Digest;
pub use entry::{Absorbed, Entry, meet};
pub use spelled::{SECTION_LIMIT, TOMBSTONE};
pub use state::State;
pub use took::Took;
