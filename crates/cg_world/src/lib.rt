//! All nodes of a cluster after a list of actions, as they run and by the places that they hold, and their laws.
//!
//! A list of actions is any sequence of starts, heartbeats, sets, removals, openings, ticks and deliveries. Each delivery
//! is of a message that was sent, to any node and any number of times. Messages are those of Apache Cassandra's
//! `Gossiper`s, but there no delta says what it is above, so a gap is taken. The laws are proved over places in owners'
//! histories. They hold of the nodes that run, since each step of a node leaves a table and sends a message that spell
//! the places. Three calls on a world in hand have contracts that are laws too.
#![tactic(auto)]

mod action;
mod exchanges;
pub mod laws;
mod merging;
mod nodes;
mod world;

pub use action::{Action, LocalEvent};
pub use exchanges::exchange_reaches_join;
pub use merging::{equal_digests, merge_is_join};
pub use world::{Shown, World, is_out_of_memory};
