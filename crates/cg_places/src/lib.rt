//! Nodes of a cluster by the places that they hold of each owner's history: messages, steps, and the worlds that lists of
//! actions lead to, with their laws.
//!
//! A place says how many of an owner's entries were seen, so a join is a maximum, and every rule of taking is
//! arithmetic. The laws of nodes that run rest on these: each step of a node leaves a table and sends a message that
//! spell the places. Each function is a law: its contract says it, and its body is empty.
#![tactic(auto)]

/// Laws of places, of messages that spell them, and of a node's step.
pub mod laws;
