//! A node that serves: its life, from its settings to its journal.
#![tactic(auto)]

mod node;
mod serving;

pub use serving::serve;
