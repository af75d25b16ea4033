//! Versions and generations that rise.
#![tactic(auto)]

mod generation;
mod versions;

pub use generation::next_generation;
pub use versions::Versions;
