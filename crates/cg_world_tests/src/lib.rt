//! Worlds, histories and audits: exchanges, views of a world, runs, removals, folds, and lives that were not read from
//! journals.
//!
//! Each call is tried once, with ample memory.
#![tactic(auto)]

#[cfg(test)]
mod audits;
#[cfg(test)]
mod copies;
#[cfg(test)]
mod exchanges;
#[cfg(test)]
mod folds;
#[cfg(test)]
mod histories;
#[cfg(test)]
mod removals;
#[cfg(test)]
mod runs;
#[cfg(test)]
mod scripts;
