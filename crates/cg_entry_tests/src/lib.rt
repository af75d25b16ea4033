//! Tests of the types that members share, of versions, and of entries and deltas. They show rules that no clause
//! states, worked examples, and each call once with ample memory.
#![tactic(auto)]

#[cfg(test)]
mod entries;
#[cfg(test)]
mod removals;
#[cfg(test)]
mod spelled;
#[cfg(test)]
mod types;
#[cfg(test)]
mod versions;
