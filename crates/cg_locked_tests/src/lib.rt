//! Worked examples of a node behind a lock, and two threads that share one.
//!
//! A is 10.0.0.1:7000, at generation 9; the cluster is c1.
#![tactic(auto)]

#[cfg(test)]
mod folding;
#[cfg(test)]
mod history;
#[cfg(test)]
mod reading;
#[cfg(test)]
mod rows;
#[cfg(test)]
mod threads;
