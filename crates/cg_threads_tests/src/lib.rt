//! Nodes that run: two in one process, which reach each other over loopback, and one whose workers meet faults.
//!
//! A is 10.0.0.1:7000, at generation 9; the cluster is c1.
#![tactic(auto)]

#[cfg(test)]
mod faults;
#[cfg(test)]
mod links;
#[cfg(test)]
mod loopback;
#[cfg(test)]
mod nodes;
#[cfg(test)]
mod operators;
#[cfg(test)]
mod waiting;
