//! Worked examples of a board that writes its journal ahead.
//!
//! A is 10.0.0.1:7000, at generation 9; the cluster is c1.
#![tactic(auto)]

#[cfg(test)]
mod boards;
#[cfg(test)]
mod folding;
#[cfg(test)]
mod gates;
#[cfg(test)]
mod tearing;
#[cfg(test)]
mod texts;
