//! The work of operators and of a ticker at seats, on one thread, and a node put together after it ran.
//!
//! A is 10.0.0.1:7000, at generation 9; the cluster is c1.
#![tactic(auto)]

#[cfg(test)]
mod board;
#[cfg(test)]
mod board_operators;
#[cfg(test)]
mod history;
#[cfg(test)]
mod line_links;
#[cfg(test)]
mod lines;
#[cfg(test)]
mod rounds;
#[cfg(test)]
mod texts;
#[cfg(test)]
mod unused;
