//! Tests of requests over HTTP, of a node's status, and of its page.
#![tactic(auto)]

#[cfg(test)]
mod nodes;
#[cfg(test)]
mod pages;
#[cfg(test)]
mod refused;
#[cfg(test)]
mod requests;
#[cfg(test)]
mod samples;
#[cfg(test)]
mod shown;
