//! Lives of nodes on the loopback, served or until they are stopped, with their files in the folder where the tests run.
#![tactic(auto)]

#[cfg(test)]
mod agents;
#[cfg(test)]
mod lives;
