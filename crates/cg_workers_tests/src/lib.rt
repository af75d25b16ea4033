//! The receiver and the sender over bytes in memory, and the parts that a node that serves is made of.
//!
//! These parts are the channel of the rounds, in one thread and in two, the random words, and the clocks. Others are
//! connections over the loopback, each side on a thread, and files, in the folder of the tests' run.
#![tactic(auto)]

#[cfg(test)]
mod accepting;
#[cfg(test)]
mod channel;
#[cfg(test)]
mod clocks;
#[cfg(test)]
mod connections;
#[cfg(test)]
mod files;
#[cfg(test)]
mod generations;
#[cfg(test)]
mod limits;
#[cfg(test)]
mod numbered;
#[cfg(test)]
mod ports;
#[cfg(test)]
mod received;
#[cfg(test)]
mod samples;
#[cfg(test)]
mod sent;
#[cfg(test)]
mod threads;
#[cfg(test)]
mod words;
