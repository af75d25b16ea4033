//! Tests of maps and tables, and of messages and the tables that each leads to, over their public calls.
#![tactic(auto)]

#[cfg(test)]
mod answers;
#[cfg(test)]
mod maps;
#[cfg(test)]
mod messages;
#[cfg(test)]
mod puts;
#[cfg(test)]
mod samples;
#[cfg(test)]
mod tables;
#[cfg(test)]
mod taking;
