//! Tests of a node and its settings, of tokens and rings, and of windows of silence, over their public calls.
#![tactic(auto)]

#[cfg(test)]
mod copies;
#[cfg(test)]
mod heard;
#[cfg(test)]
mod moving;
#[cfg(test)]
mod nodes;
#[cfg(test)]
mod parts;
#[cfg(test)]
mod removing;
#[cfg(test)]
mod ring;
#[cfg(test)]
mod ring_moves;
#[cfg(test)]
mod samples;
#[cfg(test)]
mod settings;
#[cfg(test)]
mod silence;
#[cfg(test)]
mod spent;
#[cfg(test)]
mod tokens;
