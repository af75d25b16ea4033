//! Worked examples of frames, links and exchanges.
//!
//! They show frames and streams of them, both ways and in other layouts, and links, with the bytes read and written and
//! the calls counted. Exchanges are run over bytes in memory, over links that fail at each call in turn, and over links
//! that move a byte a call.
#![tactic(auto)]

#[cfg(test)]
mod counting_tests;
#[cfg(test)]
mod exchange_tests;
#[cfg(test)]
mod feed_tests;
#[cfg(test)]
mod frame_tests;
#[cfg(test)]
mod full_tests;
#[cfg(test)]
mod layout_tests;
#[cfg(test)]
mod link_tests;
#[cfg(test)]
mod removal_tests;
#[cfg(test)]
mod samples;
#[cfg(test)]
mod transfer_tests;
