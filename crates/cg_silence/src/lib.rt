//! Silence: windows of arrivals, one of each endpoint that a node hears of, and endpoints that are silent for too long.
//!
//! A window keeps the last gaps between an endpoint's arrivals, as the `ArrivalWindow` of Apache Cassandra's failure
//! detector does. Each delta that was taken is an arrival of its endpoint, as its `Gossiper` reports them. Cassandra
//! compares a floating-point phi; this crate compares whole numbers, and exactly.
#![tactic(auto)]

mod chunks;
mod fault;
/// Laws of the limits and defaults.
pub mod laws;
mod limits;
mod outcomes;
mod past;
mod rows;
mod shared;
mod silence;
mod tail;
mod verdict;
mod window;
mod windows;

pub use fault::SilenceFault;
pub use limits::{
    DEFAULT_INITIAL_GAP, DEFAULT_MAX_GAP, DEFAULT_THRESHOLD, DEFAULT_WINDOW, GAP_LIMIT,
    THRESHOLD_LIMIT, THRESHOLD_UNIT, WINDOW_LIMIT,
};
pub use outcomes::{any_taken, was_taken};
pub use shared::SharedWindow;
pub use silence::Silence;
pub use verdict::Verdict;
pub use window::Window;
pub use windows::Windows;
