//! The status of a node, as HTTP shows it: in JSON, as metrics, and if rounds go on.
//!
//! A node publishes a `Status` behind each round. Texts of keys come from peers, so they are escaped.
#![tactic(auto)]

mod counters;
mod fields;
mod health;
mod metrics;
mod replicas;
mod shown;
mod status;

pub use health::is_healthy;
pub use metrics::metrics_text;
pub use replicas::replicas_json;
pub use shown::status_json;
pub use status::{Counters, Seen, Status};
