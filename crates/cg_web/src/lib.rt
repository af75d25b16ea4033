//! The server of a node over HTTP: from the bytes of one connection to the bytes that answer them.
//!
//! A `Web` has a gate, by which it changes keys of the node, a pass, by which it reads the table, and a `Watch`, by which
//! it reads the status. Only a change waits: for the lock of the gate. All that is read is read without a lock.
#![tactic(auto)]

mod answer;
mod changing;
mod connection;
mod limits;
mod parts;
mod policy;
mod reading;
mod response;
mod shown;
mod watch;
mod web;

pub use answer::{Answer, Form, health, refused, shortage, stopping};
pub use changing::change;
pub use connection::answer_connection;
pub use shown::{metrics, page, printed, replicas, status};
pub use watch::Watch;
pub use web::Web;
