//! A page that shows a node: its ring drawn, and a table of the endpoints with their entries.
//!
//! It is plain HTML, which a script renews. Texts of peers are escaped, so that a browser shows them as they are.
#![tactic(auto)]

mod colour;
/// The law of escaped texts.
pub mod laws;
mod parts;
mod ring;
mod rows;
mod template;
mod whole;

pub use template::SCRIPT;
pub use whole::page;
