//! The audit of lives: an order in which all that nodes did, life by life, was one run of the gossip, or none.
//!
//! A life is the history of one start of an endpoint: its items are the start and the records. `audit` returns an order
//! of all items of all lives. Those of each endpoint keep their order, and each message was sent by an item before the
//! one that handles it. At each turn the least endpoint goes whose next item can go. If there is no such order, `audit`
//! returns the next items that are left: each handles a message that none of those gone had sent. A life of which
//! records are folded has lost items, so it is refused.
//!
//! The laws say that this search finds an order exactly if there is one, and what tables stand at its end. They rest on
//! the law of one step by places, and not on the laws of a world: lives have settings of their own, and there may be more
//! endpoints than a table holds.
#![tactic(auto)]

mod auditing;
mod cursor;
mod hash;
mod index;
mod item;
/// Laws of one run: the search that finds it by turns, and the headline of the tables at the end of the last lives.
pub mod laws;
mod lives;
mod same;
mod step;
mod turns;

pub use auditing::audit;
pub use index::SentMessages;
pub use item::{AuditFault, LifeItem, Order};
pub use lives::{Lives, endpoints_differ};
