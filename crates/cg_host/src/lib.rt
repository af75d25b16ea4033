//! Files of a node that serves: its settings, its generation and its journal.
//!
//! A file is read up to a limit, and replaced by a new one that was written beside it and synced. So a crash leaves the
//! old one or the new one, and never a part. What is no regular file is never replaced.
#![tactic(auto)]

mod disk;
mod generation;
mod journal;
mod kept_generation;
/// The law of the files.
pub mod laws;
mod reading;
mod replacing;
mod settings;
mod system;

pub use disk::Disk;
pub use generation::{generation_text, kept_generation_in, store_generation, stored_generation};
pub use journal::{try_journal, write_journal_to};
pub use kept_generation::next_life;
pub use reading::read_file;
pub use replacing::{Replacement, replace};
pub use settings::{SETTINGS_MOST, agent_settings_telling, settings_telling};
