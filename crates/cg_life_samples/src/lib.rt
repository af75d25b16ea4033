//! Files of the nodes that tests serve: settings, generations and journals.
#![tactic(auto)]

mod files;

pub use files::{free_port, generation_of, journal_of, remove_file, write_file, write_settings};
