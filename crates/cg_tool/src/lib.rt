//! The program's work, over readers and writers: the command line, the jobs answer and audit, and the choice of a job.
//!
//! `answer` reads a node and one SYN, and writes the ACK with which the node answers. An audit reads journals, and writes
//! one report on all. Other jobs are done by a crate each. Serving is left to the program.
#![tactic(auto)]

mod answering;
mod auditing;
mod job;
mod journals;
mod reporting;
mod request;
mod running;
mod showing;
mod source;
mod texts;

pub use answering::answer;
pub use auditing::audit_files;
pub use cg_journal::{Unread, read_journal, read_journal_telling, write_journal};
pub use cg_operator::operate;
pub use cg_settings_file::{ServeSettings, settings_of};
pub use cg_sim::sim;
pub use clap::Error;
pub use clap::error::ErrorKind;
pub use job::{Job, Subcommand, job_of};
pub use journals::Journals;
pub use reporting::report;
pub use running::{Ending, run};
pub use showing::show_run;
pub use source::Source;
