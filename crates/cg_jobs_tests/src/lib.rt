//! The program's jobs: words of the command line, failing links, settings files, and the files of a node.
//!
//! The vectors of cg_vectors have the texts that the jobs print over links that don't fail.
#![tactic(auto)]

#[cfg(test)]
mod agent_settings_tests;
#[cfg(test)]
mod answer_link_tests;
#[cfg(test)]
mod job_tests;
#[cfg(test)]
mod node_file_tests;
#[cfg(test)]
mod range_tests;
#[cfg(test)]
mod samples;
#[cfg(test)]
mod script_link_tests;
#[cfg(test)]
mod script_tests;
#[cfg(test)]
mod seed_tests;
#[cfg(test)]
mod settings_tests;
