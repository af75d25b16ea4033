//! Histories and their journals: records, receipts, folded records, unreadable lines, lines in pieces, failing links, cuts, and audits.
//!
//! The vectors (docs/VECTORS.md) have the audits of journals.
#![tactic(auto)]

#[cfg(test)]
mod audited;
#[cfg(test)]
mod cuts;
#[cfg(test)]
mod folded;
#[cfg(test)]
mod journals;
#[cfg(test)]
mod lines;
#[cfg(test)]
mod links;
#[cfg(test)]
mod records;
#[cfg(test)]
mod samples;
#[cfg(test)]
mod unreadable;
