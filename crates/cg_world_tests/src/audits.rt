//! Audits of lives that were not read from journals: starts alone, folded records, long chains, and messages that were
//! sent.
//!
//! The vectors (docs/VECTORS.md) have the audits of journals.

mod chains;
mod folded;
mod made;
mod sent;
mod starts;
