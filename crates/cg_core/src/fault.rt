//! Faults of settings of a node.

use crate::limits::SEED_LIMIT;
use cg_types::PARTITIONER;
use thiserror::Error;

/// A fault of a node's settings.
#[derive(Clone, Copy, Debug, PartialEq, Eq, Error)]
pub enum SettingsFault {
    /// The cluster's partitioner is not the one in use.
    #[error("the cluster's partitioner is not {PARTITIONER}")]
    Partitioner,
    /// There are more than `SEED_LIMIT` seeds.
    #[error("there are more than {SEED_LIMIT} seeds")]
    SeedCount,
    /// A seed is not greater than the one before it.
    #[error("a seed is not greater than the one before it")]
    SeedOrder,
}
