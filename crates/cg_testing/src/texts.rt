//! Sample texts and a sample cluster.

ghost use Rattle.std.specs.Prelude.{◌≡◌, IfOk, codes, replicate, string_bytes};
ghost use Rattle.cg_types.specs.Answer.{Answers};
ghost use Rattle.cg_types.specs.Text.{cluster_of};
ghost use Rattle.cg_types.specs.declared.limits.TheConstants.{PARTITIONER};

use cg_types::{Cluster, Fault};
use std::alloc::{AllocError, Global};

/// Makes a text of `count` letters `x`. `AllocError` if there is no memory for them.
pub fn long_text(alloc: Global, count: usize) -> Result<String, AllocError>
    ensures { IfOk result (λ text. string_bytes text ≡ replicate count 120) }
{
    let mut text = String::new(alloc);
    for _ in 0..count {
        text.push('x')?;
    }
    Ok(text)
}

/// Makes the cluster `c1` with the partitioner in use; at most `OutOfMemory`.
pub fn cluster(alloc: Global) -> Result<Cluster, Fault>
    ensures { Answers (λ c. c) (cluster_of (codes "c1") PARTITIONER) result }
{
    Cluster::new(alloc, "c1")
}
