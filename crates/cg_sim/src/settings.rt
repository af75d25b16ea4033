//! The settings of a script's nodes.

ghost use Rattle.std.specs.Prelude.{◌≡◌, ◌↔◌, IfOk, IsSome, IfSome, codes};
ghost use Rattle.cg_types.specs.declared.limits.TheConstants.{PARTITIONER};
ghost use Rattle.cg_core.specs.SettingsValues.{IsSettings};
ghost use Rattle.cg_sim.specs.ScriptLines as spec;

use cg_core::Settings;
use cg_silence::Silence;
use cg_types::{Cluster, Endpoint, Fault};
use std::alloc::{AllocError, Global};

// The cluster of all scripts.
fn cluster(alloc: Global) -> Result<Cluster, AllocError>
    ensures { IfOk result (λ c. c ≡ record { name = codes "sim"; partitioner = PARTITIONER }) }
{
    match Cluster::new(alloc, "sim") {
        Ok(cluster) => Ok(cluster),
        Err(_) => Err(AllocError),
    }
}

/// Returns the settings of a script's nodes: the cluster `sim`, these seeds, and the default settings of silence.
/// `None` if the seeds don't rise strictly, or are more than `SEED_LIMIT`.
pub fn settings_with(alloc: Global, seeds: Vec<Endpoint>) -> Result<Option<Settings>, AllocError>
    ensures valid { IfOk result (λ s. IsSome s ↔ IsSettings (spec.settings_with seeds.items)) }
    ensures value { IfOk result (λ s. IfSome s (λ s. s ≡ spec.settings_with seeds.items)) }
{
    let cluster = cluster(alloc)?;
    Ok(Settings::new(cluster, seeds, Silence::default()))
}
