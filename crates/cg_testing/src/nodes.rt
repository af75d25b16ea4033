//! Sample settings of a node.

ghost use Rattle.std.specs.Prelude.{◌≡◌, IfOk};
ghost use Rattle.cg_testing.specs.Settings.{sample_settings};

use crate::texts::cluster;
use cg_core::Settings;
use cg_silence::Silence;
use cg_types::Fault;
use std::alloc::Global;

/// Makes settings of the cluster `c1`, with no seeds and the default silence; at most `OutOfMemory`.
pub fn settings(alloc: Global) -> Result<Settings, Fault>
    ensures { IfOk result (λ s. s ≡ sample_settings) }
{
    match Settings::new(cluster(alloc)?, Vec::new(alloc), Silence::default()) {
        Some(settings) => Ok(settings),
        None => unreachable!(),
    }
}
