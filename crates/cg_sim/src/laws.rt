//! Laws of every script, each the contract of an empty function.

ghost use Rattle.cg_sim.specs.Runs.{ScriptsAreRuns};

/// A script's world is a run of actions: after any lines it is that of the actions that the lines request, in their
/// order.
///
/// The nodes have the seeds of the first line. So the headline holds of the nodes.
pub fn scripts_are_runs()
    ensures { ScriptsAreRuns }
{}
