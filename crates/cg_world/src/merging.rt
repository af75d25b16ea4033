//! Calls on a world in hand whose contracts are laws: merged tables and compared digests.

ghost use Rattle.std.specs.Prelude.{◌≡◌, ◌&&◌, IfOk, IfErr, Ok, is_ok};
ghost use Rattle.std.specs.FinMap as map;
ghost use Rattle.cg_types.specs.declared.fault.Fault.TheVariants as faults;
ghost use Rattle.cg_types.specs.Answer.{Answers};
ghost use Rattle.cg_world.specs.Merging.{merged_three, merging_nodes, FitTogether, IsJoinIn, TellsOfNodes};

use crate::world::World;
use cg_table::Table;
use cg_types::{Endpoint, Fault};
use std::alloc::Global;

// Merges three tables, into that of the first with the entries of all.
fn merge_three(alloc: Global, one: &Table, two: &Table, three: &Table) -> Result<Table, Fault>
    requires { FitTogether one.now two.now three.now }
    ensures { Answers (λ t. t) (Ok (merged_three one.now two.now three.now)) result }
{
    let both = one.merge(alloc, two)?;
    both.merge(alloc, three)
}

/// Merges the tables of three nodes: the entries of the result spell the join of what the three hold.
///
/// The result is the first node's table with the entries of all, no more of them than endpoints started. `NoSuchNode`
/// if one of the three does not run; else at most `OutOfMemory`.
pub fn merge_is_join(
    alloc: Global,
    world: &World,
    a: Endpoint,
    b: Endpoint,
    c: Endpoint,
) -> Result<Table, Fault>
    ensures due { Answers (λ t. t) (merging_nodes world.now a b c) result }
    ensures join { IfOk result (λ t. IsJoinIn world.now a b c t) }
{
    let (Some(one), Some(two), Some(three)) = (world.node(a), world.node(b), world.node(c)) else {
        return Err(Fault::NoSuchNode);
    };
    merge_three(alloc, one.table(), two.table(), three.table())
}

/// Returns `true` if two nodes have equal digests: exactly if their tables hold the same entries.
///
/// Then their rings are equal too. `NoSuchNode` if one of the two does not run. It takes no memory.
pub fn equal_digests(world: &World, a: Endpoint, b: Endpoint) -> Result<bool, Fault>
    ensures when { is_ok result ≡ (map.contains_key world.now.nodes a && map.contains_key world.now.nodes b) }
    ensures ok { IfOk result (λ same. TellsOfNodes world.now a b same) }
    ensures err { IfErr result (λ f. f ≡ faults.NoSuchNode) }
{
    let (Some(one), Some(other)) = (world.node(a), world.node(b)) else {
        return Err(Fault::NoSuchNode);
    };
    Ok(one.table().same_entries(other.table()))
}
