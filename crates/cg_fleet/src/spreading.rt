//! The spread of entries among nodes, and which tables are equal.

ghost use Rattle.std.specs.Prelude.{◌≡◌, ◌↔◌, IsTrue, option_copied};
ghost use Rattle.std.specs.List.{list_all};
ghost use Rattle.cg_fleet.specs.Spreading as spec;
ghost use Rattle.cg_fleet.specs.Spreading.{HoldEqual, HoldTheSame, is_reached};

use cg_core::Node;
use cg_entry::Entry;
use cg_types::Endpoint;

// Tests whether what is held is this entry or a later one.
fn is_reached(entry: &Entry, held: Option<&Entry>) -> bool
    ensures { result ≡ is_reached entry.now (option_copied held.entry) }
{
    match held {
        Some(held) => !entry.is_later(held),
        None => false,
    }
}

// Tests whether a node holds this entry of an owner, or a later one.
fn has(node: &Node, owner: Endpoint, entry: &Entry) -> bool
    ensures { result ≡ spec.has owner entry.now node.now }
{
    is_reached(entry, node.table().get(owner))
}

/// Tests whether all nodes hold this entry of an owner, or a later one.
pub fn all_have(nodes: &[Node], owner: Endpoint, entry: &Entry) -> bool
    ensures { result ≡ list_all (spec.has owner entry.now) nodes.now }
{
    nodes.iter().all(|node| has(node, owner, entry))
}

// Tests whether a node holds the same entries as another.
fn holds_the_same(first: &Node, node: &Node) -> bool
    ensures { IsTrue result ↔ (node.now.table.entries ≡ first.now.table.entries) }
{
    node.table().same_entries(first.table())
}

// Tests whether each node holds the same entries as another.
fn hold_the_same(first: &Node, nodes: &[Node]) -> bool
    ensures { IsTrue result ↔ HoldTheSame first.now nodes.now }
{
    let mut rest = nodes;
    while let Some((node, others)) = rest.split_first() {
        if !holds_the_same(first, node) {
            return false;
        }
        rest = others;
    }
    true
}

/// Tests whether all nodes hold the same entries.
pub fn hold_equal(nodes: &[Node]) -> bool
    ensures { IsTrue result ↔ HoldEqual nodes.now }
{
    match nodes.split_first() {
        Some((first, others)) => hold_the_same(first, others),
        None => true,
    }
}

// Tests whether a node holds an entry of an owner.
fn knows(node: &Node, owner: Endpoint) -> bool
    ensures { result ≡ spec.knows owner node.now }
{
    node.table().get(owner).is_some()
}

// Tests whether all nodes hold an entry of this one.
fn is_known(nodes: &[Node], node: &Node) -> bool
    ensures { result ≡ spec.is_known nodes.now node.now }
{
    let owner = node.table().own();
    nodes.iter().all(|other| knows(other, owner))
}

/// Tests whether each node holds an entry of each node.
pub fn hold_all(nodes: &[Node]) -> bool
    ensures { result ≡ list_all (spec.is_known nodes.now) nodes.now }
{
    nodes.iter().all(|node| is_known(nodes, node))
}
