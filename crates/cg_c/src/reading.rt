//! Calls by which C reads a node's table as text.

ghost use Rattle.std.specs.Prelude.{◌≡◌, ◌++◌, IfOk, IfErr, OnOk, string_bytes};
ghost use Rattle.cg_types.specs.Fault.{fault_number};
ghost use Rattle.cg_types.specs.declared.fault.Fault.TheVariants.{OutOfMemory};
ghost use Rattle.cg_text.specs.declared.view.View.TheVariants as views;
ghost use Rattle.cg_tokens.specs.Tokens.{token_of};
ghost use Rattle.cg_c.specs.Told.{Tells};
ghost use Rattle.cg_c.specs.Bytes.{held_items};
ghost use Rattle.cg_c.specs.Reading.{owner_line, owner_lines, held_owners, view_lines, held_view};

use crate::given::Bytes;
use crate::held_node::HeldNode;
use crate::told::{DONE, number};
use cg_core::Node;
use cg_entry::Entry;
use cg_table::Table;
use cg_text::{View, add_digests, add_gossipinfo, add_replicas, add_ring};
use cg_tokens::token_of;
use cg_types::{Fault, Row};
use std::alloc::{AllocError, Global};
use std::fmt::Write;

// Adds the endpoint of an entry, in a line.
#[tactic(auto, unfolding(cg_text::specs::Printed::endpoint_line))]
fn add_owner(text: &mut String, row: &Row<Entry>) -> Result<(), AllocError>
    ensures { OnOk result (string_bytes text.new ≡ string_bytes text.old ++ owner_line row.now) }
{
    let endpoint = row.endpoint();
    writeln!(text, "{endpoint}")
}

// Adds the endpoint of each entry of a table, in lines.
fn add_owners(text: &mut String, table: &Table) -> Result<(), AllocError>
    ensures { OnOk result (string_bytes text.new ≡ string_bytes text.old ++ owner_lines table.now.entries) }
{
    for row in table.owners() {
        add_owner(text, row)?;
    }
    Ok(())
}

// The endpoint of each entry of a node's table, as text.
fn owners_text(alloc: Global, node: &Node) -> Result<Box<Vec<u8>>, AllocError>
    ensures { IfOk result (λ b. b.value.items ≡ owner_lines node.now.table.entries) }
{
    let mut text = String::new(alloc);
    add_owners(&mut text, node.table())?;
    Ok(Box::new(alloc, text.into_bytes())?)
}

// A view of a node's table, as text.
fn view_text(alloc: Global, node: &Node, view: View) -> Result<Box<Vec<u8>>, AllocError>
    ensures { IfOk result (λ b. b.value.items ≡ view_lines node.now.table view) }
{
    let mut text = String::new(alloc);
    match view {
        View::Gossipinfo => add_gossipinfo(&mut text, node.table())?,
        View::Digests => add_digests(&mut text, node.table())?,
        View::Ring => add_ring(&mut text, node.ring())?,
        View::Replicas { token, rf } => {
            add_replicas(alloc, &mut text, node.ring(), token, rf as usize)?
        }
    }
    Ok(Box::new(alloc, text.into_bytes())?)
}

// Gives a text, if there was memory for it.
fn give(alloc: Global, made: Result<Box<Vec<u8>>, AllocError>, text: &mut Bytes) -> u32
    ensures ok { IfOk made (λ b. (result ≡ 0) × (held_items text.new.held.value ≡ b.value.items)) }
    ensures err { IfErr made (λ _. (result ≡ fault_number OutOfMemory) × (text.new ≡ text.old)) }
{
    match made {
        Ok(made) => {
            text.put(alloc, made);
            DONE
        }
        Err(_) => number(Fault::OutOfMemory),
    }
}

// Gives a view of the table of the node that is held.
fn show(alloc: Global, node: &mut HeldNode, view: View, text: &mut Bytes) -> u32
    ensures told { Tells (held_view node.old.value view) (held_items text.new.held.value) (text.new ≡ text.old) result }
    ensures same { node.new.value ≡ node.old.value }
{
    let Some(inside) = node.take(alloc) else {
        return number(Fault::NoSuchNode);
    };
    let shown = view_text(alloc, &inside, view);
    node.put(alloc, inside);
    give(alloc, shown, text)
}

/// Gives the endpoint of each entry, one a line, rising by endpoint.
#[unsafe(no_mangle)]
pub extern "C" fn cg_owners(alloc: Global, node: &mut HeldNode, text: &mut Bytes) -> u32
    ensures told { Tells (held_owners node.old.value) (held_items text.new.held.value) (text.new ≡ text.old) result }
    ensures same { node.new.value ≡ node.old.value }
{
    let Some(inside) = node.take(alloc) else {
        return number(Fault::NoSuchNode);
    };
    let owners = owners_text(alloc, &inside);
    node.put(alloc, inside);
    give(alloc, owners, text)
}

/// Gives the entry of each endpoint, as text.
#[unsafe(no_mangle)]
pub extern "C" fn cg_gossipinfo(alloc: Global, node: &mut HeldNode, text: &mut Bytes) -> u32
    ensures told { Tells (held_view node.old.value views.Gossipinfo) (held_items text.new.held.value)
        (text.new ≡ text.old) result }
    ensures same { node.new.value ≡ node.old.value }
{
    show(alloc, node, View::Gossipinfo, text)
}

/// Gives a digest of each entry, as text.
#[unsafe(no_mangle)]
pub extern "C" fn cg_digests(alloc: Global, node: &mut HeldNode, text: &mut Bytes) -> u32
    ensures told { Tells (held_view node.old.value views.Digests) (held_items text.new.held.value)
        (text.new ≡ text.old) result }
    ensures same { node.new.value ≡ node.old.value }
{
    show(alloc, node, View::Digests, text)
}

/// Gives the ring of the table, as text.
#[unsafe(no_mangle)]
pub extern "C" fn cg_ring(alloc: Global, node: &mut HeldNode, text: &mut Bytes) -> u32
    ensures told { Tells (held_view node.old.value views.Ring) (held_items text.new.held.value)
        (text.new ≡ text.old) result }
    ensures same { node.new.value ≡ node.old.value }
{
    show(alloc, node, View::Ring, text)
}

/// Gives the first `rf` replicas of a key, one a line.
#[unsafe(no_mangle)]
pub extern "C" fn cg_replicas(
    alloc: Global,
    node: &mut HeldNode,
    key: &[u8],
    rf: u64,
    text: &mut Bytes,
) -> u32
    ensures told { Tells (held_view node.old.value (views.Replicas (token_of key.now) rf))
        (held_items text.new.held.value) (text.new ≡ text.old) result }
    ensures same { node.new.value ≡ node.old.value }
{
    let token = token_of(key);
    show(alloc, node, View::Replicas { token, rf }, text)
}
