//! Texts of nodes, worlds, histories and tables: all that can be seen of them.

use cg_core::Node;
use cg_history::{History, Item};
use cg_table::{Puts, Table};
use cg_text::{add_digests, add_gossipinfo, add_ring};
use cg_world::World;
use std::alloc::{AllocError, Global};
use std::fmt::Write;

// The times, in milliseconds, at which the windows of a node are asked. Between two of them the verdict turns of a
// window that took an arrival, that took its gap alone, and that took none: first of those with few arrivals, then of
// those with a full tail.
const MOMENTS: [u64; 8] = [0, 27_000, 28_500, 30_000, 39_320, 39_800, 40_320, u64::MAX];

// Adds the verdict of each owner at each of the times.
fn add_verdicts(text: &mut String, node: &Node) -> Result<(), AllocError> {
    for row in node.table().owners() {
        for now in MOMENTS {
            let verdict = node.verdict(row.endpoint(), now);
            write!(text, "{verdict:?} ")?;
        }
    }
    text.push_str("\n")
}

/// Adds the table, the ring and the verdicts of a node.
pub(crate) fn add_node(text: &mut String, node: &Node) -> Result<(), AllocError> {
    add_gossipinfo(text, node.table())?;
    add_digests(text, node.table())?;
    add_ring(text, node.ring())?;
    add_verdicts(text, node)
}

// Adds the messages that were sent.
fn add_messages(text: &mut String, world: &World) -> Result<(), AllocError> {
    for number in 1..=world.message_count() {
        if let Some(message) = world.message(number) {
            writeln!(text, "{message:?}")?;
        }
    }
    Ok(())
}

/// Adds each node of a world and each message that was sent.
pub(crate) fn add_world(alloc: Global, text: &mut String, world: &World) -> Result<(), AllocError> {
    let endpoints = world.endpoints(alloc)?;
    for endpoint in &endpoints {
        if let Some(node) = world.node(*endpoint) {
            add_node(text, node)?;
        }
    }
    add_messages(text, world)
}

// Adds the puts of a record.
fn add_puts(text: &mut String, puts: &Puts) -> Result<(), AllocError> {
    for row in puts.rows() {
        let owner = row.endpoint();
        let entry = row.value();
        writeln!(text, "{owner} {entry:?}")?;
    }
    Ok(())
}

fn add_item(text: &mut String, item: &Item) -> Result<(), AllocError> {
    let Item {
        caller,
        event,
        reply,
        puts,
    } = item;
    writeln!(text, "{caller} {event:?} {reply:?}")?;
    add_puts(text, puts)
}

/// Adds a history: the number of its folded records, its base, the other records, and its node.
pub(crate) fn add_history(text: &mut String, history: &History) -> Result<(), AllocError> {
    let folded = history.folded();
    writeln!(text, "{folded} folded")?;
    add_node(text, history.base())?;
    for item in history.records() {
        add_item(text, item)?;
    }
    add_node(text, history.node())
}

/// Adds the entries of a table.
pub(crate) fn add_table(text: &mut String, table: &Table) -> Result<(), AllocError> {
    add_gossipinfo(text, table)
}
