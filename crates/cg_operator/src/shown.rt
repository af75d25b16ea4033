//! Texts that show a table.

ghost use Rattle.std.specs.Prelude.{◌≡◌, ◌++◌, IfOk, OnOk, string_bytes};
ghost use Rattle.cg_operator.specs.Shown.{table_lines, unpublished_line};

use cg_table::Table;
use cg_text::{View, add_digests, add_gossipinfo, add_replicas, add_ring};
use cg_tokens::{Ring, Token};
use cg_types::Version;
use std::alloc::{AllocError, Global};
use std::fmt::Write;

// The positions of a table's ring.
fn ring_text(alloc: Global, table: &Table) -> Result<String, AllocError>
    ensures { IfOk result (λ text. string_bytes text ≡ table_lines table.now View.Ring) }
{
    let ring = Ring::of_table(alloc, table)?;
    let mut text = String::new(alloc);
    add_ring(&mut text, &ring)?;
    Ok(text)
}

// Returns the replicas of a token in a table's ring, as text.
fn replicas_text(alloc: Global, table: &Table, token: Token, rf: u64) -> Result<String, AllocError>
    ensures { IfOk result (λ text. string_bytes text ≡ table_lines table.now (View.Replicas token rf)) }
{
    let ring = Ring::of_table(alloc, table)?;
    let mut text = String::new(alloc);
    add_replicas(alloc, &mut text, &ring, token, rf as usize)?;
    Ok(text)
}

/// Returns a view of a table as text: the entry of each endpoint, its digests, its ring, or replicas of a token.
pub fn table_text(alloc: Global, table: &Table, view: View) -> Result<String, AllocError>
    ensures { IfOk result (λ text. string_bytes text ≡ table_lines table.now view) }
{
    match view {
        View::Gossipinfo => {
            let mut text = String::new(alloc);
            add_gossipinfo(&mut text, table)?;
            Ok(text)
        }
        View::Digests => {
            let mut text = String::new(alloc);
            add_digests(&mut text, table)?;
            Ok(text)
        }
        View::Ring => ring_text(alloc, table),
        View::Replicas { token, rf } => replicas_text(alloc, table, token, rf),
    }
}

/// Adds the line `version 2 unpublished`: a change was given a version, and readers do not see it yet. `AllocError` if
/// the text finds no memory.
#[tactic(auto, unfolding(crate::specs::Shown::unpublished_line))]
pub fn add_unpublished(text: &mut String, version: Version) -> Result<(), AllocError>
    ensures { OnOk result (string_bytes text.new ≡ string_bytes text.old ++ unpublished_line version) }
{
    let version = version.get();
    writeln!(text, "version {version} unpublished")
}
