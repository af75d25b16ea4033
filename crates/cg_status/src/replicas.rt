//! Replicas in JSON.

ghost use Rattle.std.specs.Prelude.{◌≡◌, ◌++◌, ◌∷◌, [], Some, OnOk, IfOk};
ghost use Rattle.std.specs.FinMap as map;
ghost use Rattle.json.specs.Json.{document};
ghost use Rattle.json.specs.Tree.{json_tokens};
ghost use Rattle.cg_tokens.specs.Ring.{replicas};
ghost use Rattle.std.specs.List.{flat_map};
ghost use Rattle.cg_status.specs.Status as spec;
ghost use Rattle.cg_status.specs.Flat.{endpoint_tokens};

use crate::fields::add_endpoint;
use cg_tokens::{Ring, Token};
use cg_types::Endpoint;
use json::Writer;
use std::alloc::{AllocError, Global};

// Adds endpoints, one after the other.
fn add_items(alloc: Global, writer: &mut Writer, endpoints: &[Endpoint]) -> Result<(), AllocError>
    ensures tokens { OnOk result (writer.new.tokens ≡ writer.old.tokens ++ flat_map endpoint_tokens endpoints.now) }
    ensures before { OnOk result (writer.new.before ≡ writer.old.before) }
{
    for endpoint in endpoints {
        add_endpoint(alloc, writer, *endpoint)?;
    }
    Ok(())
}

// Adds endpoints, as an array.
fn add_endpoints(
    alloc: Global,
    writer: &mut Writer,
    endpoints: &[Endpoint],
) -> Result<(), AllocError>
    ensures tokens { OnOk result (writer.new.tokens ≡ writer.old.tokens ++ json_tokens (spec.endpoints_json endpoints.now)) }
    ensures before { OnOk result (writer.new.before ≡ writer.old.before) }
{
    writer.begin_array()?;
    add_items(alloc, writer, endpoints)?;
    writer.end_array()
}

/// Returns the endpoints that keep the keys of this token, at most `rf` of them, as a list in JSON. `AllocError` if it
/// finds no memory.
pub fn replicas_json(
    alloc: Global,
    ring: &Ring,
    token: Token,
    rf: u64,
) -> Result<Vec<u8>, AllocError>
    ensures { IfOk result (λ body. document body.items
        ≡ Some (spec.endpoints_json (replicas (map.entries ring.now.positions) token rf))) }
{
    let endpoints = ring.replicas(alloc, token, rf as usize)?;
    let mut writer = Writer::new(Vec::new(alloc));
    add_endpoints(alloc, &mut writer, &endpoints)?;
    Ok(writer.into_inner())
}
