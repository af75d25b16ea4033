//! The input of `answer`: a line with the node, and a line with a frame.

ghost use Rattle.std.specs.Prelude.{◌≡◌, option_map};
ghost use Rattle.cg_text.specs.Gives.{Finds};
ghost use Rattle.cg_tool.specs.Request as spec;
ghost use Rattle.cg_tool.specs.Request.{header_in, request_in};

use cg_text::{bytes_in, cluster_named};
use cg_types::{Cluster, Endpoint, Fault, Generation, cut};
use std::alloc::Global;

/// The node that answers: its endpoint, its generation and its cluster.
#[derive(Debug, Drop)]
pub struct Header {
    pub endpoint: Endpoint,
    pub generation: Generation,
    pub cluster: Cluster,
}

#[tactic(auto, unfolding(crate::specs::Request::header_in))]
fn header_of(alloc: Global, line: &[u8]) -> Result<Header, Fault>
    ensures { Finds (λ h. h) result (header_in line.now) }
{
    let Some((endpoint, rest)) = cut(line, b' ') else {
        return Err(Fault::BadText);
    };
    let Some(endpoint) = Endpoint::from_bytes(endpoint) else {
        return Err(Fault::BadText);
    };
    let Some((generation, name)) = cut(rest, b' ') else {
        return Err(Fault::BadText);
    };
    let Some(generation) = Generation::from_bytes(generation) else {
        return Err(Fault::BadText);
    };
    let cluster = cluster_named(alloc, name)?;
    Ok(Header {
        endpoint,
        generation,
        cluster,
    })
}

// Returns a last line, whose line feed may be missing.
#[tactic(auto, unfolding(crate::specs::Request::last_line))]
fn last_line(text: &[u8]) -> Option<&[u8]>
    ensures { option_map (λ l. l.now) result ≡ spec.last_line text.now }
{
    if text.is_empty() {
        return None;
    }
    match cut(text, b'\n') {
        None => Some(text),
        Some((line, more)) => { if more.is_empty() { Some(line) } else { None } }
    }
}

/// Reads the header, and the bytes of the second line's digits.
#[tactic(auto, unfolding(crate::specs::Request::request_in))]
pub(crate) fn request(alloc: Global, input: &[u8]) -> Result<(Header, Vec<u8>), Fault>
    ensures { Finds (λ p. (p.0, p.1.items)) result (request_in input.now) }
{
    let Some((line, rest)) = cut(input, b'\n') else {
        return Err(Fault::BadText);
    };
    let header = header_of(alloc, line)?;
    let Some(digits) = last_line(rest) else {
        return Err(Fault::BadText);
    };
    let frame = bytes_in(alloc, digits)?;
    Ok((header, frame))
}
