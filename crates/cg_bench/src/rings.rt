//! Rings, replicas, and the tables that rings are made of.

use cg_entry::Delta;
use cg_measure::{Failure, claiming, table_of};
use cg_table::Table;
use cg_tokens::{Ring, Token, token_of};
use cg_types::Endpoint;
use md5::{Digest, Md5};
use std::alloc::{AllocError, Global};

/// Returns the tokens of a thousand keys.
pub(crate) fn key_tokens(alloc: Global) -> Result<Vec<Token>, AllocError> {
    let mut tokens = Vec::new(alloc);
    for number in 0..1000u32 {
        tokens.push(token_of(&number.to_be_bytes()))?;
    }
    Ok(tokens)
}

/// Looks up the replicas of all these tokens, and returns those of the last.
pub(crate) fn replicas(
    alloc: Global,
    ring: &Ring,
    tokens: &[Token],
    rf: usize,
) -> Result<Vec<Endpoint>, AllocError> {
    let mut last = Vec::new(alloc);
    for token in tokens {
        last = ring.replicas(alloc, *token, rf)?;
    }
    Ok(last)
}

/// Searches the ring for each of these tokens, by the library alone, and returns the sum of the places.
pub(crate) fn places(ring: &Ring, tokens: &[Token]) -> usize {
    let mut sum: usize = 0;
    for token in tokens {
        let place = ring
            .positions()
            .partition_point(|(position, _)| *position < *token);
        sum = sum.wrapping_add(place);
    }
    sum
}

/// Looks up three replicas of each of a thousand keys of sixteen bytes, and returns those of the last.
pub(crate) fn replicas_of_keys(alloc: Global, ring: &Ring) -> Result<Vec<Endpoint>, AllocError> {
    let mut last = Vec::new(alloc);
    for number in 0..1000u64 {
        let key = u128::from(number).to_be_bytes();
        last = ring.replicas(alloc, token_of(&key), 3)?;
    }
    Ok(last)
}

/// Returns the last of a thousand MD5s, each of the one before, by the library alone.
pub(crate) fn digests() -> [u8; 16] {
    let mut digest = [0u8; 16];
    for _ in 0..1000 {
        digest = Md5::digest(&digest);
    }
    digest
}

// Adds the entry of an endpoint with sixteen tokens.
fn add_claims(alloc: Global, deltas: &mut Vec<Delta>, number: u16) -> Result<(), Failure> {
    let claims = claiming(alloc, number)?;
    Ok(deltas.push(claims)?)
}

// Returns the entries of 256 endpoints.
fn claims(alloc: Global) -> Result<Vec<Delta>, Failure> {
    let mut deltas = Vec::new(alloc);
    for number in 0..256u16 {
        add_claims(alloc, &mut deltas, number)?;
    }
    Ok(deltas)
}

/// Makes a table of 256 endpoints with sixteen tokens each.
pub(crate) fn claimed(alloc: Global) -> Result<Table, Failure> {
    table_of(alloc, 0, &claims(alloc)?)
}

/// Makes the ring of that table.
pub(crate) fn ring(alloc: Global) -> Result<Ring, Failure> {
    Ok(Ring::of_table(alloc, &claimed(alloc)?)?)
}
