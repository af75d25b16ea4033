//! Vectors of keys and their tokens.

use cg_tokens::token_of;
use cg_types::Fault;
use hex::FromHexError;
use std::alloc::Global;

/// Reads the bytes that an even number of hexadecimal digits spells; `-` is none.
pub fn bytes_in(alloc: Global, digits: &str) -> Result<Vec<u8>, Fault> {
    if digits == "-" {
        return Ok(Vec::new(alloc));
    }
    match hex::decode(alloc, digits) {
        Ok(bytes) => Ok(bytes),
        Err(FromHexError::OutOfMemory) => Err(Fault::OutOfMemory),
        Err(_) => Err(Fault::BadText),
    }
}

/// Returns the token of the key that these digits spell.
pub fn token_text(alloc: Global, digits: &str) -> Result<String, Fault> {
    let key = bytes_in(alloc, digits)?;
    let token = token_of(&key);
    Ok(format!(in alloc; "{token}")?)
}
