//! Owners who claim tokens: sixteen each.

use crate::failure::Failure;
use cg_entry::{Delta, State};
use cg_testing::{generation, state, version};
use cg_tokens::{Token, token_of};
use cg_types::{Fault, STATUS_KEY, TOKENS_KEY};
use std::alloc::{AllocError, Global};

// Returns sixteen tokens of an endpoint, rising.
fn tokens(alloc: Global, number: u16) -> Result<Vec<Token>, AllocError> {
    let mut tokens = Vec::new(alloc);
    for part in 0..16u8 {
        let key = format!(in alloc; "{number}/{part}")?;
        tokens.push(token_of(key.as_bytes()))?;
    }
    tokens.sort_unstable();
    Ok(tokens)
}

/// Writes sixteen tokens of an endpoint as it publishes them.
pub fn tokens_text(alloc: Global, number: u16) -> Result<String, AllocError> {
    let mut text = String::new(alloc);
    for token in &tokens(alloc, number)? {
        if !text.is_empty() {
            text.push(',')?;
        }
        text.push_str(&format!(in alloc; "{token}")?)?;
    }
    Ok(text)
}

// Returns the states of an endpoint that is in the ring and claims sixteen tokens.
fn claims(alloc: Global, number: u16) -> Result<Vec<State>, Fault> {
    let tokens = tokens_text(alloc, number)?;
    let mut states = Vec::with_capacity(alloc, 2)?;
    states.push(state(alloc, STATUS_KEY, 2, "NORMAL")?)?;
    states.push(state(alloc, TOKENS_KEY, 3, &tokens)?)?;
    Ok(states)
}

/// Makes the whole entry of an endpoint that is in the ring and claims sixteen tokens.
pub fn claiming(alloc: Global, number: u16) -> Result<Delta, Failure> {
    let states = claims(alloc, number)?;
    Delta::new(generation(5), 0, version(18), states).ok_or(Failure::Lacking("a delta"))
}

/// Makes the delta by which an endpoint that claims tokens leaves the ring: its `STATUS` is `LEFT`.
pub fn leaving(alloc: Global) -> Result<Delta, Failure> {
    let mut states = Vec::new(alloc);
    states.push(state(alloc, STATUS_KEY, 19, "LEFT")?)?;
    Delta::new(generation(5), 18, version(18), states).ok_or(Failure::Lacking("a delta"))
}
