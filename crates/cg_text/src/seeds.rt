//! The endpoints of a line.

ghost use Rattle.std.specs.Prelude.{◌≡◌, IfOk, option_map};
ghost use Rattle.cg_core.specs.declared.limits.TheConstants.{SEED_LIMIT};
ghost use Rattle.cg_text.specs.Words as spec;

use cg_core::SEED_LIMIT;
use cg_types::{Endpoint, cut};
use std::alloc::{AllocError, Global};

/// Reads endpoints with the byte `at` between them: at least one, and at most `SEED_LIMIT`. `None` if a word is not an
/// endpoint, or if there are more.
pub fn endpoints_in(alloc: Global, at: u8, text: &[u8]) -> Result<Option<Vec<Endpoint>>, AllocError>
    ensures { IfOk result (λ endpoints. option_map (λ v. v.items) endpoints ≡ spec.endpoints_in at SEED_LIMIT text.now) }
{
    let mut endpoints = Vec::new(alloc);
    let mut rest = text;
    for _ in 0..SEED_LIMIT {
        let Some((word, behind)) = cut(rest, at) else {
            let Some(endpoint) = Endpoint::from_bytes(rest) else {
                return Ok(None);
            };
            endpoints.push(endpoint)?;
            return Ok(Some(endpoints));
        };
        let Some(endpoint) = Endpoint::from_bytes(word) else {
            return Ok(None);
        };
        endpoints.push(endpoint)?;
        rest = behind;
    }
    Ok(None)
}
