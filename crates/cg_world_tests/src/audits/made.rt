//! The audits of lives as texts.

use cg_audit::{AuditFault, Lives, audit, endpoints_differ};
use std::alloc::Global;
use std::test::Fail;

/// Audits lives: `run` with its order, `stuck` with the heads, the name of a fault, or `twice` if two are of one
/// endpoint. An item is printed as the last byte of the endpoint's address, the generation, and the number.
pub(crate) fn said(alloc: Global, lives: &[Lives]) -> Result<String, Fail> {
    if !endpoints_differ(lives) {
        return Ok(String::from_str(alloc, "twice")?);
    }
    let (what, items) = match audit(alloc, lives) {
        Ok(order) => ("run", order.items),
        Err(AuditFault::Stuck(heads)) => ("stuck", heads),
        Err(AuditFault::Other(fault)) => (fault.name(), Vec::new(alloc)),
    };
    let mut text = String::from_str(alloc, what)?;
    for item in &items {
        let [_, _, _, last] = item.endpoint.address();
        let (generation, number) = (item.generation.get(), item.number);
        write!(text, " {last}/{generation}/{number}")?;
    }
    Ok(text)
}
