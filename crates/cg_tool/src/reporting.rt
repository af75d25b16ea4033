//! The report of an audit.

ghost use Rattle.std.specs.Prelude.{◌≡◌, ◌++◌, IfOk, OnOk, codes, string_bytes};
ghost use Rattle.std.specs.List.{flat_map};
ghost use Rattle.cg_tool.specs.Report as spec;
ghost use Rattle.cg_tool.specs.Report.{line_of, stuck_line_of, report_text, report_status};

use cg_audit::{AuditFault, LifeItem, Order};
use cg_text::{add_item, add_stuck};
use cg_types::Fault;
use std::alloc::{AllocError, Global};

fn add_items(text: &mut String, items: &[LifeItem]) -> Result<(), AllocError>
    ensures { OnOk result (string_bytes text.new ≡ string_bytes text.old ++ flat_map line_of items.now) }
{
    for item in items {
        add_item(text, item.endpoint, item.generation, item.number)?;
    }
    Ok(())
}

fn add_heads(text: &mut String, heads: &[LifeItem]) -> Result<(), AllocError>
    ensures { OnOk result (string_bytes text.new ≡ string_bytes text.old ++ flat_map stuck_line_of heads.now) }
{
    for head in heads {
        add_stuck(text, head.endpoint, head.generation, head.number)?;
    }
    Ok(())
}

fn run_text(alloc: Global, items: &[LifeItem]) -> Result<String, AllocError>
    ensures { IfOk result (λ text. string_bytes text ≡ spec.run_text items.now) }
{
    let mut text = String::new(alloc);
    add_items(&mut text, items)?;
    text.push_str("one run\n")?;
    Ok(text)
}

fn stuck_text(alloc: Global, heads: &[LifeItem]) -> Result<String, AllocError>
    ensures { IfOk result (λ text. string_bytes text ≡ spec.stuck_text heads.now) }
{
    let mut text = String::new(alloc);
    add_heads(&mut text, heads)?;
    let line = Fault::Stuck.line(alloc)?;
    text.push_str(line.as_str())?;
    Ok(text)
}

/// Returns the text that reports an audit, and the exit status.
///
/// With status 0 the text is a line for each item of the order and `one run`. With status 1 it is a line for each head
/// and `fault 17 Stuck`, or the line of another fault. `AllocError` if there is no memory for the text.
pub fn report(
    alloc: Global,
    audited: &Result<Order, AuditFault>,
) -> Result<(String, u8), AllocError>
    ensures text { IfOk result (λ said. string_bytes said.0 ≡ report_text audited.now) }
    ensures status { IfOk result (λ said. said.1 ≡ report_status audited.now) }
{
    match audited {
        Ok(order) => Ok((run_text(alloc, &order.items)?, 0)),
        Err(AuditFault::Stuck(heads)) => Ok((stuck_text(alloc, heads)?, 1)),
        Err(AuditFault::Other(fault)) => Ok((fault.line(alloc)?, 1)),
    }
}
