//! Metrics, as Prometheus reads them.

ghost use Rattle.std.specs.Prelude.{◌≡◌, ◌++◌, OnOk, IfOk, string_bytes};
ghost use Rattle.std.specs.List.{flat_map};
ghost use Rattle.cg_status.specs.Metrics as spec;

use crate::status::{Counters, Seen, Status};
use std::alloc::{AllocError, Global};
use std::fmt::Write;

#[tactic(auto, unfolding(crate::specs::Metrics::help_line))]
fn add_help(text: &mut String, name: &str, help: &str) -> Result<(), AllocError>
    ensures { OnOk result (string_bytes text.new ≡ string_bytes text.old ++ spec.help_line name.now help.now) }
{
    writeln!(text, "# HELP cg_{name} {help}")
}

#[tactic(auto, unfolding(crate::specs::Metrics::kind_line))]
fn add_kind(text: &mut String, name: &str, kind: &str) -> Result<(), AllocError>
    ensures { OnOk result (string_bytes text.new ≡ string_bytes text.old ++ spec.kind_line name.now kind.now) }
{
    writeln!(text, "# TYPE cg_{name} {kind}")
}

#[tactic(auto, unfolding(crate::specs::Metrics::value_line))]
fn add_value(text: &mut String, name: &str, value: u64) -> Result<(), AllocError>
    ensures { OnOk result (string_bytes text.new ≡ string_bytes text.old ++ spec.value_line name.now value) }
{
    writeln!(text, "cg_{name} {value}")
}

// Adds what a metric is for, and its kind.
#[tactic(auto, unfolding(crate::specs::Metrics::head_lines))]
fn add_head(text: &mut String, name: &str, kind: &str, help: &str) -> Result<(), AllocError>
    ensures { OnOk result (string_bytes text.new ≡ string_bytes text.old ++ spec.head_lines name.now kind.now help.now) }
{
    add_help(text, name, help)?;
    add_kind(text, name, kind)
}

// Adds a counter.
#[tactic(auto, unfolding(crate::specs::Metrics::counter_lines))]
fn add_counter(text: &mut String, name: &str, help: &str, count: u64) -> Result<(), AllocError>
    ensures { OnOk result (string_bytes text.new ≡ string_bytes text.old ++ spec.counter_lines name.now help.now count) }
{
    add_head(text, name, "counter", help)?;
    add_value(text, name, count)
}

#[tactic(auto, unfolding(crate::specs::Metrics::exchange_lines))]
fn add_exchanges(text: &mut String, counters: &Counters) -> Result<(), AllocError>
    ensures { OnOk result (string_bytes text.new ≡ string_bytes text.old ++ spec.exchange_lines counters.now) }
{
    add_counter(text, "rounds_total", "Rounds begun.", counters.rounds)?;
    add_counter(
        text,
        "exchanges_begun_total",
        "Exchanges begun.",
        counters.begun,
    )?;
    add_counter(
        text,
        "exchanges_answered_total",
        "Exchanges answered.",
        counters.answered,
    )
}

#[tactic(auto, unfolding(crate::specs::Metrics::byte_lines))]
fn add_bytes(text: &mut String, counters: &Counters) -> Result<(), AllocError>
    ensures { OnOk result (string_bytes text.new ≡ string_bytes text.old ++ spec.byte_lines counters.now) }
{
    add_counter(
        text,
        "read_bytes_total",
        "Bytes read of peers.",
        counters.bytes_in,
    )?;
    add_counter(
        text,
        "written_bytes_total",
        "Bytes written to peers.",
        counters.bytes_out,
    )
}

#[tactic(auto, unfolding(crate::specs::Metrics::record_lines))]
fn add_records(text: &mut String, counters: &Counters) -> Result<(), AllocError>
    ensures { OnOk result (string_bytes text.new ≡ string_bytes text.old ++ spec.record_lines counters.now) }
{
    add_counter(text, "records_total", "Records made.", counters.records)?;
    add_counter(
        text,
        "records_folded_total",
        "Records folded.",
        counters.folded,
    )
}

#[tactic(auto, unfolding(crate::specs::Metrics::delta_lines))]
fn add_deltas(text: &mut String, counters: &Counters) -> Result<(), AllocError>
    ensures { OnOk result (string_bytes text.new ≡ string_bytes text.old ++ spec.delta_lines counters.now) }
{
    add_counter(text, "deltas_taken_total", "Deltas taken.", counters.taken)?;
    add_counter(
        text,
        "deltas_old_total",
        "Deltas that were old.",
        counters.old,
    )?;
    add_counter(
        text,
        "deltas_gap_total",
        "Deltas with a gap before them.",
        counters.gap,
    )?;
    add_counter(
        text,
        "deltas_own_total",
        "Deltas about the node itself.",
        counters.own,
    )
}

// Adds how many exchanges broke by a fault.
#[tactic(auto, unfolding(crate::specs::Metrics::broken_line))]
fn add_broken_one(text: &mut String, fault: u8, count: u64) -> Result<(), AllocError>
    ensures { OnOk result (string_bytes text.new ≡ string_bytes text.old ++ spec.broken_line (fault, count)) }
{
    writeln!(
        text,
        "cg_exchanges_broken_total{{fault=\"{fault}\"}} {count}"
    )
}

fn add_broken_each(text: &mut String, broken: &[(u8, u64)]) -> Result<(), AllocError>
    ensures { OnOk result (string_bytes text.new ≡ string_bytes text.old ++ flat_map spec.broken_line broken.now) }
{
    for (fault, count) in broken {
        add_broken_one(text, *fault, *count)?;
    }
    Ok(())
}

#[tactic(auto, unfolding(crate::specs::Metrics::broken_lines))]
fn add_broken(text: &mut String, broken: &[(u8, u64)]) -> Result<(), AllocError>
    ensures { OnOk result (string_bytes text.new ≡ string_bytes text.old ++ spec.broken_lines broken.now) }
{
    add_head(
        text,
        "exchanges_broken_total",
        "counter",
        "Exchanges broken, by fault number.",
    )?;
    add_broken_each(text, broken)
}

// The number of endpoints whose verdict has this name.
fn count_of(seen: &[Seen], name: &str) -> usize
    ensures { result ≡ spec.count_of name.now seen.now }
{
    let mut count = 0;
    for one in seen {
        if one.verdict.name() == name {
            count += 1;
        }
    }
    count
}

#[tactic(auto, unfolding(crate::specs::Metrics::verdict_line))]
fn add_verdict(text: &mut String, seen: &[Seen], name: &str) -> Result<(), AllocError>
    ensures { OnOk result (string_bytes text.new ≡ string_bytes text.old ++ spec.verdict_line name.now seen.now) }
{
    let count = count_of(seen, name);
    writeln!(text, "cg_endpoints{{verdict=\"{name}\"}} {count}")
}

#[tactic(auto, unfolding(crate::specs::Metrics::verdict_lines))]
fn add_verdicts(text: &mut String, seen: &[Seen]) -> Result<(), AllocError>
    ensures { OnOk result (string_bytes text.new ≡ string_bytes text.old ++ spec.verdict_lines seen.now) }
{
    add_head(text, "endpoints", "gauge", "Other endpoints, by verdict.")?;
    add_verdict(text, seen, "Alive")?;
    add_verdict(text, seen, "Silent")?;
    add_verdict(text, seen, "Unheard")
}

#[tactic(auto, unfolding(crate::specs::Metrics::left_lines))]
fn add_left(text: &mut String, versions_left: u32) -> Result<(), AllocError>
    ensures { OnOk result (string_bytes text.new ≡ string_bytes text.old ++ spec.left_lines versions_left) }
{
    add_head(
        text,
        "versions_left",
        "gauge",
        "Versions that the node may still give.",
    )?;
    add_value(text, "versions_left", u64::from(versions_left))
}

/// Returns the metrics of a status, in the text format of Prometheus: rounds, exchanges, those that broke by the number
/// of the fault, bytes, deltas, records, endpoints by verdict, and the versions left. `AllocError` if it finds no memory.
#[tactic(auto, unfolding(crate::specs::Metrics::metrics))]
pub fn metrics_text(alloc: Global, status: &Status) -> Result<String, AllocError>
    ensures { IfOk result (λ text. string_bytes text ≡ spec.metrics status.now) }
{
    let mut text = String::new(alloc);
    add_exchanges(&mut text, &status.counters)?;
    add_broken(&mut text, &status.broken)?;
    add_bytes(&mut text, &status.counters)?;
    add_deltas(&mut text, &status.counters)?;
    add_records(&mut text, &status.counters)?;
    add_verdicts(&mut text, &status.seen)?;
    add_left(&mut text, status.versions_left)?;
    Ok(text)
}
