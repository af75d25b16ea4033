//! The counters in JSON.

ghost use Rattle.std.specs.Prelude.{◌≡◌, ◌++◌, OnOk};
ghost use Rattle.json.specs.Tree.{json_tokens};
ghost use Rattle.cg_status.specs.Status as spec;
ghost use Rattle.cg_status.specs.Flat.{broken_tokens, traffic_tokens, delta_tokens};
ghost use Rattle.std.specs.List.{flat_map};

use crate::fields::add_number;
use crate::status::Counters;
use itoa::Buffer;
use json::Writer;
use std::alloc::AllocError;

fn add_traffic(writer: &mut Writer, counters: &Counters) -> Result<(), AllocError>
    ensures tokens { OnOk result (writer.new.tokens ≡ writer.old.tokens ++ traffic_tokens counters.now) }
    ensures before { OnOk result (writer.new.before ≡ writer.old.before) }
{
    add_number(writer, "rounds", counters.rounds)?;
    add_number(writer, "begun", counters.begun)?;
    add_number(writer, "answered", counters.answered)?;
    add_number(writer, "bytes_in", counters.bytes_in)?;
    add_number(writer, "bytes_out", counters.bytes_out)?;
    add_number(writer, "records", counters.records)?;
    add_number(writer, "folded", counters.folded)
}

fn add_deltas(writer: &mut Writer, counters: &Counters) -> Result<(), AllocError>
    ensures tokens { OnOk result (writer.new.tokens ≡ writer.old.tokens ++ delta_tokens counters.now) }
    ensures before { OnOk result (writer.new.before ≡ writer.old.before) }
{
    add_number(writer, "taken", counters.taken)?;
    add_number(writer, "old", counters.old)?;
    add_number(writer, "gap", counters.gap)?;
    add_number(writer, "own", counters.own)
}

fn add_broken_one(writer: &mut Writer, fault: u8, count: u64) -> Result<(), AllocError>
    ensures tokens { OnOk result (writer.new.tokens ≡ writer.old.tokens ++ broken_tokens (fault, count)) }
    ensures before { OnOk result (writer.new.before ≡ writer.old.before) }
{
    let mut buffer = Buffer::new();
    add_number(writer, buffer.format(fault), count)
}

fn add_broken(writer: &mut Writer, broken: &[(u8, u64)]) -> Result<(), AllocError>
    ensures tokens { OnOk result (writer.new.tokens ≡ writer.old.tokens ++ flat_map broken_tokens broken.now) }
    ensures before { OnOk result (writer.new.before ≡ writer.old.before) }
{
    for (fault, count) in broken {
        add_broken_one(writer, *fault, *count)?;
    }
    Ok(())
}

/// Adds the counters, as an object.
pub(crate) fn add_counters(
    writer: &mut Writer,
    counters: &Counters,
    broken: &[(u8, u64)],
) -> Result<(), AllocError>
    ensures tokens { OnOk result (writer.new.tokens
        ≡ writer.old.tokens ++ json_tokens (spec.counters_json counters.now broken.now)) }
    ensures before { OnOk result (writer.new.before ≡ writer.old.before) }
{
    writer.begin_object()?;
    add_traffic(writer, counters)?;
    add_deltas(writer, counters)?;
    writer.key("broken")?;
    writer.begin_object()?;
    add_broken(writer, broken)?;
    writer.end_object()?;
    writer.end_object()
}
