//! The settings of the node itself: its cluster, its seeds, and its judgement of silence.

ghost use Rattle.std.specs.Prelude.{◌≡◌, IfOk, Err, codes, option_map};
ghost use Rattle.toml.specs.Data.{get_member};
ghost use Rattle.toml.specs.View.{table_view, view};
ghost use Rattle.cg_silence.specs.Values.{silence_of};
ghost use Rattle.cg_settings_file.specs.Values as values_spec;
ghost use Rattle.cg_settings_file.specs.Seeds as seeds_spec;
ghost use Rattle.cg_settings_file.specs.Settings as settings_spec;
ghost use Rattle.cg_settings_file.specs.Seen.{Finds, GivesOrStops, Names};

use crate::seeds::{distinct, endpoints_in};
use crate::stop::{Stop, stop_at};
use crate::values::{number_or_key, text_at, value_at};
use cg_core::Settings;
use cg_silence::{
    DEFAULT_INITIAL_GAP, DEFAULT_MAX_GAP, DEFAULT_THRESHOLD, DEFAULT_WINDOW, GAP_LIMIT, Silence,
    SilenceFault, THRESHOLD_LIMIT, WINDOW_LIMIT,
};
use cg_types::{Cluster, Endpoint, Fault};
use std::alloc::Global;
use toml::{Table, Value};

#[tactic(auto, unfolding(crate::specs::Values::cluster_from))]
fn cluster_in(alloc: Global, table: &Table) -> Result<Cluster, Fault>
    ensures { Finds (λ c. c) result (values_spec.cluster_from (table_view table.now)) }
{
    let Some(name) = text_at(table, "cluster") else {
        return Err(Fault::BadText);
    };
    match Cluster::new(alloc, name) {
        Ok(cluster) => Ok(cluster),
        Err(Fault::OutOfMemory) => Err(Fault::OutOfMemory),
        Err(_) => Err(Fault::BadText),
    }
}

#[tactic(auto, unfolding(crate::specs::Seeds::seeds_in))]
fn seeds_in(alloc: Global, value: Option<&Value>) -> Result<Vec<Endpoint>, Fault>
    ensures { Finds (λ v. v.items) result (seeds_spec.seeds_in (option_map (λ v. view v.now) value.entry)) }
{
    let Some(value) = value else {
        return Ok(Vec::new(alloc));
    };
    let Some(items) = value.as_array() else {
        return Err(Fault::BadText);
    };
    let Some(listed) = endpoints_in(alloc, items)? else {
        return Err(Fault::BadText);
    };
    Ok(distinct(alloc, &listed)?)
}

// Returns the key of a number that is out of its range, by the fault of silence and the initial gap in the table. One
// that is not there is right, so the greatest gap is not.
fn silence_key(in_table: Option<&Value>, fault: SilenceFault) -> &'static str
    ensures { result.now ≡ settings_spec.silence_key (option_map (λ v. view v.now) in_table.entry) fault }
{
    match (fault, in_table) {
        (SilenceFault::Window, _) => "window",
        (SilenceFault::MaxGap, _) => "max_gap",
        (SilenceFault::InitialGap, None) => "max_gap",
        (SilenceFault::InitialGap, Some(_)) => "initial_gap",
        (SilenceFault::Threshold, _) => "threshold",
    }
}

// Returns the settings by which four numbers judge silence, if each is in its range.
#[tactic(auto, unfolding(crate::specs::Settings::silence_by))]
fn silence_by(
    in_table: Option<&Value>,
    window: u32,
    gaps: (u32, u32),
    threshold: u32,
) -> Result<Silence, &'static str>
    ensures { Names (λ s. s) result (settings_spec.silence_by (option_map (λ v. view v.now) in_table.entry)
        (silence_of window gaps.0 gaps.1 threshold)) }
{
    match Silence::try_new(window as usize, gaps.0, gaps.1, threshold) {
        Ok(silence) => Ok(silence),
        Err(fault) => Err(silence_key(in_table, fault)),
    }
}

#[tactic(auto, unfolding(crate::specs::Settings::silence_from))]
fn silence_in(table: &Table) -> Result<Silence, &'static str>
    ensures { Names (λ s. s) result (settings_spec.silence_from (table_view table.now)) }
{
    let default_window = DEFAULT_WINDOW as u32;
    let window = number_or_key(table, "window", WINDOW_LIMIT as u32, Some(default_window))?;
    let initial_gap = number_or_key(table, "initial_gap", GAP_LIMIT, Some(DEFAULT_INITIAL_GAP))?;
    let max_gap = number_or_key(table, "max_gap", GAP_LIMIT, Some(DEFAULT_MAX_GAP))?;
    let threshold = number_or_key(table, "threshold", THRESHOLD_LIMIT, Some(DEFAULT_THRESHOLD))?;
    silence_by(
        value_at(table, "initial_gap"),
        window,
        (initial_gap, max_gap),
        threshold,
    )
}

/// Reads the settings of the node itself.
#[tactic(auto, unfolding(crate::specs::Settings::node_from))]
pub(crate) fn node_in(alloc: Global, table: &Table) -> Result<Settings, Stop<'static>>
    ensures { GivesOrStops (λ s. s) result (settings_spec.node_from (table_view table.now)) }
{
    let cluster = match cluster_in(alloc, table) {
        Ok(cluster) => cluster,
        Err(fault) => return Err(stop_at("cluster", fault)),
    };
    let seeds = match seeds_in(alloc, value_at(table, "seeds")) {
        Ok(seeds) => seeds,
        Err(fault) => return Err(stop_at("seeds", fault)),
    };
    let silence = silence_in(table)?;
    match Settings::try_new(cluster, seeds, silence) {
        Ok(settings) => Ok(settings),
        Err(_) => Err(Stop::Key("seeds")),
    }
}
