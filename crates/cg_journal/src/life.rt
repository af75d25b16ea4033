//! The first line of a journal.

ghost use Rattle.std.specs.Prelude.{◌≡◌, option_map};
ghost use Rattle.cg_text.specs.Gives.{Finds};
ghost use Rattle.cg_journal.specs.Reading as spec;

use cg_core::Settings;
use cg_history::History;
use cg_silence::Silence;
use cg_text::{cluster_named, endpoint_before, endpoints_in, is_word};
use cg_types::{Endpoint, Fault, Generation, cut, number};
use std::alloc::Global;

/// The greatest number among the settings of a line. The settings of silence have lesser limits, tested later.
const GREATEST_SETTING: u64 = 4294967295;

// Reads a generation, and returns it with the text after the space that follows it.
#[tactic(auto, unfolding(crate::specs::Reading::generation_before))]
fn generation_before(words: &[u8]) -> Option<(Generation, &[u8])>
    ensures { option_map (λ p. (p.0, p.1.now)) result ≡ spec.generation_before words.now }
{
    let Some((word, rest)) = cut(words, b' ') else {
        return None;
    };
    let generation = Generation::from_bytes(word)?;
    Some((generation, rest))
}

// Reads a number among the settings, and returns it with the text after the space that follows it.
#[tactic(auto, unfolding(crate::specs::Reading::setting_before))]
fn setting_before(words: &[u8]) -> Option<(u32, &[u8])>
    ensures { option_map (λ p. (p.0, p.1.now)) result ≡ spec.setting_before words.now }
{
    let Some((word, rest)) = cut(words, b' ') else {
        return None;
    };
    let setting = number(word, GREATEST_SETTING)?;
    Some((setting as u32, rest))
}

// Reads the settings of silence, and returns them with the text after the space that follows them.
#[tactic(auto, unfolding(crate::specs::Reading::silence_before))]
fn silence_before(words: &[u8]) -> Option<(Silence, &[u8])>
    ensures { option_map (λ p. (p.0, p.1.now)) result ≡ spec.silence_before words.now }
{
    let (window, rest) = setting_before(words)?;
    let (initial, rest) = setting_before(rest)?;
    let (greatest, rest) = setting_before(rest)?;
    let (threshold, rest) = setting_before(rest)?;
    let Ok(silence) = Silence::try_new(window as usize, initial, greatest, threshold) else {
        return None;
    };
    Some((silence, rest))
}

// Reads seeds with commas between them, or `-`.
#[tactic(auto, unfolding(crate::specs::Reading::seeds_in))]
fn seeds_in(alloc: Global, word: &[u8]) -> Result<Vec<Endpoint>, Fault>
    ensures { Finds (λ v. v.items) result (spec.seeds_in word.now) }
{
    if is_word(word, "-") {
        return Ok(Vec::new(alloc));
    }
    match endpoints_in(alloc, b',', word)? {
        Some(seeds) => Ok(seeds),
        None => Err(Fault::BadText),
    }
}

// Reads settings, to the end of the line.
#[tactic(auto, unfolding(crate::specs::Reading::settings_in))]
fn settings_in(alloc: Global, words: &[u8]) -> Result<Settings, Fault>
    ensures { Finds (λ s. s) result (spec.settings_in words.now) }
{
    let Some((silence, rest)) = silence_before(words) else {
        return Err(Fault::BadText);
    };
    let Some((seeds, name)) = cut(rest, b' ') else {
        return Err(Fault::BadText);
    };
    let seeds = seeds_in(alloc, seeds)?;
    let cluster = cluster_named(alloc, name)?;
    match Settings::try_new(cluster, seeds, silence) {
        Ok(settings) => Ok(settings),
        Err(_) => Err(Fault::BadText),
    }
}

// Reads the words after `life`.
#[tactic(auto, unfolding(crate::specs::Reading::life_behind))]
fn life_behind(alloc: Global, words: &[u8]) -> Result<History, Fault>
    ensures { Finds (λ h. h) result (spec.life_behind words.now) }
{
    let Some((own, rest)) = endpoint_before(words) else {
        return Err(Fault::BadText);
    };
    let Some((generation, rest)) = generation_before(rest) else {
        return Err(Fault::BadText);
    };
    let settings = settings_in(alloc, rest)?;
    Ok(History::begin(alloc, own, generation, settings)?)
}

/// Reads a first line, and returns the history that it begins.
#[tactic(auto, unfolding(crate::specs::Reading::life_in))]
pub(crate) fn life_in(alloc: Global, line: &[u8]) -> Result<History, Fault>
    ensures { Finds (λ h. h) result (spec.life_in line.now) }
{
    let Some((word, words)) = cut(line, b' ') else {
        return Err(Fault::BadText);
    };
    if !is_word(word, "life") {
        return Err(Fault::BadText);
    }
    life_behind(alloc, words)
}
