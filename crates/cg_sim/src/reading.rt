//! Reading a line, word by word.

ghost use Rattle.std.specs.Prelude.{◌≡◌};
ghost use Rattle.cg_sim.specs.ScriptLines as spec;
ghost use Rattle.cg_sim.specs.ScriptLines.{line_in};
ghost use Rattle.cg_text.specs.Gives.{Gives};

use crate::line::Line;
use crate::settings::settings_with;
use crate::word::{Word, word_named};
use cg_text::{
    View, count_before, count_in, endpoint_before, endpoints_in, four_in, key_before,
    state_text_in, text_in,
};
use cg_tokens::token_of;
use cg_types::{Endpoint, Fault, Generation, StateKey, cut};
use cg_world::{Action, LocalEvent};
use std::alloc::Global;

#[tactic(auto, unfolding(crate::specs::ScriptLines::start_line))]
fn start_line(words: &[u8]) -> Option<Line>
    ensures { result ≡ spec.start_line words.now }
{
    let Some((node, rest)) = endpoint_before(words) else {
        return None;
    };
    let generation = Generation::from_bytes(rest)?;
    Some(Line::Act(Action::Start(node, generation)))
}

#[tactic(auto, unfolding(crate::specs::ScriptLines::beat_line))]
fn beat_line(words: &[u8]) -> Option<Line>
    ensures { result ≡ spec.beat_line words.now }
{
    let node = Endpoint::from_bytes(words)?;
    Some(Line::Act(Action::Local(node, LocalEvent::Beat)))
}

#[tactic(auto, unfolding(crate::specs::ScriptLines::remove_line))]
fn remove_line(words: &[u8]) -> Option<Line>
    ensures { result ≡ spec.remove_line words.now }
{
    let Some((node, rest)) = endpoint_before(words) else {
        return None;
    };
    let key = StateKey::from_bytes(rest)?;
    Some(Line::Act(Action::Local(node, LocalEvent::Remove(key))))
}

#[tactic(auto, unfolding(crate::specs::ScriptLines::open_line))]
fn open_line(words: &[u8]) -> Option<Line>
    ensures { result ≡ spec.open_line words.now }
{
    let node = Endpoint::from_bytes(words)?;
    Some(Line::Act(Action::Local(node, LocalEvent::Opening)))
}

#[tactic(auto, unfolding(crate::specs::ScriptLines::tick_line))]
fn tick_line(text: &[u8]) -> Option<Line>
    ensures { result ≡ spec.tick_line text.now }
{
    let Some((node, rest)) = endpoint_before(text) else {
        return None;
    };
    let (now, rest) = count_before(rest)?;
    let words = four_in(rest)?;
    Some(Line::Act(Action::Local(node, LocalEvent::Tick { now, words })))
}

#[tactic(auto, unfolding(crate::specs::ScriptLines::deliver_line))]
fn deliver_line(words: &[u8]) -> Option<Line>
    ensures { result ≡ spec.deliver_line words.now }
{
    let (number, rest) = count_before(words)?;
    let Some((to, rest)) = endpoint_before(rest) else {
        return None;
    };
    let now = count_in(rest)?;
    Some(Line::Act(Action::Deliver { number, to, now }))
}

#[tactic(auto, unfolding(crate::specs::ScriptLines::gossipinfo_line))]
fn gossipinfo_line(words: &[u8]) -> Option<Line>
    ensures { result ≡ spec.gossipinfo_line words.now }
{
    let node = Endpoint::from_bytes(words)?;
    Some(Line::Show(node, View::Gossipinfo))
}

#[tactic(auto, unfolding(crate::specs::ScriptLines::ring_line))]
fn ring_line(words: &[u8]) -> Option<Line>
    ensures { result ≡ spec.ring_line words.now }
{
    let node = Endpoint::from_bytes(words)?;
    Some(Line::Show(node, View::Ring))
}

#[tactic(auto, unfolding(crate::specs::ScriptLines::digests_line))]
fn digests_line(words: &[u8]) -> Option<Line>
    ensures { result ≡ spec.digests_line words.now }
{
    let node = Endpoint::from_bytes(words)?;
    Some(Line::Show(node, View::Digests))
}

#[tactic(auto, unfolding(crate::specs::ScriptLines::replicas_line))]
fn replicas_line(words: &[u8]) -> Option<Line>
    ensures { result ≡ spec.replicas_line words.now }
{
    let Some((node, rest)) = endpoint_before(words) else {
        return None;
    };
    let (rf, rest) = count_before(rest)?;
    let text = text_in(rest)?;
    let token = token_of(text.as_bytes());
    Some(Line::Show(node, View::Replicas { token, rf }))
}

#[tactic(auto, unfolding(crate::specs::ScriptLines::set_line))]
fn set_line(alloc: Global, words: &[u8]) -> Result<Line, Fault>
    ensures { Gives (λ l. l) result (spec.set_line words.now) }
{
    let Some((node, rest)) = endpoint_before(words) else {
        return Err(Fault::BadText);
    };
    let Some((key, text)) = key_before(rest) else {
        return Err(Fault::BadText);
    };
    match state_text_in(alloc, text) {
        Ok(text) => Ok(Line::Act(Action::Local(node, LocalEvent::Set { key, text }))),
        Err(fault) => Err(fault),
    }
}

fn seeds_line(alloc: Global, words: &[u8]) -> Result<Line, Fault>
    ensures { Gives (λ l. l) result (spec.or_unreadable (spec.seeds_line words.now)) }
{
    let Some(seeds) = endpoints_in(alloc, b' ', words)? else {
        return Err(Fault::BadText);
    };
    match settings_with(alloc, seeds)? {
        Some(settings) => Ok(Line::Seeds(settings)),
        None => Err(Fault::BadText),
    }
}

// Returns the line that was read without memory, or BadText if there is none.
fn or_unreadable(line: Option<Line>) -> Result<Line, Fault>
    ensures { result ≡ spec.or_unreadable line }
{
    match line {
        Some(line) => Ok(line),
        None => Err(Fault::BadText),
    }
}

// Reads the words after the first one.
fn line_of_word(alloc: Global, word: Word, words: &[u8]) -> Result<Line, Fault>
    ensures { Gives (λ l. l) result (spec.line_of_word word words.now) }
{
    match word {
        Word::Seeds => seeds_line(alloc, words),
        Word::Start => or_unreadable(start_line(words)),
        Word::Beat => or_unreadable(beat_line(words)),
        Word::Set => set_line(alloc, words),
        Word::Remove => or_unreadable(remove_line(words)),
        Word::Open => or_unreadable(open_line(words)),
        Word::Tick => or_unreadable(tick_line(words)),
        Word::Deliver => or_unreadable(deliver_line(words)),
        Word::Gossipinfo => or_unreadable(gossipinfo_line(words)),
        Word::Ring => or_unreadable(ring_line(words)),
        Word::Digests => or_unreadable(digests_line(words)),
        Word::Replicas => or_unreadable(replicas_line(words)),
    }
}

/// Reads a line of a script, without its line feed.
///
/// `TooLong` and `BadText` come if only the text of a `set` is refused: over 4,096 bytes, or with control characters.
/// `BadText` comes if anything else can't be read:
/// - another first word, or a word too few or too many;
/// - a number of another form or out of its range, or a text that is not UTF-8;
/// - seeds that don't rise strictly, or more than 16.
///
/// `OutOfMemory` comes if memory runs out on the way.
#[tactic(auto, unfolding(crate::specs::ScriptLines::line_in))]
pub fn read_line(alloc: Global, line: &[u8]) -> Result<Line, Fault>
    ensures { Gives (λ l. l) result (line_in line.now) }
{
    let Some((name, words)) = cut(line, b' ') else {
        return Err(Fault::BadText);
    };
    let Some(word) = word_named(name) else {
        return Err(Fault::BadText);
    };
    line_of_word(alloc, word, words)
}
