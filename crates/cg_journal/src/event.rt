//! The lines of a journal after the first.

ghost use Rattle.std.specs.Prelude.{◌≡◌};
ghost use Rattle.cg_frames.specs.declared.layout.TheConstants.{LAYOUTS};
ghost use Rattle.cg_frames.specs.Choosing.{frame_among};
ghost use Rattle.cg_text.specs.Gives.{readable, Finds};
ghost use Rattle.cg_text.specs.Words as words_spec;
ghost use Rattle.cg_journal.specs.Reading as reading_spec;

use cg_core::Event;
use cg_engine::{expected_ack, expected_ack2, expected_syn};
use cg_frames::{Message, decode};
use cg_text::{bytes_in, count_before, four_in, is_word, key_before, state_text_in};
use cg_types::{Fault, StateKey, StateText, cut};
use std::alloc::Global;

// Reads the message whose frame is all of the bytes.
fn whole_message(alloc: Global, bytes: &[u8]) -> Result<Message, Fault>
    ensures { Finds (λ m. m) result (reading_spec.whole_message bytes.now (frame_among LAYOUTS bytes.now)) }
{
    match decode(alloc, bytes) {
        Ok(Some((message, size))) => {
            if size == bytes.len() {
                Ok(message)
            } else {
                Err(Fault::BadText)
            }
        }
        Ok(None) => Err(Fault::BadText),
        Err(Fault::OutOfMemory) => Err(Fault::OutOfMemory),
        Err(_) => Err(Fault::BadText),
    }
}

// Reads the message of a frame in hexadecimal digits.
#[tactic(auto, unfolding(crate::specs::Reading::message_in))]
fn message_in(alloc: Global, digits: &[u8]) -> Result<Message, Fault>
    ensures { Finds (λ m. m) result (reading_spec.message_in digits.now) }
{
    let bytes = bytes_in(alloc, digits)?;
    whole_message(alloc, &bytes)
}

// Reads the bytes of a text in hexadecimal digits; the empty one is `-`.
#[tactic(auto, unfolding(crate::specs::Reading::text_bytes_in))]
fn text_bytes_in(alloc: Global, digits: &[u8]) -> Result<Vec<u8>, Fault>
    ensures { Finds (λ v. v.items) result (reading_spec.text_bytes_in digits.now) }
{
    if is_word(digits, "-") {
        return Ok(Vec::new(alloc));
    }
    if digits.is_empty() {
        return Err(Fault::BadText);
    }
    bytes_in(alloc, digits)
}

// Reads the text of a state.
fn state_text(alloc: Global, bytes: &[u8]) -> Result<StateText, Fault>
    ensures { Finds (λ t. t) result (readable (words_spec.state_text_in bytes.now)) }
{
    match state_text_in(alloc, bytes) {
        Ok(text) => Ok(text),
        Err(Fault::OutOfMemory) => Err(Fault::OutOfMemory),
        Err(_) => Err(Fault::BadText),
    }
}

#[tactic(auto, unfolding(crate::specs::Reading::set_in))]
fn set_in(alloc: Global, words: &[u8]) -> Result<Event, Fault>
    ensures { Finds (λ e. e) result (reading_spec.set_in words.now) }
{
    let Some((key, digits)) = key_before(words) else {
        return Err(Fault::BadText);
    };
    let bytes = text_bytes_in(alloc, digits)?;
    let text = state_text(alloc, &bytes)?;
    Ok(Event::Set { key, text })
}

#[tactic(auto, unfolding(crate::specs::Reading::remove_in))]
fn remove_in(words: &[u8]) -> Result<Event, Fault>
    ensures { Finds (λ e. e) result (reading_spec.remove_in words.now) }
{
    let Some(key) = StateKey::from_bytes(words) else {
        return Err(Fault::BadText);
    };
    Ok(Event::Remove { key })
}

#[tactic(auto, unfolding(crate::specs::Reading::tick_in))]
fn tick_in(words: &[u8]) -> Result<Event, Fault>
    ensures { Finds (λ e. e) result (reading_spec.tick_in words.now) }
{
    let Some((now, rest)) = count_before(words) else {
        return Err(Fault::BadText);
    };
    let Some(words) = four_in(rest) else {
        return Err(Fault::BadText);
    };
    Ok(Event::Tick { now, words })
}

#[tactic(auto, unfolding(crate::specs::Reading::syn_in))]
fn syn_in(alloc: Global, words: &[u8]) -> Result<Event, Fault>
    ensures { Finds (λ e. e) result (reading_spec.syn_in words.now) }
{
    let message = message_in(alloc, words)?;
    match expected_syn(message) {
        Ok(m) => Ok(Event::Syn { m }),
        Err(_) => Err(Fault::BadText),
    }
}

#[tactic(auto, unfolding(crate::specs::Reading::ack_in))]
fn ack_in(alloc: Global, words: &[u8]) -> Result<Event, Fault>
    ensures { Finds (λ e. e) result (reading_spec.ack_in words.now) }
{
    let Some((now, digits)) = count_before(words) else {
        return Err(Fault::BadText);
    };
    let message = message_in(alloc, digits)?;
    match expected_ack(message) {
        Ok(m) => Ok(Event::Ack { now, m }),
        Err(_) => Err(Fault::BadText),
    }
}

#[tactic(auto, unfolding(crate::specs::Reading::ack2_in))]
fn ack2_in(alloc: Global, words: &[u8]) -> Result<Event, Fault>
    ensures { Finds (λ e. e) result (reading_spec.ack2_in words.now) }
{
    let Some((now, digits)) = count_before(words) else {
        return Err(Fault::BadText);
    };
    let message = message_in(alloc, digits)?;
    match expected_ack2(message) {
        Ok(m) => Ok(Event::Ack2 { now, m }),
        Err(_) => Err(Fault::BadText),
    }
}

// Reads a line of one word.
#[tactic(auto, unfolding(crate::specs::Reading::bare_event))]
fn bare_event(word: &[u8]) -> Result<Event, Fault>
    ensures { Finds (λ e. e) result (reading_spec.bare_event word.now) }
{
    if is_word(word, "beat") {
        return Ok(Event::Beat);
    }
    if is_word(word, "open") {
        return Ok(Event::Opening);
    }
    Err(Fault::BadText)
}

// Reads a line of more words, after the first one.
#[tactic(auto, unfolding(crate::specs::Reading::event_behind))]
fn event_behind(alloc: Global, word: &[u8], words: &[u8]) -> Result<Event, Fault>
    ensures { Finds (λ e. e) result (reading_spec.event_behind word.now words.now) }
{
    if is_word(word, "set") {
        return set_in(alloc, words);
    }
    if is_word(word, "remove") {
        return remove_in(words);
    }
    if is_word(word, "tick") {
        return tick_in(words);
    }
    if is_word(word, "syn") {
        return syn_in(alloc, words);
    }
    if is_word(word, "ack") {
        return ack_in(alloc, words);
    }
    if is_word(word, "ack2") {
        return ack2_in(alloc, words);
    }
    Err(Fault::BadText)
}

/// Reads the event of a line.
#[tactic(auto, unfolding(crate::specs::Reading::event_in))]
pub(crate) fn event_in(alloc: Global, line: &[u8]) -> Result<Event, Fault>
    ensures { Finds (λ e. e) result (reading_spec.event_in line.now) }
{
    match cut(line, b' ') {
        Some((word, words)) => event_behind(alloc, word, words),
        None => bare_event(line),
    }
}
