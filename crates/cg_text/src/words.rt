//! Words of lines, which single spaces separate.

ghost use Rattle.std.specs.Prelude.{◌≡◌, bytes_eq, option_map};
ghost use Rattle.cg_text.specs.Gives.{Gives};
ghost use Rattle.cg_text.specs.Words as spec;

use cg_types::{Endpoint, Fault, StateKey, StateText, cut, number};
use std::alloc::Global;

/// The greatest time in milliseconds, random word, number of replicas or of a message.
pub const GREATEST: u64 = u64::MAX;

/// Returns `true` if these bytes are that word.
pub fn is_word(name: &[u8], word: &str) -> bool
    ensures { result ≡ bytes_eq name.now word.now }
{
    name == word.as_bytes()
}

/// Reads a time in milliseconds, a random word, or a number of replicas or of a message.
#[tactic(auto, unfolding(crate::specs::Words::count_in))]
pub fn count_in(text: &[u8]) -> Option<u64>
    ensures { result ≡ spec.count_in text.now }
{
    number(text, GREATEST)
}

/// Reads an endpoint, and returns it with the text after the space that follows it.
#[tactic(auto, unfolding(crate::specs::Words::endpoint_before))]
pub fn endpoint_before(words: &[u8]) -> Option<(Endpoint, &[u8])>
    ensures { option_map (λ p. (p.0, p.1.now)) result ≡ spec.endpoint_before words.now }
{
    let Some((word, rest)) = cut(words, b' ') else {
        return None;
    };
    let endpoint = Endpoint::from_bytes(word)?;
    Some((endpoint, rest))
}

/// Reads a number of at most `GREATEST`, and returns it with the text after the space that follows it.
#[tactic(auto, unfolding(crate::specs::Words::count_before))]
pub fn count_before(words: &[u8]) -> Option<(u64, &[u8])>
    ensures { option_map (λ p. (p.0, p.1.now)) result ≡ spec.count_before words.now }
{
    let Some((word, rest)) = cut(words, b' ') else {
        return None;
    };
    let count = count_in(word)?;
    Some((count, rest))
}

/// Reads a key, and returns it with the text after the space that follows it.
#[tactic(auto, unfolding(crate::specs::Words::key_before))]
pub fn key_before(words: &[u8]) -> Option<(StateKey, &[u8])>
    ensures { option_map (λ p. (p.0, p.1.now)) result ≡ spec.key_before words.now }
{
    let Some((word, rest)) = cut(words, b' ') else {
        return None;
    };
    let key = StateKey::from_bytes(word)?;
    Some((key, rest))
}

/// Returns the text that these bytes are, if they are UTF-8.
pub fn text_in(text: &[u8]) -> Option<&str>
    ensures { option_map (λ t. t.now) result ≡ spec.text_in text.now }
{
    match std::str::from_utf8(text) {
        Ok(text) => Some(text),
        Err(_) => None,
    }
}

/// Reads the text of a state: it has to be UTF-8 first of all, then not too long, then with no control characters.
#[tactic(auto, unfolding(crate::specs::Words::state_text_in))]
pub fn state_text_in(alloc: Global, text: &[u8]) -> Result<StateText, Fault>
    ensures { Gives (λ t. t) result (spec.state_text_in text.now) }
{
    match text_in(text) {
        Some(text) => StateText::new(alloc, text),
        None => Err(Fault::BadText),
    }
}

/// Reads four numbers.
#[tactic(auto, unfolding(crate::specs::Words::four_in))]
pub fn four_in(words: &[u8]) -> Option<[u64; 4]>
    ensures { result ≡ spec.four_in words.now }
{
    let (a, rest) = count_before(words)?;
    let (b, rest) = count_before(rest)?;
    let (c, rest) = count_before(rest)?;
    let d = count_in(rest)?;
    Some([a, b, c, d])
}
