//! The words of vectors, which are parted by single spaces.

ghost use Rattle.std.specs.Prelude.{◌<◌, ◌≤◌, IfOk, IfSome, length};

use cg_types::{Fault, number};
use std::alloc::Global;

/// Returns the words of a text.
pub fn words_in(alloc: Global, text: &str) -> Result<Vec<&str>, Fault> {
    Ok(text.split(' ').collect(alloc)?)
}

/// Reads the number in a word, which is at most `most`. BadText if there is none.
pub fn number_in(word: &str, most: u64) -> Result<u64, Fault>
    ensures { IfOk result (λ number. number ≤ most) }
{
    match number(word.as_bytes(), most) {
        Some(number) => Ok(number),
        None => Err(Fault::BadText),
    }
}

/// Finds the first place of a word.
pub fn place_of(words: &[&str], word: &str) -> Option<usize>
    ensures { IfSome result (λ place. place < length words.now) }
{
    words.iter().position(|it| *it == word)
}

/// Adds a word, after a space if it is not the first.
pub fn add_word(text: &mut String, word: &str) -> Result<(), Fault> {
    if !text.is_empty() {
        text.push(' ')?;
    }
    Ok(text.push_str(word)?)
}
