//! The words after the name of a program that measures.

use crate::case::Mode;
use std::env::Env;

/// Returns `true` if the first word is this one of four letters.
pub fn is_first_word(rt: &impl Env, four: [u8; 4]) -> bool {
    let mut word = [0u8; 4];
    matches!(rt.arg(1, &mut word), Ok(4)) && word == four
}

/// Returns the mode of the cases: measured if the first word is `time`, else run once.
pub fn mode_of(rt: &impl Env) -> Mode {
    if is_first_word(rt, *b"time") {
        Mode::Timed
    } else {
        Mode::Once
    }
}
