//! The words after the program's name.

ghost use Rattle.std.specs.Prelude.{◌≤◌, IfOk};

use cg_types::{MEMBER_LIMIT, number_between};
use std::fmt;

/// The usage of the program.
pub(crate) const USAGE: &str = "usage: cg_scale NODES LOSS_PERCENT SEED [TURNS [time]]";

// The turns, if no word says how many.
const TURNS: u32 = 100;

/// The cluster and the turns that the words ask for.
#[derive(Clone, Copy)]
pub(crate) struct Asked {
    pub nodes: u16,
    pub loss: u8,
    pub seed: u64,
    pub turns: u32,
    pub is_timed: bool,
}

/// The first word that is wrong, or their number.
#[derive(Clone, Copy, Debug, PartialEq, Eq)]
pub(crate) enum BadWords {
    Count,
    Nodes,
    Loss,
    Seed,
    Turns,
    Time,
}

impl fmt::Display for BadWords {
    fn fmt<W: fmt::Write>(&self, f: &mut fmt::Formatter<W>) -> fmt::Result {
        f.write_str(match self {
            BadWords::Count => "there are not three to five words",
            BadWords::Nodes => "NODES is not a number from 4 to 512",
            BadWords::Loss => "LOSS_PERCENT is not a number from 0 to 90",
            BadWords::Seed => "SEED is not a number from 0 to 18446744073709551615",
            BadWords::Turns => "TURNS is not a number from 0 to 10000",
            BadWords::Time => "the fifth word is not time",
        })
    }
}

// The number of a word.
fn number(word: &str, least: u64, most: u64, bad: BadWords) -> Result<u64, BadWords>
    ensures { IfOk result (λ n. n ≤ most) }
{
    match number_between(word.as_bytes(), least, most) {
        Some(number) => Ok(number),
        None => Err(bad),
    }
}

fn with_three(nodes: &str, loss: &str, seed: &str) -> Result<Asked, BadWords> {
    Ok(Asked {
        nodes: number(nodes, 4, MEMBER_LIMIT as u64, BadWords::Nodes)? as u16,
        loss: number(loss, 0, 90, BadWords::Loss)? as u8,
        seed: number(seed, 0, u64::MAX, BadWords::Seed)?,
        turns: TURNS,
        is_timed: false,
    })
}

fn with_turns(asked: Asked, turns: &str) -> Result<Asked, BadWords> {
    let turns = number(turns, 0, 10_000, BadWords::Turns)? as u32;
    Ok(Asked { turns, ..asked })
}

fn with_time(asked: Asked, word: &str) -> Result<Asked, BadWords> {
    if word != "time" {
        return Err(BadWords::Time);
    }
    Ok(Asked {
        is_timed: true,
        ..asked
    })
}

/// Reads the words, of which the first is the program's name.
pub(crate) fn read(words: &[String]) -> Result<Asked, BadWords> {
    match words {
        [_, nodes, loss, seed] => with_three(nodes, loss, seed),
        [_, nodes, loss, seed, turns] => with_turns(with_three(nodes, loss, seed)?, turns),
        [_, nodes, loss, seed, turns, word] => {
            with_time(with_turns(with_three(nodes, loss, seed)?, turns)?, word)
        }
        _ => Err(BadWords::Count),
    }
}
