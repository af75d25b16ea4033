//! The rule of the channel: the rounds taken, and then those that it holds, are those put in.

use crate::round::Round;
use crossbeam_channel::protocol::{Join, Lesson, Outcome, Protocol, Split};
use std::collections::LinkedList;

/// An element of the channel: a round, or the word that there are no more.
#[derive(Drop)]
pub enum NextRound {
    Of(Round),
    Done,
}

/// The rights of the holder of a pass, the rounds that it has put in and taken, and `true` if it said that there are no
/// more. No value of it is made.
pub struct Hand {
    pub puts: bool,
    pub takes: bool,
    pub put: LinkedList<Round>,
    pub taken: LinkedList<Round>,
    pub said: bool,
}

/// The rule of the channel.
pub struct ChannelRule;

impl Protocol<NextRound, Hand> for ChannelRule {
    ghost use Rattle.std.specs.Prelude.{true, false, []};
    ghost use Rattle.cg_workers.specs.Rounds.{hand, InOrder};

    ghost holds = { InOrder };

    ghost first = { hand true true [] [] false };
}

/// The step in which one pass becomes two: the one puts, the other takes.
pub struct Cut;

impl Split<Hand> for Cut {
    ghost use Rattle.std.specs.Prelude.{true, false, []};
    ghost use Rattle.cg_workers.specs.Rounds.{hand};

    ghost left = { λ v. hand true false v.put [] v.said };

    ghost right = { λ v. hand false true [] v.taken false };
}

impl Join<Hand> for Cut {
    ghost use Rattle.std.specs.Prelude.{true, false, []};
    ghost use Rattle.cg_workers.specs.Rounds.{hand};

    ghost both = { λ v w. hand true true v.put w.taken v.said };

    ghost spent = { hand false false [] [] false };
}

/// The step that puts a round in, or the word.
pub struct PutsRound;

impl Outcome<NextRound, Hand> for PutsRound {
    ghost use Rattle.std.specs.Prelude.{◌≡◌, ◌++◌, ◌||◌};
    ghost use Rattle.cg_workers.specs.Rounds.{hand, round_of, is_done};

    ghost then = { λ v x w. w ≡ hand v.puts v.takes (v.put ++ round_of x) v.taken (is_done x || v.said) };
}

impl Lesson<NextRound, Hand> for PutsRound {
    ghost fact = { λ v items. Unit {0} };
}

/// The step that takes a round.
pub struct TakesRound;

impl Outcome<NextRound, Hand> for TakesRound {
    ghost use Rattle.std.specs.Prelude.{◌≡◌, ◌++◌};
    ghost use Rattle.cg_workers.specs.Rounds.{hand, round_of};

    ghost then = { λ v x w. w ≡ hand v.puts v.takes v.put (v.taken ++ round_of x) v.said };
}

impl Lesson<NextRound, Hand> for TakesRound {
    ghost fact = { λ v items. Unit {0} };
}

/// The fact that the rounds put in are those taken, and then those that the channel holds.
pub struct Total;

impl Lesson<NextRound, Hand> for Total {
    ghost use Rattle.std.specs.Prelude.{◌≡◌, ◌++◌};
    ghost use Rattle.cg_workers.specs.Rounds.{rounds_of};

    ghost fact = { λ v items. v.put ≡ v.taken ++ rounds_of items };
}
