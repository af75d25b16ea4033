//! Taking rounds.

ghost use Rattle.std.specs.Prelude.{◌≡◌};
ghost use Rattle.cg_workers.specs.Ends.{taken_by, taken_in, with_next, TakesWhere, IsLeftOf};

use crate::ends::{Taken, Taking};
use crate::round::Round;
use crate::rule::{NextRound, TakesRound};
use std::sync::Wait;

impl Taking {
    /// Takes the next round, and waits for it. `None` if no more come, or if nobody can put any in.
    pub fn take<R: Wait>(&mut self, rt: &R) -> Option<Round>
        ensures channel { TakesWhere self.new self.old }
        ensures taken { taken_by self.new ≡ with_next (taken_by self.old) result }
    {
        match self.from.recv_as::<TakesRound, R>(rt, &mut self.pass) {
            Ok(NextRound::Of(round)) => Some(round),
            _ => None,
        }
    }

    /// Gives up the end, and returns the rounds taken. A round that is put in later is handed back.
    pub fn leave(self) -> Taken
        ensures channel { IsLeftOf self result }
        ensures taken { taken_in result ≡ taken_by self }
    {
        let Taking { from: _, pass } = self;
        Taken { pass }
    }
}
