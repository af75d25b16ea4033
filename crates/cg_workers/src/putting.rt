//! Putting rounds in.

ghost use Rattle.std.specs.Prelude.{◌≡◌, ◌++◌, ◌∷◌, [], OnOk, IfErr, OnErr};
ghost use mathlib.Core.List.{IsPrefix};
ghost use Rattle.cg_workers.specs.Ends.{put_by, said_by, taken_in, PutsWhere, IsDisconnected, HasEnded, WereTakenOf};

use crate::ends::{Putting, Taken};
use crate::round::Round;
use crate::rule::{Cut, NextRound, PutsRound, Total};
use crossbeam_channel::SendError;
use std::sync::Wait;

impl Putting {
    /// Puts a round in, and waits for room. The round is handed back if nobody takes any more.
    pub fn put<R: Wait>(&mut self, rt: &R, round: Round) -> Result<(), Round>
        ensures channel { PutsWhere self.new self.old }
        ensures ok { OnOk result (put_by self.new ≡ put_by self.old ++ round ∷ []) }
        ensures err { OnErr result ((put_by self.new ≡ put_by self.old) × IsDisconnected self.new) }
        ensures said { said_by self.new ≡ said_by self.old }
        ensures back { IfErr result (λ r. r ≡ round) }
    {
        match self
            .to
            .send_as::<PutsRound, R>(rt, &mut self.pass, NextRound::Of(round))
        {
            Ok(()) => Ok(()),
            Err(SendError::Disconnected(NextRound::Of(round))) => {
                self.disconnected = true;
                Err(round)
            }
            _ => unreachable!(),
        }
    }

    /// Puts in the word that no more rounds come, unless nobody takes any more.
    pub fn end<R: Wait>(&mut self, rt: &R)
        ensures channel { PutsWhere self.new self.old }
        ensures put { put_by self.new ≡ put_by self.old }
        ensures ended { HasEnded self.new }
    {
        let said = self
            .to
            .send_as::<PutsRound, R>(rt, &mut self.pass, NextRound::Done);
        if said.is_err() {
            self.disconnected = true;
        }
    }

    /// Compares both ends: the rounds taken at the other end are a prefix of those put in here, each once, in their
    /// order.
    pub fn compare(self, taken: Taken)
        requires { WereTakenOf self taken }
        ensures { IsPrefix (taken_in taken) (put_by self) }
    {
        let Putting { to, mut pass, .. } = self;
        let Taken { pass: other } = taken;
        to.absorb::<Cut>(&mut pass, other);
        to.learn_as::<Total>(&mut pass);
    }
}
