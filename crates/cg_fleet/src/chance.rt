//! The chance that words are drawn by: those of rounds, and those that decide which messages are lost.

ghost use Rattle.std.specs.Prelude.{◌≡◌, ◌<◌, ◌≤◌, nat_lt};
ghost use Rattle.cg_fleet.specs.Chance.{below_of, arriving_of};
ghost use Rattle.cg_fleet.specs.declared.relaying.TheConstants.{WHOLE};

use crate::relaying::WHOLE;
use rand_core::Rng;

/// A generator of words, and how many of a hundred messages are lost.
#[derive(Drop)]
pub struct Chance<G: Rng + Drop> {
    generator: G,
    loss: u8,
}

impl<G: Rng + Drop> Chance<G> {
    /// Makes a chance that loses `loss` of a hundred messages.
    pub fn new(generator: G, loss: u8) -> Chance<G>
        ensures generator { result.generator ≡ generator }
        ensures loss { result.loss ≡ loss }
    {
        Chance { generator, loss }
    }

    /// The words of a round.
    pub(crate) fn words(&mut self) -> [u64; 4]
        ensures { self.new.loss ≡ self.old.loss }
    {
        let first = self.generator.next_u64();
        let second = self.generator.next_u64();
        let third = self.generator.next_u64();
        let fourth = self.generator.next_u64();
        [first, second, third, fourth]
    }

    /// A number below `limit`: the generator's next word, divided by `limit`, leaves it.
    pub fn below(&mut self, limit: u64) -> u64
        requires { 0 < limit }
        ensures drawn { (result, G.stream self.new.generator) ≡ below_of limit (G.stream self.old.generator) }
        ensures below { result < limit }
        ensures loss { self.new.loss ≡ self.old.loss }
    {
        self.generator.next_u64() % limit
    }

    // Draws how many of so many messages arrive.
    #[tactic(auto, using(crate::proofs::ChanceLemmas::arriving_lost, crate::proofs::ChanceLemmas::arriving_on))]
    fn arriving_of(&mut self, most: u8) -> u8
        ensures drawn { (result, G.stream self.new.generator) ≡ arriving_of most self.old.loss (G.stream self.old.generator) }
        ensures most { result ≤ most }
        ensures loss { self.new.loss ≡ self.old.loss }
    {
        if most == 0 || self.below(100) < u64::from(self.loss) {
            return 0;
        }
        1 + self.arriving_of(most - 1)
    }

    /// Draws how many messages of an exchange arrive before the first that is lost.
    pub fn arriving(&mut self) -> u8
        ensures drawn { (result, G.stream self.new.generator) ≡ arriving_of WHOLE self.old.loss (G.stream self.old.generator) }
        ensures most { result ≤ WHOLE }
        ensures loss { self.new.loss ≡ self.old.loss }
    {
        self.arriving_of(WHOLE)
    }
}
