//! The random words of rounds.

ghost use Rattle.std.specs.Prelude.{◌≡◌};
ghost use Rattle.rand_pcg.specs.Pcg.{pcg64_of_seed};
ghost use Rattle.rand_core.specs.Pcg32Seed.{pcg32_seed};
ghost use Rattle.cg_workers.specs.Words.{four_of};

use rand_core::{Rng, SeedableRng};
use rand_pcg::Pcg64;

/// Makes the generator of a seed.
pub fn generator(seed: u64) -> Pcg64
    ensures { result ≡ pcg64_of_seed (pcg32_seed 32 seed) }
{
    Pcg64::seed_from_u64(seed)
}

/// Returns the next four words of a generator.
#[tactic(auto, unfolding(crate::specs::Words::four_of))]
pub fn next_words<G: Rng>(generator: &mut G) -> [u64; 4]
    ensures { (result, G.stream generator.new) ≡ four_of (G.stream generator.old) }
{
    let first = generator.next_u64();
    let second = generator.next_u64();
    let third = generator.next_u64();
    let fourth = generator.next_u64();
    [first, second, third, fourth]
}
