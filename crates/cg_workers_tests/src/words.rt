//! The random words of some seeds.
//!
//! The expected words come from another program, which follows PCG's and rand's own description.

use cg_testing::expect_eq;
use cg_workers::laws::words_are_the_generators;
use cg_workers::{generator, next_words};
use std::test::Fail;

#[test]
fn words_are_the_next_ones_of_the_generator() -> Result<(), Fail> {
    words_are_the_generators();
    let mut words = generator(0);
    let first = [
        2354861276966075475,
        6411218084291373563,
        13092586260176364081,
        718076624554797018,
    ];
    let second = [
        15795103776161667678,
        2998643491086499979,
        3673039548900617805,
        9334786029913437385,
    ];
    expect_eq!(next_words(&mut words), first)?;
    expect_eq!(next_words(&mut words), second)?;
    let mut words = generator(9223372036854775807);
    let first = [
        10176381733452192787,
        1839339575381350078,
        4582089715056130045,
        303271943623561191,
    ];
    expect_eq!(next_words(&mut words), first)
}
