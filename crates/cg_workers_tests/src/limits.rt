//! The time that an exchange may last: a third of the interval, at least 100 ms, and 2 s if a peer began it; and the
//! time in which its first byte has to come.

use cg_testing::expect_eq;
use cg_workers::laws::limits_have_their_values;
use cg_workers::{answer_limit, first_byte_limit, limit_for};
use std::test::Fail;

#[test]
fn a_third_of_the_interval_and_at_least_100() -> Result<(), Fail> {
    for (interval, limit) in [
        (0, 100),
        (299, 100),
        (300, 100),
        (302, 100),
        (303, 101),
        (1000, 333),
        (60000, 20000),
    ] {
        expect_eq!(limit_for(interval), limit)?;
    }
    limits_have_their_values();
    Ok(())
}

#[test]
fn a_peer_has_as_long_as_a_dialer_and_at_most_2_s() -> Result<(), Fail> {
    for (interval, limit) in [
        (0, 100),
        (303, 101),
        (1000, 333),
        (5999, 1999),
        (6000, 2000),
        (6003, 2000),
        (60000, 2000),
        (4294967295, 2000),
    ] {
        expect_eq!(answer_limit(interval), limit)?;
    }
    Ok(())
}

#[test]
fn the_first_byte_has_a_quarter_and_at_least_100() -> Result<(), Fail> {
    for (limit, first) in [(0, 100), (100, 100), (403, 100), (404, 101), (2000, 500)] {
        expect_eq!(first_byte_limit(limit), first)?;
    }
    Ok(())
}
