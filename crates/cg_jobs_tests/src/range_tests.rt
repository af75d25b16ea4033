//! Settings at both ends of their ranges, past them and of another type, and keys that are missing or unknown.

use crate::samples::{NEEDED, fault_with, text_with};
use cg_settings_file::laws::{limits_have_their_values, seeds_rise_and_are_those_listed};
use cg_settings_file::{
    DEFAULT_INTERVAL, DEFAULT_RANDOM, INTERVAL_LIMIT, TURN_LIMIT, settings_or_key,
};
use cg_testing::{expect, expect_eq};
use cg_types::Fault;
use std::alloc::{AllocError, Global};
use std::test::Fail;

// 16 seeds.
const MOST: &str =
    "[\"10.0.0.1:1\", \"10.0.0.1:2\", \"10.0.0.1:3\", \"10.0.0.1:4\", \"10.0.0.1:5\", \"10.0.0.1:6\", \
\"10.0.0.1:7\", \"10.0.0.1:8\", \"10.0.0.1:9\", \"10.0.0.1:10\", \"10.0.0.1:11\", \"10.0.0.1:12\", \
\"10.0.0.1:13\", \"10.0.0.1:14\", \"10.0.0.1:15\", \"10.0.0.1:16\", ]";

// 17 of which two are equal.
const ONE_TWICE: &str =
    "[\"10.0.0.1:1\", \"10.0.0.1:2\", \"10.0.0.1:3\", \"10.0.0.1:4\", \"10.0.0.1:5\", \"10.0.0.1:6\", \
\"10.0.0.1:7\", \"10.0.0.1:8\", \"10.0.0.1:9\", \"10.0.0.1:10\", \"10.0.0.1:11\", \"10.0.0.1:12\", \
\"10.0.0.1:13\", \"10.0.0.1:14\", \"10.0.0.1:15\", \"10.0.0.1:16\", \"10.0.0.1:16\"]";

// 17 seeds.
const TOO_MANY: &str =
    "[\"10.0.0.1:1\", \"10.0.0.1:2\", \"10.0.0.1:3\", \"10.0.0.1:4\", \"10.0.0.1:5\", \"10.0.0.1:6\", \
\"10.0.0.1:7\", \"10.0.0.1:8\", \"10.0.0.1:9\", \"10.0.0.1:10\", \"10.0.0.1:11\", \"10.0.0.1:12\", \
\"10.0.0.1:13\", \"10.0.0.1:14\", \"10.0.0.1:15\", \"10.0.0.1:16\", \"10.0.0.1:17\", ]";

// Keys, and values that are read.
const TAKEN: [(&str, &str); 24] = [
    ("cluster", "\"c\""),
    (
        "cluster",
        "\"123456789012345678901234567890123456789012345678\"",
    ),
    ("listen", "\"0.0.0.0:1\""),
    ("listen", "\"255.255.255.255:65535\""),
    ("generation_file", "\"\""),
    ("journal", "'a path \\ of any text'"),
    ("seeds", "[]"),
    ("rounds", "-0"),
    ("rounds", "1000000"),
    ("exchanges", "0xf4240"),
    ("interval", "0"),
    ("interval", "60000"),
    ("random", "0"),
    ("random", "9223372036854775807"),
    ("window", "1"),
    ("window", "1000"),
    ("initial_gap", "1"),
    ("initial_gap", "60000"),
    ("max_gap", "2000"),
    ("max_gap", "86400000"),
    ("threshold", "1"),
    ("threshold", "1000000000"),
    ("seeds", MOST),
    ("seeds", ONE_TWICE),
];

// Keys, and values out of their ranges.
const REFUSED: [(&str, &str); 26] = [
    ("cluster", "\"\""),
    (
        "cluster",
        "\"1234567890123456789012345678901234567890123456789\"",
    ),
    ("cluster", "\"\\t\""),
    ("listen", "\"127.0.0.1:0\""),
    ("listen", "\"127.0.0.1:65536\""),
    ("listen", "\"localhost:7000\""),
    ("listen", "\"\""),
    ("rounds", "-1"),
    ("rounds", "1000001"),
    ("exchanges", "-1"),
    ("exchanges", "1000001"),
    ("interval", "-1"),
    ("interval", "60001"),
    ("interval", "4294967296"),
    ("random", "-1"),
    ("random", "9223372036854775808"),
    ("window", "0"),
    ("window", "1001"),
    ("initial_gap", "0"),
    ("initial_gap", "60001"),
    ("max_gap", "0"),
    ("max_gap", "1999"),
    ("max_gap", "86400001"),
    ("threshold", "0"),
    ("threshold", "1000000001"),
    ("seeds", TOO_MANY),
];

// Keys, and values of another type; of `seeds`, items that are no endpoints too.
const OF_ANOTHER_TYPE: [(&str, &str); 17] = [
    ("cluster", "1"),
    ("listen", "7000"),
    ("generation_file", "1"),
    ("journal", "[\"j\"]"),
    ("seeds", "\"10.0.0.2:7000\""),
    ("rounds", "\"1\""),
    ("exchanges", "1.0"),
    ("interval", "true"),
    ("random", "\"0\""),
    ("window", "[1]"),
    ("initial_gap", "1.5"),
    ("max_gap", "1979-05-27"),
    ("threshold", "{}"),
    ("seeds", "[1]"),
    ("seeds", "[\"10.0.0.1\"]"),
    ("seeds", "[\"10.0.0.1:7000\", 1]"),
    ("seeds", "[[\"10.0.0.1:7000\"]]"),
];

// Keys that have no meaning.
const UNKNOWN: [(&str, &str); 5] = [
    ("other", "1"),
    ("Cluster", "1"),
    ("seed", "1"),
    ("rounds2", "1"),
    ("\"\"", "1"),
];

#[test]
fn limits_are_the_stated_ones() -> Result<(), Fail> {
    limits_have_their_values();
    seeds_rise_and_are_those_listed();
    expect_eq!((TURN_LIMIT, INTERVAL_LIMIT), (1000000, 60000))?;
    expect_eq!((DEFAULT_INTERVAL, DEFAULT_RANDOM), (1000, 0))
}

// Fails unless each row's settings end with this fault, or with none.
fn expect_all(alloc: Global, rows: &[(&str, &str)], due: Option<Fault>) -> Result<(), Fail> {
    for (key, value) in rows {
        let fault = fault_with(alloc, key, value)?;
        expect_eq!(fault, due, "{key} = {value}")?;
    }
    Ok(())
}

#[test]
fn values_in_their_ranges_alone_are_read(rt: HostRuntime) -> Result<(), Fail> {
    let refused = Some(Fault::BadText);
    expect_all(rt.alloc(), &TAKEN, None)?;
    expect_all(rt.alloc(), &REFUSED, refused)?;
    expect_all(rt.alloc(), &OF_ANOTHER_TYPE, refused)?;
    expect_all(rt.alloc(), &UNKNOWN, refused)?;
    for (key, _) in NEEDED {
        expect_eq!(fault_with(rt.alloc(), key, "")?, refused, "{key}")?;
    }
    Ok(())
}

// A number that TOML does not have, so a text with it is no table.
const NO_NUMBER: &str = "9223372036854775808";

// Tests whether the key that is named of these bytes is this one, or none if it is empty.
fn is_named(alloc: Global, bytes: &[u8], due: &str) -> bool {
    match settings_or_key(alloc, bytes) {
        Ok(_) => due.is_empty(),
        Err(unset) => match &unset.key {
            Some(key) => key.as_str() == due,
            None => due.is_empty(),
        },
    }
}

// Tests whether the key that is named of these settings is this one, or none if it is empty.
fn names(alloc: Global, key: &str, value: &str, due: &str) -> Result<bool, AllocError> {
    let text = text_with(alloc, key, value)?;
    Ok(is_named(alloc, text.as_bytes(), due))
}

// Fails unless the key of each row is named, by its own name; in a text that is no table, none is.
fn expect_named(alloc: Global, rows: &[(&str, &str)]) -> Result<(), Fail> {
    for (key, value) in rows {
        let due = if *value == NO_NUMBER {
            ""
        } else {
            key.trim_matches('"')
        };
        expect!(names(alloc, key, value, due)?, "{key} = {value}")?;
    }
    Ok(())
}

#[test]
fn the_key_that_is_refused_is_named(rt: HostRuntime) -> Result<(), Fail> {
    let alloc = rt.alloc();
    expect_named(alloc, &REFUSED)?;
    expect_named(alloc, &OF_ANOTHER_TYPE)?;
    expect_named(alloc, &UNKNOWN)?;
    for (key, _) in NEEDED {
        expect!(names(alloc, key, "", key)?, "{key}")?;
    }
    for (key, value) in TAKEN {
        expect!(names(alloc, key, value, "")?, "{key} = {value}")?;
    }
    expect!(is_named(alloc, b"cluster", ""))?;
    expect!(is_named(alloc, b"\xff", ""))
}
