//! Texts that are a generation, and texts that are none.

use cg_host::{generation_text, kept_generation_in};
use cg_testing::expect_eq;
use cg_types::Generation;
use std::test::Fail;

// The number that the bytes are, 0 for none.
fn number_in(bytes: &[u8]) -> u32 {
    match kept_generation_in(bytes) {
        Some(generation) => generation.get(),
        None => 0,
    }
}

#[test]
fn one_number_and_perhaps_a_line_feed() -> Result<(), Fail> {
    for (bytes, number) in [
        (b"1".as_slice(), 1),
        (b"1\n", 1),
        (b"1700000000\n", 1700000000),
        (b"2147483647\n", 2147483647),
    ] {
        expect_eq!(number_in(bytes), number)?;
    }
    Ok(())
}

#[test]
fn anything_else_is_none() -> Result<(), Fail> {
    for bytes in [
        b"".as_slice(),
        b"\n",
        b"0\n",
        b"01\n",
        b"2147483648\n",
        b"99999999999999999999\n",
        b"5 \n",
        b" 5\n",
        b"5\n\n",
        b"5\n6",
        b"5\r\n",
        b"-5\n",
        b"+5\n",
        b"5.0\n",
        b"0x5\n",
        b"five\n",
        b"\xff\n",
    ] {
        expect_eq!(number_in(bytes), 0, "{bytes:?}")?;
    }
    Ok(())
}

#[test]
fn the_text_of_a_generation(rt: HostRuntime) -> Result<(), Fail> {
    let generation = Generation::new(1700000000).ok_or("generation")?;
    let text = generation_text(rt.alloc(), generation)?;
    expect_eq!(text.as_str(), "1700000000\n")
}
