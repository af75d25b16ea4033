//! Writes of a journal that fail.

use crate::boards::what_is_left;
use cg_testing::expect_eq;
use std::test::Fail;

// Calls of the writer: a write and a flush of the first line, and of each other line.
#[test]
fn nothing_is_written_behind_a_torn_line(rt: HostRuntime) -> Result<(), Fail> {
    let alloc = rt.alloc();
    let whole = what_is_left(&rt, alloc, 0, 10, b"b")?;
    let torn = what_is_left(&rt, alloc, 5, 10, b"bbb")?;
    expect_eq!(
        (
            torn.answers.as_slice(),
            torn.counted,
            torn.torn,
            torn.text == whole.text
        ),
        (&[0u8, 15, 15][..], 2, true, true)
    )
}

#[test]
fn an_unflushed_line_is_not_answered(rt: HostRuntime) -> Result<(), Fail> {
    let alloc = rt.alloc();
    let whole = what_is_left(&rt, alloc, 0, 10, b"bb")?;
    let torn = what_is_left(&rt, alloc, 6, 10, b"bbb")?;
    expect_eq!(
        (
            torn.answers.as_slice(),
            torn.counted,
            torn.torn,
            torn.text == whole.text
        ),
        (&[0u8, 15, 15][..], 2, true, true)
    )
}

#[test]
fn a_life_does_not_begin_without_its_line(rt: HostRuntime) -> Result<(), Fail> {
    let unbegun = what_is_left(&rt, rt.alloc(), 1, 10, b"b")?;
    expect_eq!(unbegun.answers.as_slice(), &[15u8][..])
}
