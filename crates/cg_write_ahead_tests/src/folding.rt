//! Records that are folded, so that few stay in memory.

use crate::boards::what_is_left;
use cg_testing::expect_eq;
use std::test::Fail;

// The number of lines of a text.
fn lines_in(text: &[u8]) -> usize {
    let mut count = 0usize;
    for byte in text {
        if *byte == b'\n' {
            count = count.saturating_add(1);
        }
    }
    count
}

#[test]
fn few_records_stay(rt: HostRuntime) -> Result<(), Fail> {
    let alloc = rt.alloc();
    let beats = [b'b'; 200];
    let done = what_is_left(&rt, alloc, 0, 10, &beats)?;
    expect_eq!(
        (done.counted, done.kept <= 75, lines_in(&done.text)),
        (200, true, 201)
    )
}
