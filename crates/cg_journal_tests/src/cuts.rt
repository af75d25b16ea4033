//! Journals that are cut at each byte, and audits of their whole lines.

use crate::audited::{A, B};
use cg_cut::whole_length;
use cg_links::Counted;
use cg_testing::expect_eq;
use cg_tool::audit_files;
use std::alloc::Global;
use std::io::Read;
use std::test::Fail;

// Of how many bytes on, and up to how many, a journal of the first exchange has how many whole lines.
const A_LINES: [(u64, u64, u8); 4] = [(0, 48, 0), (48, 53, 1), (53, 149, 2), (149, 150, 3)];

const B_LINES: [(u64, u64, u8); 4] = [(0, 48, 0), (48, 105, 1), (105, 170, 2), (170, 171, 3)];

// Audits the whole lines in so many bytes of A's journal and of B's. A journal without one is no life.
fn is_one_run(alloc: Global, of_a: u64, of_b: u64) -> Result<bool, Fail> {
    let mut sources = Vec::new(alloc);
    for (text, end) in [(A, of_a), (B, of_b)] {
        let length = whole_length(&mut Counted::new(text.as_bytes().take(end)))?;
        if length > 0 {
            sources.push(Counted::new(text.as_bytes().take(length)))?;
        }
    }
    let mut writer = Counted::new(Vec::new(alloc));
    let status = audit_files(alloc, &mut sources, &mut writer);
    let text = writer.into_link();
    Ok(status == 0 && text.as_slice().ends_with(b"one run\n"))
}

// Tests whether so many lines of A's journal and of B's are one run: B's second needs A's second, A's third B's second,
// and B's third A's third.
fn are_one_run(of_a: u8, of_b: u8) -> bool {
    (of_b < 2 || of_a >= 2) && (of_a < 3 || of_b >= 2) && (of_b < 3 || of_a >= 3)
}

#[test]
fn a_journal_cut_at_each_byte(rt: HostRuntime) -> Result<(), Fail> {
    for (first, next, lines) in A_LINES {
        for end in first..next {
            let found = is_one_run(rt.alloc(), end, 170)?;
            expect_eq!(found, are_one_run(lines, 3), "A, {end} bytes")?;
        }
    }
    for (first, next, lines) in B_LINES {
        for end in first..next {
            let found = is_one_run(rt.alloc(), 149, end)?;
            expect_eq!(found, are_one_run(3, lines), "B, {end} bytes")?;
        }
    }
    Ok(())
}

#[test]
fn journals_cut_at_each_line(rt: HostRuntime) -> Result<(), Fail> {
    for (of_a, _, a) in A_LINES {
        for (of_b, _, b) in B_LINES {
            let found = is_one_run(rt.alloc(), of_a, of_b)?;
            expect_eq!(found, are_one_run(a, b), "{a} lines of A, {b} of B")?;
        }
    }
    Ok(())
}
