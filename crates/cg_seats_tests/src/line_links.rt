//! Lines of an operator over links of which each call fails in turn.

use crate::board::{Left, left_after};
use crate::board_operators::DoesLines;
use cg_links::{Counted, FailingLink, SlowLink};
use cg_testing::{expect, expect_eq};
use cg_types::Fault;
use std::alloc::Global;
use std::sync::Wait;
use std::test::Fail;

const INPUT: &[u8] = b"set 3 x\ndigests\n";

const TEXT: &[u8] = b"version 2\n10.0.0.1:7000 9 2\n";

// The text written a byte a call while the read of a number fails, or the write of a number, and the operator's result.
fn told<R: Wait>(rt: &R, alloc: Global, read: u64, write: u64) -> Result<(Vec<u8>, Left), Fail> {
    let mut work = DoesLines {
        reader: Counted::new(FailingLink::new(SlowLink::new(INPUT), read)),
        writer: Counted::new(FailingLink::new(SlowLink::new(Vec::new(alloc)), write)),
    };
    let left = left_after(rt, alloc, &mut work)?;
    let DoesLines { writer, .. } = work;
    Ok((writer.into_link().into_link().into_link(), left))
}

// Tests whether a read that fails leaves the text of the lines that were read whole.
fn is_cut<R: Wait>(rt: &R, alloc: Global, read: u64) -> Result<bool, Fail> {
    let (text, (fault, records, confirmed)) = told(rt, alloc, read, 0)?;
    let lines = if read <= 8 {
        0
    } else if read <= 16 {
        1
    } else {
        2
    };
    let written = match lines {
        0 => 0,
        1 => 10,
        _ => TEXT.len(),
    };
    let done = usize::from(lines > 0);
    Ok(
        text.as_slice() == &TEXT[..written]
            && fault == Some(Fault::ReadFault)
            && (records, confirmed) == (done, done),
    )
}

#[test]
fn each_read_fails_in_turn(rt: HostRuntime) -> Result<(), Fail> {
    // the reads of 16 bytes, and the one that meets the end
    for read in 1..18 {
        let is_cut = is_cut(&rt, rt.alloc(), read)?;
        expect!(is_cut, "read {read}")?;
    }
    Ok(())
}

// Tests whether a write that fails leaves a prefix of the text, and the record of the line.
fn stops<R: Wait>(rt: &R, alloc: Global, write: u64) -> Result<bool, Fail> {
    let (text, (fault, records, confirmed)) = told(rt, alloc, 0, write)?;
    Ok(
        TEXT.starts_with(text.as_slice())
            && text.len() < TEXT.len() + 1
            && fault == Some(Fault::WriteFault)
            && (records, confirmed) == (1, 1),
    )
}

#[test]
fn each_write_fails_in_turn(rt: HostRuntime) -> Result<(), Fail> {
    // the writes of 10 bytes and of 18, and a flush after each
    for write in 1..31 {
        let stops = stops(&rt, rt.alloc(), write)?;
        expect!(stops, "write {write}")?;
    }
    Ok(())
}

#[test]
fn all_is_written_where_no_call_fails(rt: HostRuntime) -> Result<(), Fail> {
    let (text, left) = told(&rt, rt.alloc(), 18, 31)?;
    expect!(text.as_slice() == TEXT)?;
    expect_eq!(left, (None, 1, 1))
}
