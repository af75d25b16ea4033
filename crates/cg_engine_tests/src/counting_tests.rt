//! Calls, failures, idle writes and unflushed bytes as `Counted` counts them, beside links that count their own calls.

use cg_links::{Counted, CountingLink, FailingLink, FullLink, write_bytes};
use cg_testing::{expect, expect_eq};
use cg_types::Fault;
use std::alloc::Global;
use std::io::{Read, Write};
use std::test::Fail;

// Makes three reads, of which the one of this number fails; returns their answers, the link's count, and the counts.
fn three_reads(turn: u64) -> ([bool; 3], u64, u64, u64) {
    let mut reader = Counted::new(FailingLink::new(b"some bytes".as_slice(), turn));
    let mut piece = [0u8; 4];
    let first = reader.read(&mut piece).is_ok();
    let second = reader.read(&mut piece).is_ok();
    let third = reader.read(&mut piece).is_ok();
    let calls = reader.calls();
    let failed = reader.failed();
    let link = reader.into_link();
    ([first, second, third], link.calls(), calls, failed)
}

#[test]
fn each_read_is_passed_on_once() -> Result<(), Fail> {
    expect_eq!(three_reads(1), ([false, true, true], 3, 3, 1))?;
    expect_eq!(three_reads(2), ([true, false, true], 3, 3, 1))?;
    expect_eq!(three_reads(3), ([true, true, false], 3, 3, 1))?;
    expect_eq!(three_reads(4), ([true, true, true], 3, 3, 0))
}

// Makes a write, a flush and a write, of which the one of this number fails; returns their answers, the link's own
// counts, the counts, and the number of bytes written.
fn writes_and_a_flush(alloc: Global, turn: u64) -> ([bool; 3], [u64; 3], (u64, u64), usize) {
    let mut writer = Counted::new(FailingLink::new(CountingLink::new(Vec::new(alloc)), turn));
    let first = writer.write(b"ab").is_ok();
    let flushed = writer.flush().is_ok();
    let second = writer.write(b"cde").is_ok();
    let counts = (writer.calls(), writer.failed());
    let failing = writer.into_link();
    let calls = failing.calls();
    let link = failing.into_link();
    let own = [calls, link.writes(), link.flushes()];
    (
        [first, flushed, second],
        own,
        counts,
        link.into_link().len(),
    )
}

#[test]
fn each_write_and_flush_is_passed_on_once(rt: HostRuntime) -> Result<(), Fail> {
    for (turn, answers, own, failed, written) in [
        (1, [false, true, true], [3, 1, 1], 1, 3),
        (2, [true, false, true], [3, 2, 0], 1, 5),
        (3, [true, true, false], [3, 1, 1], 1, 2),
        (4, [true, true, true], [3, 2, 1], 0, 5),
    ] {
        expect_eq!(
            writes_and_a_flush(rt.alloc(), turn),
            (answers, own, (3, failed), written)
        )?;
    }
    Ok(())
}

#[test]
fn a_write_that_takes_nothing_is_counted() -> Result<(), Fail> {
    let mut writer = Counted::new(FullLink);
    expect_eq!(write_bytes(&mut writer, b"a"), Err(Fault::WriteFault))?;
    expect_eq!((writer.failed(), writer.idle()), (0, 1))?;
    expect_eq!(write_bytes(&mut writer, b""), Ok(()))?;
    expect_eq!(writer.idle(), 1)
}

// The write fails in the outer link, and then the flush in the inner one.
#[test]
fn failed_calls_are_counted_each(rt: HostRuntime) -> Result<(), Fail> {
    let flushes_fail = FailingLink::new(Vec::new(rt.alloc()), 1);
    let mut writer = Counted::new(FailingLink::new(flushes_fail, 1));
    expect_eq!(write_bytes(&mut writer, b"a"), Err(Fault::WriteFault))?;
    expect!(writer.flush().is_err())?;
    expect_eq!((writer.calls(), writer.failed(), writer.idle()), (2, 2, 0))
}

// Returns `true` for each of four times if nothing waits for a flush: at first, after a write of no byte, after one of
// two bytes, and after a flush. The call of this number fails.
fn flushed(alloc: Global, turn: u64) -> [bool; 4] {
    let mut writer = Counted::new(FailingLink::new(Vec::new(alloc), turn));
    let at_first = writer.is_flushed();
    let _nothing = writer.write(b"");
    let after_nothing = writer.is_flushed();
    let _some = writer.write(b"ab");
    let after_some = writer.is_flushed();
    let _flush = writer.flush();
    [at_first, after_nothing, after_some, writer.is_flushed()]
}

#[test]
fn written_bytes_wait_for_a_flush(rt: HostRuntime) -> Result<(), Fail> {
    expect_eq!(flushed(rt.alloc(), 0), [true, true, false, true])?;
    expect_eq!(flushed(rt.alloc(), 2), [true, true, true, true])?;
    expect_eq!(flushed(rt.alloc(), 3), [true, true, false, false])
}

#[test]
fn the_most_that_was_asked() -> Result<(), Fail> {
    let mut reader = CountingLink::new(b"some bytes".as_slice());
    let mut piece = [0u8; 4];
    expect!(reader.read(&mut piece).is_ok())?;
    expect!(reader.read(&mut piece[..2]).is_ok())?;
    expect_eq!((reader.reads(), reader.most_asked()), (2, 4))?;
    expect_eq!(reader.into_link(), b"ytes".as_slice())
}
