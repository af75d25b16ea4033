//! Journals and audits over links that move a byte a call, of which each call fails in turn.

use crate::audited::{A, B, ONE_RUN};
use crate::samples::history_in;
use cg_journal::{read_journal_telling, write_journal};
use cg_links::{Counted, FailingLink, SlowLink};
use cg_testing::expect_eq;
use cg_tool::audit_files;
use std::alloc::Global;
use std::test::Fail;

const TEXT: &str = "life 10.0.0.1:7000 9 1000 2000 60000 18421 - c1\nopen\nbeat\n";

// Reads while the read of a number fails: the number of records, or the line and the fault; and the number of failures.
fn read_slowly(alloc: Global, turn: u64) -> (Result<usize, (u64, u8)>, u64) {
    let mut reader = Counted::new(FailingLink::new(SlowLink::new(TEXT.as_bytes()), turn));
    let end = match read_journal_telling(alloc, &mut reader) {
        Ok(history) => Ok(history.records().len()),
        Err(unread) => Err((unread.line, unread.fault.number())),
    };
    (end, reader.failed())
}

// Writes while the call of a number fails: the number of bytes written, `true` if they are a prefix of the text, the
// number of the fault or 0, and `true` if all was flushed.
fn written_slowly(alloc: Global, turn: u64) -> Result<(usize, bool, u8, bool), Fail> {
    let history = history_in(alloc, TEXT.as_bytes())?;
    let mut writer = Counted::new(FailingLink::new(SlowLink::new(Vec::new(alloc)), turn));
    let number = match write_journal(alloc, &history, &mut writer) {
        Ok(()) => 0,
        Err(fault) => fault.number(),
    };
    let flushed = writer.is_flushed();
    let written = writer.into_link().into_link().into_link();
    let is_front = TEXT.as_bytes().starts_with(written.as_slice());
    Ok((written.len(), is_front, number, flushed))
}

// The reads of the bytes of each line, and the one that meets the end.
const LINES: [(u64, u64, u64); 4] = [(1, 49, 1), (49, 54, 2), (54, 59, 3), (59, 60, 4)];

#[test]
fn journals_over_links_that_fail(rt: HostRuntime) -> Result<(), Fail> {
    for (first, next, line) in LINES {
        for turn in first..next {
            let end = read_slowly(rt.alloc(), turn);
            expect_eq!(end, (Err((line, 14)), 1), "read {turn}")?;
        }
    }
    expect_eq!(read_slowly(rt.alloc(), 60), (Ok(2), 0))?;
    // the writes of 58 bytes, the flush, and no call
    for count in 0..58 {
        let end = written_slowly(rt.alloc(), count as u64 + 1)?;
        expect_eq!(end, (count, true, 15, count == 0), "write {count}")?;
    }
    let unflushed = written_slowly(rt.alloc(), 59)?;
    let whole = written_slowly(rt.alloc(), 60)?;
    expect_eq!(unflushed, (58, true, 15, false))?;
    expect_eq!(whole, (58, true, 0, true))
}

// No call has this number.
const NEVER: u64 = 1_000_000;

// Audits the first exchange while the read of A's journal, the read of B's and the write of these numbers fail. Returns
// the number of bytes written, `true` if they are a prefix of the expected text, `true` if they are the fault of a
// read, and the status.
fn said_slowly(alloc: Global, turns: (u64, u64, u64)) -> Result<(usize, bool, bool, u8), Fail> {
    let (opener, answerer, written) = turns;
    let mut readers = Vec::new(alloc);
    for (journal, turn) in [(A, opener), (B, answerer)] {
        let slow = SlowLink::new(journal.as_bytes());
        readers.push(Counted::new(FailingLink::new(slow, turn)))?;
    }
    let mut writer = Counted::new(FailingLink::new(SlowLink::new(Vec::new(alloc)), written));
    let status = audit_files(alloc, &mut readers, &mut writer);
    let text = writer.into_link().into_link().into_link();
    let is_front = ONE_RUN.as_bytes().starts_with(text.as_slice());
    let is_fault = text.as_slice() == "fault 14 ReadFault\n".as_bytes();
    Ok((text.len(), is_front, is_fault, status))
}

#[test]
fn audits_over_links_that_fail(rt: HostRuntime) -> Result<(), Fail> {
    // the reads of all bytes, and the one that meets the end
    for turn in 1..=A.len() as u64 + 1 {
        let end = said_slowly(rt.alloc(), (turn, NEVER, NEVER))?;
        expect_eq!(end, (19, false, true, 1), "A, read {turn}")?;
    }
    for turn in 1..=B.len() as u64 + 1 {
        let end = said_slowly(rt.alloc(), (NEVER, turn, NEVER))?;
        expect_eq!(end, (19, false, true, 1), "B, read {turn}")?;
    }
    // the writes of all bytes, and the flush
    for count in 0..=ONE_RUN.len() {
        let end = said_slowly(rt.alloc(), (NEVER, NEVER, count as u64 + 1))?;
        expect_eq!(end, (count, true, false, 1), "write {count}")?;
    }
    let whole = said_slowly(rt.alloc(), (NEVER, NEVER, NEVER))?;
    expect_eq!(whole, (ONE_RUN.len(), true, false, 0))
}
