//! `answer` over links of which each call fails in turn or moves a byte, and over inputs of one chunk and of two.

use cg_links::{Counted, CountingLink, FailingLink, SlowLink};
use cg_testing::{expect, expect_eq};
use cg_text::written;
use cg_tool::answer;
use std::alloc::{AllocError, Global};
use std::test::Fail;

const INPUT: &[u8] = b"10.0.0.2:7000 5 c1\n000000080101026331010000\n";

const ANSWER: &[u8] = b"000000190302000000010a0000021b5800000005000000000000000100\n";

// Answers a byte a call, while the read of a number fails, or the write of a number: the text, the status, and the
// failures that were counted at both links.
fn answer_slowly(alloc: Global, read: u64, write: u64) -> (Vec<u8>, (u8, u64, u64)) {
    let mut reader = Counted::new(FailingLink::new(SlowLink::new(INPUT), read));
    let mut writer = Counted::new(FailingLink::new(SlowLink::new(Vec::new(alloc)), write));
    let status = answer(alloc, &mut reader, &mut writer);
    let failed = writer.failed();
    let written = writer.into_link().into_link().into_link();
    (written, (status, reader.failed(), failed))
}

// Tests whether such a run writes this text and has these numbers.
fn gives(alloc: Global, read: u64, write: u64, due: &[u8], numbers: (u8, u64, u64)) -> bool {
    let (text, found) = answer_slowly(alloc, read, write);
    text.as_slice() == due && found == numbers
}

// Tests whether the run in which a write fails leaves a prefix of the answer, of one byte less than writes, and ends
// with 1.
fn stops(alloc: Global, write: u64) -> bool {
    let (text, found) = answer_slowly(alloc, 0, write);
    let is_front = ANSWER.starts_with(text.as_slice()) && text.len() as u64 + 1 == write;
    is_front && found == (1, 0, 1)
}

#[test]
fn each_call_fails_in_turn(rt: HostRuntime) -> Result<(), Fail> {
    let unread = b"fault 14 ReadFault\n";
    // the reads of 44 bytes, and the one that meets the end
    for turn in 1..46 {
        expect!(gives(rt.alloc(), turn, 0, unread, (1, 1, 0)), "read {turn}")?;
    }
    // the writes of 59 bytes, and the flush
    for turn in 1..61 {
        expect!(stops(rt.alloc(), turn), "write {turn}")?;
    }
    // one more of each is not called
    expect!(gives(rt.alloc(), 46, 0, ANSWER, (0, 0, 0)))?;
    expect!(gives(rt.alloc(), 0, 61, ANSWER, (0, 0, 0)))
}

// Writes out two bytes while the call of a number fails: the number of bytes written, `true` if all was flushed, and the
// status.
fn written_out(alloc: Global, turn: u64) -> (usize, bool, u8) {
    let mut writer = Counted::new(FailingLink::new(SlowLink::new(Vec::new(alloc)), turn));
    let status = written(&mut writer, b"ab", 0);
    let is_flushed = writer.is_flushed();
    let text = writer.into_link().into_link().into_link();
    (text.len(), is_flushed, status)
}

#[test]
fn a_text_is_written_and_flushed(rt: HostRuntime) -> Result<(), Fail> {
    for (turn, due) in [
        (1, (0, true, 1)),
        (2, (1, false, 1)),
        (3, (2, false, 1)),
        (4, (2, true, 0)),
    ] {
        expect_eq!(written_out(rt.alloc(), turn), due, "call {turn}")?;
    }
    Ok(())
}

// Answers an input: `true` if the text is the expected one, the status, and the number of reads.
fn answered(alloc: Global, input: &[u8], due: &[u8]) -> (bool, u8, u64) {
    let mut reader = Counted::new(CountingLink::new(input));
    let mut writer = Counted::new(Vec::new(alloc));
    let status = answer(alloc, &mut reader, &mut writer);
    let is_due = writer.into_link().as_slice() == due;
    (is_due, status, reader.into_link().reads())
}

// A text with the digits of 256 digests, or requests, of endpoints 10.0.1.0:7000 and on in it, all of this version.
fn text_of_256(alloc: Global, head: &str, version: u32, tail: &str) -> Result<String, AllocError> {
    let mut text = String::from_str(alloc, head)?;
    for i in 0..256u16 {
        write!(text, "0a0001{i:02x}1b5800000009{version:08x}")?;
    }
    text.push_str(tail)?;
    Ok(text)
}

// The answer to a SYN with 256 digests: a request of each, from 0, and the node's own entry.
fn answered_256(alloc: Global) -> Result<(bool, u8, u64), AllocError> {
    let input = text_of_256(
        alloc,
        "10.0.0.2:7000 5 c1\n00000e080101026331010100",
        1,
        "\n",
    )?;
    let own = "00010a0000021b5800000005000000000000000100\n";
    let due = text_of_256(alloc, "00000e1903020100", 0, own)?;
    Ok(answered(alloc, input.as_bytes(), due.as_bytes()))
}

// 44 bytes are read in one chunk, and 7,212 in two; a further read meets the end.
#[test]
fn an_input_of_a_piece_and_of_two(rt: HostRuntime) -> Result<(), Fail> {
    expect_eq!(answered(rt.alloc(), INPUT, ANSWER), (true, 0, 2))?;
    let answered = answered_256(rt.alloc())?;
    expect_eq!(answered, (true, 0, 3))
}
