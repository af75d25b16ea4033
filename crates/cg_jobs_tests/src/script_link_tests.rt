//! Scripts over links that fail at one of their calls, and over links that move a byte a call.

use cg_links::{Counted, FailingLink, SlowLink};
use cg_sim::sim;
use cg_testing::{expect, expect_eq};
use std::alloc::Global;
use std::test::Fail;

const SCRIPT: &[u8] =
    b"start 10.0.0.1:7000 9\nbeat 10.0.0.1:7000\nnonsense\nset 10.0.0.1:7000 1 NORMAL\ngossipinfo 10.0.0.1:7000";

const TEXT: &[u8] =
    b"started 10.0.0.1:7000 9\nversion 2\nfault 2 BadText\nversion 3\n/10.0.0.1:7000\n  generation:9\n  heartbeat:2\n  STATUS:3:NORMAL\n";

const STARTED: &[u8] = b"started 10.0.0.1:7000 9\n";

const STARTED_UNREAD: &[u8] = b"started 10.0.0.1:7000 9\nfault 14 ReadFault\n";

const UNREAD: &[u8] = b"fault 14 ReadFault\n";

// Tests whether the text is printed, with status 0, if each read gives a byte and each write takes one.
fn prints_slowly(alloc: Global) -> bool {
    let mut reader = Counted::new(SlowLink::new(SCRIPT));
    let mut writer = Counted::new(SlowLink::new(Vec::new(alloc)));
    let status = sim(alloc, &mut reader, &mut writer);
    status == 0 && writer.into_link().into_link().as_slice() == TEXT
}

// The text that is written, and the status, if the read of this number fails and each read gives a byte.
fn unread(alloc: Global, turn: u64) -> (Vec<u8>, u8) {
    let mut reader = Counted::new(FailingLink::new(SlowLink::new(SCRIPT), turn));
    let mut writer = Counted::new(Vec::new(alloc));
    let status = sim(alloc, &mut reader, &mut writer);
    (writer.into_link(), status)
}

// Tests whether that is a prefix of the text that ends with a line feed, or is empty, and then the fault.
fn is_cut(written: &[u8]) -> bool {
    let Some(front) = written.strip_suffix(UNREAD) else {
        return false;
    };
    TEXT.starts_with(front) && (front.is_empty() || front.ends_with(b"\n"))
}

#[test]
fn a_failed_read_ends_the_script(rt: HostRuntime) -> Result<(), Fail> {
    let reads = SCRIPT.len() as u64 + 1;
    for turn in 1..=reads {
        let (written, status) = unread(rt.alloc(), turn);
        expect!(status == 1 && is_cut(&written), "{turn}")?;
    }
    // lines that were read are done before the fault; one more read is not called
    for (turn, text, due) in [
        (22, UNREAD, 1),
        (23, STARTED_UNREAD, 1),
        (reads + 1, TEXT, 0),
    ] {
        let (written, status) = unread(rt.alloc(), turn);
        expect!(status == due && written.as_slice() == text, "{turn}")?;
    }
    expect!(prints_slowly(rt.alloc()))
}

// The text that is written, and the status, if the writer's call of this number fails.
fn unwritten(alloc: Global, turn: u64) -> (Vec<u8>, u8) {
    let mut reader = Counted::new(SCRIPT);
    let mut writer = Counted::new(FailingLink::new(Vec::new(alloc), turn));
    let status = sim(alloc, &mut reader, &mut writer);
    (writer.into_link().into_link(), status)
}

// The number of reads that were made, of a byte each, if the writer's call of this number fails.
fn reads_before(alloc: Global, turn: u64) -> u64 {
    let mut reader = Counted::new(SlowLink::new(SCRIPT));
    let mut writer = Counted::new(FailingLink::new(Vec::new(alloc), turn));
    let _ = sim(alloc, &mut reader, &mut writer);
    reader.calls()
}

#[test]
fn a_failed_write_leaves_a_front(rt: HostRuntime) -> Result<(), Fail> {
    // A write and a flush for each of the five lines, each answered before the next is read; one more read meets the end,
    // since the last line has no line feed.
    for (turn, reads) in [
        (1, 22),
        (2, 22),
        (3, 41),
        (4, 41),
        (5, 50),
        (6, 50),
        (7, 77),
        (8, 77),
        (9, 102),
        (10, 102),
    ] {
        expect_eq!(reads_before(rt.alloc(), turn), reads, "{turn}")?;
        let (written, status) = unwritten(rt.alloc(), turn);
        expect!(status == 1 && TEXT.starts_with(&written), "{turn}")?;
    }
    // each line is written before the next; one more call is not made
    for (turn, text, due) in [(3, STARTED, 1), (11, TEXT, 0)] {
        let (written, status) = unwritten(rt.alloc(), turn);
        expect!(status == due && written.as_slice() == text, "{turn}")?;
    }
    Ok(())
}
