//! Lines of events that have a frame, short and long, written and read again.

use crate::samples::history_in;
use cg_core::Event;
use cg_journal::EventLine;
use cg_links::{Counted, CountingLink};
use cg_messages::{Ack2, OwnerDelta};
use cg_testing::{B, delta, endpoint, expect_eq, long_text, state};
use std::alloc::Global;
use std::test::Fail;

const LIFE: &str = "life 10.0.0.1:7000 9 1000 2000 60000 18421 - c1\n";

// A delta with a text of 4,096 bytes, of the owner with this number from B on.
fn owner_delta(alloc: Global, number: u16) -> Result<OwnerDelta, Fail> {
    let text = long_text(alloc, 4096)?;
    let mut states = Vec::new(alloc);
    states.push(state(alloc, 3, 2, text.as_str())?)?;
    Ok(OwnerDelta {
        endpoint: endpoint(B.saturating_add(number)),
        delta: delta((1, 0, 2), states)?,
    })
}

// The line of the ACK2 of so many such deltas.
fn line_of(alloc: Global, count: u16) -> Result<EventLine, Fail> {
    let mut deltas = Vec::new(alloc);
    for number in 0..count {
        deltas.push(owner_delta(alloc, number)?)?;
    }
    let m = Ack2::new(deltas).ok_or("an ACK2")?;
    Ok(EventLine::new(alloc, &Event::Ack2 { now: 1000, m })?)
}

// The number of records that a life with these further bytes has.
fn records_in(alloc: Global, line: &[u8]) -> Result<usize, Fail> {
    let mut text = LIFE.as_bytes().to_vec(alloc)?;
    text.extend_from_slice(line)?;
    let history = history_in(alloc, text.as_slice())?;
    Ok(history.records().len())
}

// Writes the line of so many deltas: its length, the writes, the flushes, the bytes written, and the records read.
fn written(alloc: Global, count: u16) -> Result<(usize, u64, u64, usize, usize), Fail> {
    let line = line_of(alloc, count)?;
    let length = line.length();
    let mut writer = Counted::new(CountingLink::new(Vec::new(alloc)));
    line.write_and_flush(&mut writer)?;
    let link = writer.into_link();
    let (writes, flushes) = (link.writes(), link.flushes());
    let bytes = link.into_link();
    let records = records_in(alloc, &bytes)?;
    Ok((length, writes, flushes, bytes.len(), records))
}

#[test]
fn lines_are_written_in_pieces(rt: HostRuntime) -> Result<(), Fail> {
    // a frame of 8 + 7 * 4,122 bytes: one piece
    let short = written(rt.alloc(), 7)?;
    expect_eq!(short, (57_735, 1, 1, 57_735, 1))?;
    // a frame of 8 + 16 * 4,122 bytes: the line's begin, digits of 32,768, 32,768 and 424 bytes, and its end
    let long = written(rt.alloc(), 16)?;
    expect_eq!(long, (131_931, 5, 1, 131_931, 1))
}
