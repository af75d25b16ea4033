//! `read_all` and `write_bytes` over links of which each call fails in turn, and over links that move a byte a call.

use cg_links::{Counted, CountingLink, FailingLink, SlowLink, read_all, write_bytes};
use cg_testing::expect_eq;
use cg_types::Fault;
use std::alloc::Global;
use std::io::Write;
use std::test::Fail;

// Makes bytes, none of which is the same as the one before it.
fn many(alloc: Global, count: usize) -> Result<Vec<u8>, Fail> {
    let mut bytes = Vec::new(alloc);
    for i in 0..count {
        bytes.push((i % 251) as u8)?;
    }
    Ok(bytes)
}

// The result of `read_all`: the bytes or the fault, and the calls and the failures counted.
type WasRead = (Option<usize>, Option<Fault>, u64, u64);

// Reads these bytes, a byte a call, of which the one of this number fails; the bytes have to be those sent.
fn read_slowly(alloc: Global, sent: &[u8], turn: u64) -> WasRead {
    let mut reader = Counted::new(FailingLink::new(SlowLink::new(sent), turn));
    let came = read_all(alloc, &mut reader);
    let calls = reader.calls();
    let failed = reader.failed();
    match came {
        Ok(bytes) => {
            let same = bytes.as_slice() == sent;
            (
                if same { Some(bytes.len()) } else { None },
                None,
                calls,
                failed,
            )
        }
        Err(fault) => (None, Some(fault), calls, failed),
    }
}

#[test]
fn each_read_fails_in_turn(rt: HostRuntime) -> Result<(), Fail> {
    let sent = b"some bytes".as_slice();
    for turn in 1..12 {
        expect_eq!(
            read_slowly(rt.alloc(), sent, turn),
            (None, Some(Fault::ReadFault), turn, 1)
        )?;
    }
    expect_eq!(read_slowly(rt.alloc(), sent, 12), (Some(10), None, 11, 0))?;
    expect_eq!(read_slowly(rt.alloc(), sent, 0), (Some(10), None, 11, 0))
}

#[test]
fn a_failed_read_leaves_what_follows(rt: HostRuntime) -> Result<(), Fail> {
    let mut reader = Counted::new(FailingLink::new(SlowLink::new(b"some bytes".as_slice()), 5));
    let first = read_all(rt.alloc(), &mut reader).err();
    let rest = read_all(rt.alloc(), &mut reader)?;
    expect_eq!(first, Some(Fault::ReadFault))?;
    expect_eq!(rest.as_slice(), b" bytes".as_slice())
}

// Returns the number of reads, and whether all bytes came.
fn read_in_pieces(alloc: Global, count: usize) -> Result<(u64, u64, bool), Fail> {
    let sent = many(alloc, count)?;
    let mut reader = Counted::new(CountingLink::new(sent.as_slice()));
    let came = read_all(alloc, &mut reader)?;
    let calls = reader.calls();
    let link = reader.into_link();
    Ok((calls, link.reads(), came.as_slice() == sent.as_slice()))
}

#[test]
fn reads_more_than_a_piece(rt: HostRuntime) -> Result<(), Fail> {
    for (count, reads) in [(0, 1), (1, 2), (4096, 2), (4097, 3), (10000, 4)] {
        expect_eq!(read_in_pieces(rt.alloc(), count)?, (reads, reads, true))?;
    }
    Ok(())
}

// The result of `write_bytes`: the number of bytes written, if they are a prefix, the fault, and the calls and the
// failures counted.
type WasWritten = (Option<usize>, Option<Fault>, u64, u64);

fn write_slowly(alloc: Global, bytes: &[u8], turn: u64) -> WasWritten {
    let mut writer = Counted::new(FailingLink::new(SlowLink::new(Vec::new(alloc)), turn));
    let fault = write_bytes(&mut writer, bytes).err();
    let calls = writer.calls();
    let failed = writer.failed();
    let written = writer.into_link().into_link().into_link();
    let is_front = bytes.starts_with(written.as_slice());
    (
        if is_front { Some(written.len()) } else { None },
        fault,
        calls,
        failed,
    )
}

#[test]
fn each_write_fails_in_turn(rt: HostRuntime) -> Result<(), Fail> {
    let bytes = b"some bytes".as_slice();
    for turn in 1..11 {
        let written = (turn as usize) - 1;
        expect_eq!(
            write_slowly(rt.alloc(), bytes, turn),
            (Some(written), Some(Fault::WriteFault), turn, 1)
        )?;
    }
    expect_eq!(write_slowly(rt.alloc(), bytes, 11), (Some(10), None, 10, 0))
}

#[test]
fn writes_at_once(rt: HostRuntime) -> Result<(), Fail> {
    let bytes = many(rt.alloc(), 10000)?;
    let mut writer = Counted::new(CountingLink::new(Vec::new(rt.alloc())));
    let fault = write_bytes(&mut writer, bytes.as_slice()).err();
    let flushed = writer.flush().is_ok();
    let counts = (writer.calls(), writer.failed(), writer.idle());
    let link = writer.into_link();
    expect_eq!((fault, flushed, counts), (None, true, (2, 0, 0)))?;
    expect_eq!((link.writes(), link.flushes()), (1, 1))?;
    expect_eq!(link.into_link().as_slice(), bytes.as_slice())
}
