//! The worked exchange over links of which each call fails in turn, which move a byte a call, or which take none.

use crate::samples::{
    ACK_IN, ACK_OUT, ACK2_IN, ACK2_OUT, SYN_IN, SYN_OUT, a, b, initiate_over, joined, respond_over,
    syn,
};
use cg_engine::{Broken, Counted, Ended, FailingLink, FullLink, SlowLink};
use cg_testing::{expect, expect_eq};
use cg_types::Fault;
use std::alloc::Global;
use std::test::Fail;

// The result of an exchange, the failures counted at both links, and the bytes written.
type Came = (Result<Ended, Broken>, u64, u64, Vec<u8>);

// Runs B's part, a byte a call; the read of one number fails, or the write or flush of another.
fn responded(alloc: Global, read: u64, write: u64) -> Result<Came, Fail> {
    let bytes = joined(alloc, &[SYN_IN, ACK2_IN])?;
    let mut gate = b(alloc)?;
    let input = FailingLink::new(SlowLink::new(bytes.as_slice()), read);
    let output = FailingLink::new(SlowLink::new(Vec::new(alloc)), write);
    let (ended, reader, writer) = respond_over(alloc, &mut gate, 1000, input, output);
    let failed = writer.failed();
    Ok((
        ended,
        reader.failed(),
        failed,
        writer.into_link().into_link().into_link(),
    ))
}

// Runs A's part in the same way.
fn initiated(alloc: Global, read: u64, write: u64) -> Result<Came, Fail> {
    let mut gate = a(alloc)?;
    let opening = syn(alloc)?;
    let input = FailingLink::new(SlowLink::new(ACK_IN), read);
    let output = FailingLink::new(SlowLink::new(Vec::new(alloc)), write);
    let (ended, reader, writer) = initiate_over(alloc, &mut gate, 1000, &opening, input, output);
    let failed = writer.failed();
    Ok((
        ended,
        reader.failed(),
        failed,
        writer.into_link().into_link().into_link(),
    ))
}

// Returns `true` if an exchange had this result, with these failures, and wrote this number of bytes of a text.
fn is(
    came: &Came,
    ended: Result<Ended, Broken>,
    failed: (u64, u64),
    text: &[u8],
    count: usize,
) -> bool {
    let (is_ended, read, write, written) = came;
    let is_front = text.starts_with(written.as_slice()) && written.len() == count;
    *is_ended == ended && (*read, *write) == failed && is_front
}

fn broken(done: u32, fault: Fault) -> Result<Ended, Broken> {
    Err(Broken { done, fault })
}

// The SYN has 26 bytes, the ACK2 27.
#[test]
fn each_read_of_b_fails_in_turn(rt: HostRuntime) -> Result<(), Fail> {
    for turn in 1..54 {
        let came = responded(rt.alloc(), turn, 0)?;
        let (done, count) = if turn <= 26 { (0, 0) } else { (1, 43) };
        expect!(
            is(
                &came,
                broken(done, Fault::ReadFault),
                (1, 0),
                ACK_OUT,
                count
            ),
            "read {turn}"
        )?;
    }
    let came = responded(rt.alloc(), 54, 0)?;
    expect!(is(&came, Ok(Ended::Whole), (0, 0), ACK_OUT, 43))
}

// The 43 bytes of the ACK, and the flush.
#[test]
fn each_write_of_b_fails_in_turn(rt: HostRuntime) -> Result<(), Fail> {
    for turn in 1..45 {
        let came = responded(rt.alloc(), 0, turn)?;
        expect!(
            is(
                &came,
                broken(1, Fault::WriteFault),
                (0, 1),
                ACK_OUT,
                (turn as usize) - 1
            ),
            "write {turn}"
        )?;
    }
    let came = responded(rt.alloc(), 0, 45)?;
    expect!(is(&came, Ok(Ended::Whole), (0, 0), ACK_OUT, 43))
}

#[test]
fn each_read_of_a_fails_in_turn(rt: HostRuntime) -> Result<(), Fail> {
    for turn in 1..44 {
        let came = initiated(rt.alloc(), turn, 0)?;
        expect!(
            is(&came, broken(0, Fault::ReadFault), (1, 0), SYN_OUT, 26),
            "read {turn}"
        )?;
    }
    let came = initiated(rt.alloc(), 44, 0)?;
    let all = joined(rt.alloc(), &[SYN_OUT, ACK2_OUT])?;
    expect!(is(&came, Ok(Ended::Whole), (0, 0), all.as_slice(), 53))
}

// The 26 bytes of the SYN and a flush, and the 27 of the ACK2 and a flush.
#[test]
fn each_write_of_a_fails_in_turn(rt: HostRuntime) -> Result<(), Fail> {
    let all = joined(rt.alloc(), &[SYN_OUT, ACK2_OUT])?;
    for turn in 1..56 {
        let came = initiated(rt.alloc(), 0, turn)?;
        let (done, count) = if turn <= 27 {
            (0, turn - 1)
        } else {
            (1, turn - 2)
        };
        expect!(
            is(
                &came,
                broken(done, Fault::WriteFault),
                (0, 1),
                all.as_slice(),
                count as usize
            ),
            "write {turn}"
        )?;
    }
    let came = initiated(rt.alloc(), 0, 56)?;
    expect!(is(&came, Ok(Ended::Whole), (0, 0), all.as_slice(), 53))
}

// The result of an exchange whose writer takes nothing: its end, the number of owners that the node then holds, and the
// writer's calls, failures and idle writes.
type Unwritten = (Result<Ended, Broken>, usize, [u64; 3]);

fn counts(writer: &Counted<FullLink>) -> [u64; 3] {
    [writer.calls(), writer.failed(), writer.idle()]
}

fn responded_to_nobody(alloc: Global) -> Result<Unwritten, Fail> {
    let mut gate = b(alloc)?;
    let (ended, _reader, writer) = respond_over(alloc, &mut gate, 1000, SYN_IN, FullLink);
    Ok((ended, gate.node().table().owners().len(), counts(&writer)))
}

fn initiated_to_nobody(alloc: Global) -> Result<Unwritten, Fail> {
    let mut gate = a(alloc)?;
    let opening = syn(alloc)?;
    let (ended, _reader, writer) = initiate_over(
        alloc, &mut gate, 1000, &opening, ACK_IN, FullLink,
    );
    Ok((ended, gate.node().table().owners().len(), counts(&writer)))
}

#[test]
fn a_write_that_takes_nothing_breaks_off(rt: HostRuntime) -> Result<(), Fail> {
    let answered = responded_to_nobody(rt.alloc())?;
    expect_eq!(answered, (broken(1, Fault::WriteFault), 1, [1, 0, 1]))?;
    let begun = initiated_to_nobody(rt.alloc())?;
    expect_eq!(begun, (broken(0, Fault::WriteFault), 1, [1, 0, 1]))
}
