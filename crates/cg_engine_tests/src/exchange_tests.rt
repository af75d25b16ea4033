//! The worked exchange, and its end if the other side sends too little, another message, or a fault.

use crate::samples::{
    ACK_IN, ACK_OUT, ACK2_IN, ACK2_OUT, SYN_IN, SYN_OUT, a, b, front, initiate_over, joined,
    respond_over, syn,
};
use cg_engine::{Broken, Ended};
use cg_links::{CountingLink, FailingLink};
use cg_testing::{expect, expect_eq};
use cg_types::{Cause, Fault};
use std::alloc::Global;
use std::test::Fail;

// The result of an exchange, the number of owners that the node then holds, the bytes left, and the bytes written.
type Came = (Result<Ended, Broken>, usize, usize, Vec<u8>);

fn responded(alloc: Global, input: &[u8]) -> Result<Came, Fail> {
    let mut gate = b(alloc)?;
    let (ended, reader, writer) = respond_over(alloc, &mut gate, 1000, input, Vec::new(alloc));
    Ok((
        ended,
        gate.node().table().owners().len(),
        reader.into_link().len(),
        writer.into_link(),
    ))
}

fn initiated(alloc: Global, input: &[u8]) -> Result<Came, Fail> {
    let mut gate = a(alloc)?;
    let opening = syn(alloc)?;
    let (ended, reader, writer) = initiate_over(
        alloc,
        &mut gate,
        1000,
        &opening,
        input,
        Vec::new(alloc),
    );
    Ok((
        ended,
        gate.node().table().owners().len(),
        reader.into_link().len(),
        writer.into_link(),
    ))
}

// Returns `true` if B, on this input, ends with this, holds this number of owners, leaves this number of bytes, and
// writes this text.
fn responds(
    alloc: Global,
    input: &[&[u8]],
    due: (Result<Ended, Broken>, usize, usize),
    text: &[u8],
) -> Result<bool, Fail> {
    let bytes = joined(alloc, input)?;
    let (ended, owners, left, written) = responded(alloc, bytes.as_slice())?;
    Ok((ended, owners, left) == due && written.as_slice() == text)
}

fn initiated_on(alloc: Global, input: &[&[u8]]) -> Result<Came, Fail> {
    let bytes = joined(alloc, input)?;
    initiated(alloc, bytes.as_slice())
}

fn initiates(
    alloc: Global,
    input: &[&[u8]],
    due: (Result<Ended, Broken>, usize, usize),
    text: &[&[u8]],
) -> Result<bool, Fail> {
    let (ended, owners, left, written) = initiated_on(alloc, input)?;
    let written_due = joined(alloc, text)?;
    Ok((ended, owners, left) == due && written.as_slice() == written_due.as_slice())
}

fn broken(done: u32, fault: Fault) -> Result<Ended, Broken> {
    Err(Broken { done, fault })
}

const UNEXPECTED: Fault = Fault::BadFrame {
    place: 5,
    cause: Cause::Unexpected,
};

#[test]
fn b_responds(rt: HostRuntime) -> Result<(), Fail> {
    let alloc = rt.alloc();
    expect!(responds(alloc, &[SYN_IN, ACK2_IN], (Ok(Ended::Whole), 2, 0), ACK_OUT)?)?;
    expect!(responds(
        alloc,
        &[SYN_OUT, ACK2_OUT],
        (Ok(Ended::Whole), 2, 0),
        ACK_OUT
    )?)?;
    expect!(responds(
        alloc,
        &[SYN_IN, ACK2_OUT],
        (Ok(Ended::Whole), 2, 0),
        ACK_OUT
    )?)?;
    // bytes after the last message stay unread
    expect!(responds(
        alloc,
        &[SYN_IN, ACK2_IN, SYN_IN, b"\xff"],
        (Ok(Ended::Whole), 2, 27),
        ACK_OUT
    )?)
}

#[test]
fn b_finds_the_end(rt: HostRuntime) -> Result<(), Fail> {
    let alloc = rt.alloc();
    expect!(responds(alloc, &[], (Ok(Ended::Closed(0)), 1, 0), b"")?)?;
    expect!(responds(alloc, &[SYN_IN], (Ok(Ended::Closed(1)), 1, 0), ACK_OUT)?)?;
    expect!(responds(
        alloc,
        &[front(SYN_IN, 10)],
        (broken(0, Fault::Truncated), 1, 0),
        b""
    )?)?;
    expect!(responds(
        alloc,
        &[SYN_IN, front(ACK2_IN, 26)],
        (broken(1, Fault::Truncated), 1, 0),
        ACK_OUT
    )?)
}

#[test]
fn b_reads_another_message(rt: HostRuntime) -> Result<(), Fail> {
    let alloc = rt.alloc();
    expect!(responds(
        alloc,
        &[ACK_IN, ACK2_IN],
        (broken(0, UNEXPECTED), 1, 27),
        b""
    )?)?;
    expect!(responds(alloc, &[ACK2_IN], (broken(0, UNEXPECTED), 1, 0), b"")?)?;
    expect!(responds(
        alloc,
        &[SYN_IN, SYN_IN, ACK2_IN],
        (broken(1, UNEXPECTED), 1, 27),
        ACK_OUT
    )?)
}

#[test]
fn b_reads_a_fault(rt: HostRuntime) -> Result<(), Fail> {
    let alloc = rt.alloc();
    let count = Fault::BadFrame {
        place: 10,
        cause: Cause::Count,
    };
    let bad = b"\x00\x00\x00\x08\x01\x01\x02c1\x01\x01\x01".as_slice();
    expect!(responds(alloc, &[bad, SYN_IN], (broken(0, count), 1, 26), b"")?)?;
    let long = Fault::BadFrame {
        place: 0,
        cause: Cause::Length,
    };
    expect!(responds(
        alloc,
        &[SYN_IN, b"\x7f\xff\xff\xff", ACK2_IN],
        (broken(1, long), 1, 27),
        ACK_OUT
    )?)
}

fn wrong(place: usize, cause: Cause) -> Result<Ended, Broken> {
    broken(0, Fault::BadFrame { place, cause })
}

// A frame with a fault is no message, so its fault comes before that of another kind.
#[test]
fn b_reads_faults_of_each_kind(rt: HostRuntime) -> Result<(), Fail> {
    let alloc = rt.alloc();
    let short = b"\x00\x00\x00\x08\x01\x01\x02c1\x01\x00\x01".as_slice();
    expect!(responds(
        alloc,
        &[short, SYN_IN],
        (wrong(12, Cause::Short), 1, 26),
        b""
    )?)?;
    let port =
        b"\x00\x00\x00\x17\x01\x03\x00\x01\x0a\x00\x00\x01\x00\x00\x00\x00\x00\x09\x00\x00\x00\x00\x00\x00\x00\x01\x00".as_slice();
    expect!(responds(
        alloc,
        &[port, SYN_IN],
        (wrong(8, Cause::Endpoint), 1, 26),
        b""
    )?)?;
    let empty =
        b"\x00\x00\x00\x17\x01\x03\x00\x01\x0a\x00\x00\x01\x1b\x58\x00\x00\x00\x09\x00\x00\x00\x01\x00\x00\x00\x01\x00".as_slice();
    expect!(responds(
        alloc,
        &[empty, SYN_IN],
        (wrong(8, Cause::Empty), 1, 26),
        b""
    )?)
}

#[test]
fn b_is_of_another_cluster(rt: HostRuntime) -> Result<(), Fail> {
    let other = b"\x00\x00\x00\x08\x01\x01\x02c2\x01\x00\x00".as_slice();
    expect!(responds(
        rt.alloc(),
        &[other, ACK2_IN],
        (broken(0, Fault::OtherCluster), 1, 27),
        b""
    )?)
}

#[test]
fn a_initiates(rt: HostRuntime) -> Result<(), Fail> {
    let alloc = rt.alloc();
    expect!(initiates(
        alloc,
        &[ACK_OUT],
        (Ok(Ended::Whole), 2, 0),
        &[SYN_OUT, ACK2_OUT]
    )?)?;
    expect!(initiates(
        alloc,
        &[ACK_IN],
        (Ok(Ended::Whole), 2, 0),
        &[SYN_OUT, ACK2_OUT]
    )?)?;
    expect!(initiates(
        alloc,
        &[ACK_IN, SYN_IN],
        (Ok(Ended::Whole), 2, 26),
        &[SYN_OUT, ACK2_OUT]
    )?)
}

#[test]
fn a_finds_no_answer(rt: HostRuntime) -> Result<(), Fail> {
    let alloc = rt.alloc();
    expect!(initiates(alloc, &[], (Ok(Ended::Closed(0)), 1, 0), &[SYN_OUT])?)?;
    expect!(initiates(
        alloc,
        &[front(ACK_IN, 42)],
        (broken(0, Fault::Truncated), 1, 0),
        &[SYN_OUT]
    )?)?;
    expect!(initiates(alloc, &[SYN_IN], (broken(0, UNEXPECTED), 1, 0), &[SYN_OUT])?)
}

// Returns `true` if B's writer is flushed after its part of the worked exchange, in which the call of this number
// fails.
fn is_flushed(alloc: Global, turn: u64) -> Result<bool, Fail> {
    let mut gate = b(alloc)?;
    let output = FailingLink::new(Vec::new(alloc), turn);
    let (_ended, _reader, writer) = respond_over(alloc, &mut gate, 1000, SYN_IN, output);
    Ok(writer.is_flushed())
}

#[test]
fn what_was_written_is_flushed(rt: HostRuntime) -> Result<(), Fail> {
    let alloc = rt.alloc();
    expect_eq!(
        (is_flushed(alloc, 0)?, is_flushed(alloc, 2)?),
        (true, false)
    )
}

// Returns the reads, writes and flushes of B's part of the worked exchange, and the most bytes that one read requested.
fn calls(alloc: Global) -> Result<(u64, usize, u64, u64), Fail> {
    let bytes = joined(alloc, &[SYN_IN, ACK2_IN])?;
    let mut gate = b(alloc)?;
    let input = CountingLink::new(bytes.as_slice());
    let output = CountingLink::new(Vec::new(alloc));
    let (_ended, reader, writer) = respond_over(alloc, &mut gate, 1000, input, output);
    let reader = reader.into_link();
    let writer = writer.into_link();
    Ok((
        reader.reads(),
        reader.most_asked(),
        writer.writes(),
        writer.flushes(),
    ))
}

#[test]
fn a_length_and_then_a_frame(rt: HostRuntime) -> Result<(), Fail> {
    expect_eq!(calls(rt.alloc())?, (4, 23, 1, 1))
}

#[test]
fn a_broken_exchange_says_where(rt: HostRuntime) -> Result<(), Fail> {
    let fault = Fault::Truncated;
    let told = format!(in rt.alloc(); "{}", Broken { done: 1, fault })?;
    expect_eq!(
        told.as_str(),
        "the exchange broke off after 1 events: 13 Truncated"
    )
}
