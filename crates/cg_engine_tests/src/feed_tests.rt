//! Streams in chunks: the bytes that a feed wants, its answers once it has found a fault, and the longest message.

use crate::frame_tests::is_written_as;
use cg_frames::{Feed, Message};
use cg_testing::{expect, expect_eq};
use cg_types::{Cause, Fault};
use std::alloc::{AllocError, Global};
use std::test::Fail;

// A SYN that names nothing.
const EMPTY_SYN: &[u8] = b"\0\0\0\x08\x01\x01\x02c1\x01\0\0";

// The number of messages of a chunk, the fault, the bytes wanted then, and the end that the stream may have.
type Given = (usize, Option<Fault>, usize, Result<(), Fault>);

// Pushes one more chunk, and returns its results.
fn pushed(feed: &mut Feed, piece: &[u8]) -> Result<Given, Fault> {
    let fed = feed.push(piece)?;
    Ok((fed.messages.len(), fed.fault, feed.wants(), feed.end()))
}

#[test]
fn wants_what_is_lacking(rt: HostRuntime) -> Result<(), Fail> {
    let mut feed = Feed::new(rt.alloc());
    expect_eq!(feed.wants(), 4)?;
    for (piece, count, wants) in [
        (b"\0\0".as_slice(), 0, 2),
        (b"\0\x16", 0, 22),
        (b"\x01", 0, 21),
        (
            b"\x01\x02c1\x01\0\x01\x0a\0\0\x01\x1b\x58\0\0\0\x09\0\0\0",
            0,
            1,
        ),
        (b"\x01", 1, 4),
    ] {
        let (given, fault, then, _) = pushed(&mut feed, piece)?;
        expect_eq!((given, fault, then), (count, None, wants))?;
    }
    expect_eq!(feed.end(), Ok(()))
}

// Returns `true` if a feed finds a fault in these bytes, after this number of messages, and answers all later chunks
// with it.
fn stands(alloc: Global, bytes: &[u8], count: usize, fault: Fault) -> Result<bool, Fault> {
    let mut feed = Feed::new(alloc);
    let mut due = count;
    for piece in [bytes, &[], &[0], EMPTY_SYN, bytes] {
        if pushed(&mut feed, piece)? != (due, Some(fault), 0, Err(fault)) {
            return Ok(false);
        }
        due = 0;
    }
    Ok(true)
}

#[test]
fn faults_stand(rt: HostRuntime) -> Result<(), Fail> {
    for (bytes, count, place, cause) in [
        (
            b"\0\0\0\x08\x01\x01\x02c1\x01\0\0\0\x4c\x4b\x41\x01".as_slice(),
            1,
            0,
            Cause::Length,
        ),
        (
            b"\0\0\0\x08\x02\x01\x02c1\x01\0\0\x02\x62\x5a\x01",
            1,
            0,
            Cause::Length,
        ),
        (b"\0\0\0\0", 0, 4, Cause::Short),
        (b"\0\0\0\x09\x01\x01\x02c1\x01\0\0\0", 0, 12, Cause::Rest),
        (
            b"\0\0\0\x22\x01\x02\0\x02\x0a\0\0\x01\x1b\x58\0\0\0\x09\0\0\0\0\x0a\0\0\x01\x1b\x58\0\0\0\x09\0\0\0\0\0\0",
            0,
            22,
            Cause::Order,
        ),
        (
            b"\0\0\0\x1f\x01\x03\0\x01\x0a\0\0\x01\x1b\x58\0\0\0\x09\0\0\0\x02\0\0\0\x03\x01\x01\0\0\0\x02\0\x01N",
            0,
            28,
            Cause::Version,
        ),
    ] {
        let fault = Fault::BadFrame { place, cause };
        expect!(stands(rt.alloc(), bytes, count, fault)?, "{fault}")?;
    }
    Ok(())
}

// The last two bytes of an endpoint's address.
fn address(number: u16) -> [u8; 2] {
    number.to_be_bytes()
}

// Adds the delta of an endpoint that has as many states as there may be, each with this text of 4,096 bytes.
fn add_longest_delta(frame: &mut Vec<u8>, number: u16, text: &[u8]) -> Result<(), AllocError> {
    frame.extend_from_slice(&[10, 0])?;
    frame.extend_from_slice(&address(number))?;
    frame.extend_from_slice(b"\x1b\x58\0\0\0\x05\0\0\0\0\0\0\0\x01\x10")?;
    for key in 1..=16u8 {
        frame.extend_from_slice(&[key, 0, 0, 0, 2, 16, 0])?;
        frame.extend_from_slice(text)?;
    }
    Ok(())
}

// Returns the frame of the longest message: an ACK with requests of 512 endpoints, and of each the longest delta.
fn longest(alloc: Global) -> Result<Vec<u8>, AllocError> {
    let mut frame = Vec::new(alloc);
    frame.extend_from_slice(b"\x02\x01\x22\x06\x03\x02\x02\0")?;
    for number in 0..512u16 {
        frame.extend_from_slice(&[10, 0])?;
        frame.extend_from_slice(&address(number))?;
        frame.extend_from_slice(b"\x1b\x58\0\0\0\x09\0\0\0\0")?;
    }
    frame.extend_from_slice(b"\x02\0")?;
    let mut text = Vec::new(alloc);
    text.resize(4_096, b'x')?;
    for number in 0..512u16 {
        add_longest_delta(&mut frame, number, &text)?;
    }
    Ok(frame)
}

// Returns the number of the messages that are written as this frame.
fn written_as(alloc: Global, messages: &[Message], frame: &[u8]) -> Result<usize, Fault> {
    let mut count: usize = 0;
    for message in messages {
        if is_written_as(alloc, message, frame)? {
            count = count.saturating_add(1);
        }
    }
    Ok(count)
}

// Pushes a frame in chunks; returns the number of messages, the number of them that are written as that frame, and the
// end that the stream may have.
fn given_in_pieces(
    alloc: Global,
    frame: &[u8],
) -> Result<(usize, usize, Result<(), Fault>), Fault> {
    let mut feed = Feed::new(alloc);
    let (mut given, mut same) = (0usize, 0usize);
    for piece in frame.chunks(4096) {
        let fed = feed.push(piece)?;
        given = given.saturating_add(fed.messages.len());
        same = same.saturating_add(written_as(alloc, &fed.messages, frame)?);
    }
    Ok((given, same, feed.end()))
}

#[test]
fn longest_message_in_pieces(rt: HostRuntime) -> Result<(), Fail> {
    let frame = longest(rt.alloc())?;
    let given = given_in_pieces(rt.alloc(), &frame)?;
    expect_eq!((frame.len(), given), (4 + 33_628_678, (1, 1, Ok(()))))
}
