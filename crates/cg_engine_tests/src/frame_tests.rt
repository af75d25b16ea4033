//! Messages read from frames and written back, and frames of which bytes are missing.

use cg_frames::{Message, decode, encode, encode_borrowed, every_message_fits};
use cg_testing::expect_eq;
use cg_types::{Cause, Fault};
use std::alloc::Global;
use std::test::Fail;

// A SYN of the cluster c1 with one digest: of 10.0.0.1:7000, generation 9, newest 1.
const SYN: [u8; 26] =
    *b"\0\0\0\x16\x01\x01\x02c1\x01\0\x01\x0a\0\0\x01\x1b\x58\0\0\0\x09\0\0\0\x01";

// A SYN with no digest, and of the next frame its length alone.
const EMPTY_SYN: &[u8] = b"\0\0\0\x08\x01\x01\x02c1\x01\0\0\0\0\0\x08";

// An ACK with a request of A, and of B a delta of one state.
const ACK: &[u8] =
    b"\0\0\0\x34\x01\x02\0\x01\x0a\0\0\x01\x1b\x58\0\0\0\x09\0\0\0\0\0\x01\x0a\0\0\x02\x1b\x58\0\0\0\x05\0\0\0\0\0\0\0\x01\x01\x01\0\0\0\x02\0\x06NORMAL";

// An ACK2 of no deltas.
const EMPTY_ACK2: &[u8] = b"\0\0\0\x04\x01\x03\0\0";

// The same messages in layout 2.
const SYN_2: &[u8] = b"\0\0\0\x16\x02\x01\x02c1\x01\0\x01\x0a\0\0\x01\x1b\x58\0\0\0\x09\0\0\0\x01";

const EMPTY_SYN_2: &[u8] = b"\0\0\0\x08\x02\x01\x02c1\x01\0\0";

const ACK_2: &[u8] =
    b"\0\0\0\x34\x02\x02\0\x01\x0a\0\0\x01\x1b\x58\0\0\0\x09\0\0\0\0\0\x01\x0a\0\0\x02\x1b\x58\0\0\0\x05\0\0\0\0\0\0\0\x01\x01\x01\0\0\0\x02\0\x06NORMAL";

const EMPTY_ACK2_2: &[u8] = b"\0\0\0\x04\x02\x03\0\0";

// The same messages in layout 3.
const SYN_3: &[u8] = b"\0\0\0\x16\x03\x01\x02c1\x01\0\x01\x0a\0\0\x01\x1b\x58\0\0\0\x09\0\0\0\x01";

const EMPTY_SYN_3: &[u8] = b"\0\0\0\x08\x03\x01\x02c1\x01\0\0";

const ACK_3: &[u8] =
    b"\0\0\0\x34\x03\x02\0\x01\x0a\0\0\x01\x1b\x58\0\0\0\x09\0\0\0\0\0\x01\x0a\0\0\x02\x1b\x58\0\0\0\x05\0\0\0\0\0\0\0\x01\x01\x01\0\0\0\x02\0\x06NORMAL";

const EMPTY_ACK2_3: &[u8] = b"\0\0\0\x04\x03\x03\0\0";

// Returns `true` if a message is written as these bytes, by value and by reference.
pub(crate) fn is_written_as(alloc: Global, message: &Message, bytes: &[u8]) -> Result<bool, Fault> {
    every_message_fits(message);
    let whole = encode(alloc, message)?;
    let borrowed = encode_borrowed(alloc, message.borrowed())?;
    Ok(whole.as_slice() == bytes && borrowed.as_slice() == bytes)
}

// Returns the size of the frame at the start of the bytes, and `true` if its message is written as this frame.
fn read_and_written(alloc: Global, bytes: &[u8], frame: &[u8]) -> Result<(usize, bool), Fail> {
    let (message, size) = decode(alloc, bytes)?.ok_or("a whole frame")?;
    Ok((size, is_written_as(alloc, &message, frame)?))
}

#[test]
fn messages_are_read_in_each_layout_and_written_in_one(rt: HostRuntime) -> Result<(), Fail> {
    for (first, second, third, size) in [
        (SYN.as_slice(), SYN_2, SYN_3, 26),
        (EMPTY_SYN, EMPTY_SYN_2, EMPTY_SYN_3, 12),
        (ACK, ACK_2, ACK_3, 56),
        (EMPTY_ACK2, EMPTY_ACK2_2, EMPTY_ACK2_3, 8),
    ] {
        for frame in [first, second, third] {
            expect_eq!(read_and_written(rt.alloc(), frame, third)?, (size, true))?;
        }
    }
    Ok(())
}

// Returns the size of the frame at the start of the bytes, if it is whole.
fn size_of(alloc: Global, bytes: &[u8]) -> Result<Option<usize>, Fault> {
    Ok(decode(alloc, bytes)?.map(|found| found.1))
}

#[test]
fn wants_more(rt: HostRuntime) -> Result<(), Fail> {
    for (bytes, size) in [
        (&SYN[..25], None),
        (b"\0\0\0", None),
        (b"\0\x4c\x4b\x40", None),
        (EMPTY_SYN, Some(12)),
    ] {
        expect_eq!(size_of(rt.alloc(), bytes)?, size)?;
    }
    Ok(())
}

#[test]
fn announced_members_have_to_come(rt: HostRuntime) -> Result<(), Fail> {
    // 256 digests, 256 requests and 256 deltas, and 512 of each in layouts 2 and 3, of which none comes
    for (bytes, place) in [
        (b"\0\0\0\x08\x01\x01\x02c1\x01\x01\0".as_slice(), 12),
        (b"\0\0\0\x04\x01\x02\x01\0", 8),
        (b"\0\0\0\x04\x01\x03\x01\0", 8),
        (b"\0\0\0\x08\x02\x01\x02c1\x01\x02\0", 12),
        (b"\0\0\0\x04\x02\x02\x02\0", 8),
        (b"\0\0\0\x04\x02\x03\x02\0", 8),
        (b"\0\0\0\x08\x03\x01\x02c1\x01\x02\0", 12),
        (b"\0\0\0\x04\x03\x02\x02\0", 8),
        (b"\0\0\0\x04\x03\x03\x02\0", 8),
    ] {
        let cause = Cause::Short;
        expect_eq!(
            size_of(rt.alloc(), bytes),
            Err(Fault::BadFrame { place, cause })
        )?;
    }
    Ok(())
}
