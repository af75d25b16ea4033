//! Other layouts with the same readers and writers: another byte, other limits, and the layouts that the byte names.

ghost use Rattle.cg_frames.specs.Choosing.{AreLayouts, AreRead};
ghost use Rattle.cg_engine_tests.specs.declared.layout_tests.TheConstants.{FOUR};

use cg_frames::{
    LAYOUT_1, LAYOUT_2, LAYOUT_3, LAYOUTS, Layout, decode_among, decode_in, encode_in,
};
use cg_testing::{expect, expect_eq};
use cg_types::{Cause, Fault, MEMBER_LIMIT, TEXT_LIMIT};
use std::alloc::Global;
use std::test::Fail;

// Another byte.
const OTHER: Layout = Layout {
    byte: 7,
    members: MEMBER_LIMIT,
    text: TEXT_LIMIT,
    length: 40_000_000,
    tombstones: true,
};

// Another byte, and small limits.
const SMALL: Layout = Layout {
    byte: 7,
    members: 1,
    text: 2,
    length: 48,
    tombstones: false,
};

// Returns `true` if a frame of the other byte is read whole, and its message written as the same bytes.
fn is_read_and_written(alloc: Global, frame: &[u8]) -> Result<bool, Fail> {
    let read = decode_in(alloc, &OTHER, frame)?;
    let (message, size) = read.ok_or("a whole frame")?;
    let written = encode_in(alloc, &OTHER, message.borrowed())?;
    Ok(size == frame.len() && written.as_slice() == frame)
}

#[test]
fn reads_and_writes_another_layout(rt: HostRuntime) -> Result<(), Fail> {
    for frame in [
        b"\0\0\0\x16\x07\x01\x02c1\x01\0\x01\x0a\0\0\x01\x1b\x58\0\0\0\x09\0\0\0\x01".as_slice(),
        b"\0\0\0\x27\x07\x02\0\x01\x0a\0\0\x01\x1b\x58\0\0\0\x09\0\0\0\0\0\x01\x0a\0\0\x02\x1b\x58\0\0\0\x05\0\0\0\0\0\0\0\x01\0",
        b"\0\0\0\x17\x07\x03\0\x01\x0a\0\0\x01\x1b\x58\0\0\0\x09\0\0\0\0\0\0\0\x01\0",
        b"\0\0\0\x1e\x07\x03\0\x01\x0a\0\0\x01\x1b\x58\0\0\0\x09\0\0\0\x03\0\0\0\x01\x01\x01\0\0\0\x04\xff\xff",
    ] {
        expect!(is_read_and_written(rt.alloc(), frame)?)?;
    }
    Ok(())
}

// A layout that is longer than those of this version.
const LONG: Layout = Layout {
    byte: 9,
    members: MEMBER_LIMIT,
    text: TEXT_LIMIT,
    length: 50_000_000,
    tombstones: false,
};

const FOUR: [Layout; 4] = [LAYOUT_1, LAYOUT_2, LAYOUT_3, LONG];

// The laws of several layouts hold of four.
fn four_are_layouts()
    ensures layouts { AreLayouts FOUR }
    ensures read { AreRead FOUR }
{}

#[test]
fn four_are_told_apart(_rt: HostRuntime) {
    four_are_layouts();
}

// The length of the frame that is read in one of these layouts, and the first fault; neither if more bytes are needed.
type Read = (Option<usize>, Option<(usize, Cause)>);

fn read_among(alloc: Global, layouts: &[Layout], bytes: &[u8]) -> Result<Read, Fail>
    requires { AreRead layouts.now }
{
    match decode_among(alloc, layouts, bytes) {
        Ok(Some((_message, size))) => Ok((Some(size), None)),
        Ok(None) => Ok((None, None)),
        Err(Fault::BadFrame { place, cause }) => Ok((None, Some((place, cause)))),
        Err(fault) => Err(fault.into()),
    }
}

#[test]
fn limits_of_another_layout(rt: HostRuntime) -> Result<(), Fail> {
    for (bytes, due) in [
        (b"\0\0\0\x30".as_slice(), (None, None)),
        (b"\0\0\0\x31", (None, Some((0, Cause::Length)))),
        (b"\0\0\0\x04\x01\x03\0\0", (None, Some((4, Cause::Layout)))),
        (
            b"\0\0\0\x16\x07\x01\x02c1\x01\0\x01\x0a\0\0\x01\x1b\x58\0\0\0\x09\0\0\0\x01",
            (Some(26), None),
        ),
        (
            b"\0\0\0\x08\x07\x01\x02c1\x01\0\x02",
            (None, Some((10, Cause::Count))),
        ),
        (
            b"\0\0\0\x20\x07\x03\0\x01\x0a\0\0\x01\x1b\x58\0\0\0\x09\0\0\0\x02\0\0\0\x03\x01\x01\0\0\0\x04\0\x02NN",
            (Some(36), None),
        ),
        (
            b"\0\0\0\x21\x07\x03\0\x01\x0a\0\0\x01\x1b\x58\0\0\0\x09\0\0\0\x02\0\0\0\x03\x01\x01\0\0\0\x04\0\x03NNN",
            (None, Some((32, Cause::Text))),
        ),
        (
            b"\0\0\0\x1e\x07\x03\0\x01\x0a\0\0\x01\x1b\x58\0\0\0\x09\0\0\0\x03\0\0\0\x01\x01\x01\0\0\0\x04\xff\xff",
            (None, Some((32, Cause::Text))),
        ),
    ] {
        expect_eq!(read_among(rt.alloc(), &[SMALL], bytes)?, due)?;
    }
    Ok(())
}

#[test]
fn the_byte_names_the_layout(rt: HostRuntime) -> Result<(), Fail> {
    for (bytes, due) in [
        (b"\0\x4c\x4b".as_slice(), (None, None)),
        (b"\0\x4c\x4b\x41", (None, None)),
        (b"\x02\x62\x5a\0", (None, None)),
        (b"\x02\x62\x5a\x01", (None, Some((0, Cause::Length)))),
        (b"\0\x4c\x4b\x41\x01", (None, Some((0, Cause::Length)))),
        (b"\0\x4c\x4b\x41\x02", (None, None)),
        (b"\0\x4c\x4b\x41\x03", (None, None)),
        (b"\x02\x62\x5a\x01\x03", (None, Some((0, Cause::Length)))),
        (
            b"\0\0\0\x16\x01\x01\x02c1\x01\0\x01\x0a\0\0\x01\x1b\x58\0\0\0\x09\0\0\0\x01",
            (Some(26), None),
        ),
        (
            b"\0\0\0\x16\x02\x01\x02c1\x01\0\x01\x0a\0\0\x01\x1b\x58\0\0\0\x09\0\0\0\x01",
            (Some(26), None),
        ),
        (
            b"\0\0\0\x1e\x03\x03\0\x01\x0a\0\0\x01\x1b\x58\0\0\0\x09\0\0\0\x03\0\0\0\x01\x01\x01\0\0\0\x04\xff\xff",
            (Some(34), None),
        ),
        (
            b"\0\0\0\x1e\x02\x03\0\x01\x0a\0\0\x01\x1b\x58\0\0\0\x09\0\0\0\x03\0\0\0\x01\x01\x01\0\0\0\x04\xff\xff",
            (None, Some((32, Cause::Text))),
        ),
        (
            b"\0\0\0\x1e\x01\x03\0\x01\x0a\0\0\x01\x1b\x58\0\0\0\x09\0\0\0\x03\0\0\0\x01\x01\x01\0\0\0\x04\xff\xff",
            (None, Some((32, Cause::Text))),
        ),
        (b"\0\0\0\x02\x04\x01", (None, Some((4, Cause::Layout)))),
        (b"\0\0\0\x02\x09", (None, None)),
        (b"\0\0\0\x02\x09\x01", (None, Some((4, Cause::Layout)))),
        (b"\0\0\0\x02\0\x01", (None, Some((4, Cause::Layout)))),
        (b"\0\0\0\0", (None, Some((4, Cause::Short)))),
    ] {
        expect_eq!(read_among(rt.alloc(), &LAYOUTS, bytes)?, due)?;
    }
    Ok(())
}

#[test]
fn a_fourth_layout_is_one_more(rt: HostRuntime) -> Result<(), Fail> {
    for (bytes, due) in [
        (b"\x02\x62\x5a\x01".as_slice(), (None, None)),
        (b"\x02\xfa\xf0\x81", (None, Some((0, Cause::Length)))),
        (b"\0\x4c\x4b\x41\x01", (None, Some((0, Cause::Length)))),
        (b"\x02\x62\x5a\x01\x02", (None, Some((0, Cause::Length)))),
        (b"\x02\x62\x5a\x01\x09", (None, None)),
        (
            b"\0\0\0\x16\x09\x01\x02c1\x01\0\x01\x0a\0\0\x01\x1b\x58\0\0\0\x09\0\0\0\x01",
            (Some(26), None),
        ),
        (b"\0\0\0\x02\x04\x01", (None, Some((4, Cause::Layout)))),
    ] {
        expect_eq!(read_among(rt.alloc(), &FOUR, bytes)?, due)?;
    }
    Ok(())
}
