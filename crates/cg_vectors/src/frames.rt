//! Vectors of frames: bytes read at once and in chunks, and frames that zeros lengthen.

ghost use Rattle.std.specs.Prelude.{◌<◌};

use crate::keys::bytes_in;
use crate::messages::add_message;
use cg_frames::{Feed, Message, WRITTEN, decode, encode};
use cg_types::Fault;
use std::alloc::Global;

// Frames with more bytes than this after their length are checked before they are read.
const READ_AT_ONCE: usize = 16_384;

// The longest frames that are cut in two at each of their bytes.
const CUT: usize = 320;

// Adds a space before a word that is not the first.
fn add_space(text: &mut String) -> Result<(), Fault> {
    if !text.is_empty() {
        text.push(' ')?;
    }
    Ok(())
}

fn add_messages(alloc: Global, text: &mut String, messages: &[Message]) -> Result<(), Fault> {
    for message in messages {
        add_space(text)?;
        add_message(alloc, text, message)?;
    }
    Ok(())
}

// Adds the end of the bytes: the fault that was found, or the number of bytes that the last frame lacks.
fn add_end(text: &mut String, feed: &Feed) -> Result<(), Fault> {
    match feed.end() {
        Ok(()) => Ok(()),
        Err(Fault::Truncated) => {
            let wants = feed.wants();
            add_space(text)?;
            Ok(write!(text, "partial {wants}")?)
        }
        Err(fault) => {
            add_space(text)?;
            Ok(write!(text, "fault {fault}")?)
        }
    }
}

// Reads bytes that come in chunks of this size, as words.
fn read_by(alloc: Global, bytes: &[u8], size: usize) -> Result<String, Fault>
    requires { 0 < size }
{
    let mut feed = Feed::new(alloc);
    let mut text = String::new(alloc);
    for piece in bytes.chunks(size) {
        let fed = feed.push(piece)?;
        add_messages(alloc, &mut text, &fed.messages)?;
    }
    add_end(&mut text, &feed)?;
    Ok(text)
}

// Tests whether the bytes begin with this frame. The layout's byte is left out: in the frame it has to be that of the
// layout that is written.
fn is_read(frame: &[u8], bytes: &[u8]) -> bool {
    let Some((length, inside)) = frame.split_first_chunk::<4>() else {
        return false;
    };
    let Some((length_read, inside_read)) = bytes.split_first_chunk::<4>() else {
        return false;
    };
    match (inside.split_first(), inside_read.split_first()) {
        (Some((byte, fields)), Some((_, fields_read))) => {
            *length == *length_read && *byte == WRITTEN.byte && fields_read.starts_with(fields)
        }
        _ => false,
    }
}

// Reads the messages in bytes, writes each again, and tests whether their frames are those in the bytes.
fn is_written_again(alloc: Global, bytes: &[u8]) -> Result<bool, Fault> {
    let mut feed = Feed::new(alloc);
    let fed = feed.push(bytes)?;
    let mut rest = bytes;
    for message in &fed.messages {
        let frame = encode(alloc, message)?;
        if !is_read(frame.as_slice(), rest) {
            return Ok(false);
        }
        rest = rest.get(frame.len()..).unwrap_or(&[]);
    }
    Ok(true)
}

// Tests whether the bytes are one frame: a length, and as many bytes as it says.
fn is_one_frame(bytes: &[u8]) -> bool {
    match bytes.split_first_chunk::<4>() {
        Some((length, inside)) => u32::from_be_bytes(*length) as usize == inside.len(),
        None => false,
    }
}

// Reads bytes that come in two chunks, as words: once the first has come and once both have.
fn read_in_two(alloc: Global, front: &[u8], back: &[u8]) -> Result<String, Fault> {
    let mut feed = Feed::new(alloc);
    let mut text = String::new(alloc);
    for piece in [front, back] {
        let fed = feed.push(piece)?;
        add_messages(alloc, &mut text, &fed.messages)?;
        add_end(&mut text, &feed)?;
    }
    Ok(text)
}

// Tests whether a short frame, cut in two at any byte, is waited for at the cut and then read as this text says.
fn is_read_when_whole(alloc: Global, frame: &[u8], text: &str) -> Result<bool, Fault> {
    if frame.len() > CUT {
        return Ok(true);
    }
    for place in 1..frame.len() {
        let (front, back) = frame.split_at(place);
        let wants = if place < 4 { 4 - place } else { back.len() };
        let due = format!(in alloc; "partial {wants} {text}")?;
        let found = read_in_two(alloc, front, back)?;
        if found.as_bytes() != due.as_bytes() {
            return Ok(false);
        }
    }
    Ok(true)
}

// Returns the frame with zeros after its last field, more than are read at once, and with the length that results.
fn lengthened(alloc: Global, frame: &[u8]) -> Result<Vec<u8>, Fault> {
    let size = frame.len().saturating_add(READ_AT_ONCE);
    let Ok(length) = u32::try_from(size.saturating_sub(4)) else {
        return Err(Fault::TooLong);
    };
    let mut bytes = Vec::new(alloc);
    bytes.extend_from_slice(&length.to_be_bytes())?;
    bytes.extend_from_slice(frame.get(4..).unwrap_or(&[]))?;
    bytes.resize(size, 0)?;
    Ok(bytes)
}

// Decodes one frame by `decode`, as words.
fn decoded(alloc: Global, frame: &[u8]) -> Result<String, Fault> {
    let mut text = String::new(alloc);
    match decode(alloc, frame) {
        Ok(Some((message, _))) => add_message(alloc, &mut text, &message)?,
        Ok(None) => text.push_str("partial")?,
        Err(fault) => write!(text, "fault {fault}")?,
    }
    Ok(text)
}

// Tests whether a frame has the same fault if zeros follow it. Without a fault the zeros are its fault; a frame that
// was Short may find its bytes among them.
fn is_same_lengthened(alloc: Global, frame: &[u8], text: &str) -> Result<bool, Fault> {
    if text.ends_with("Short") {
        return Ok(true);
    }
    let long = lengthened(alloc, frame)?;
    let found = decoded(alloc, &long)?;
    if text.starts_with("fault") {
        return Ok(found.as_bytes() == text.as_bytes());
    }
    let size = frame.len();
    let rest = format!(in alloc; "fault 12 BadFrame {size} Rest")?;
    Ok(found.as_bytes() == rest.as_bytes())
}

// Adds a note if one frame gives something else by itself, as it is cut, or as it is lengthened.
fn add_notes(alloc: Global, text: &mut String, frame: &[u8]) -> Result<(), Fault> {
    let alone = decoded(alloc, frame)?;
    let is_decoded = alone.as_bytes() == text.as_bytes();
    let is_read = is_read_when_whole(alloc, frame, text.as_str())?;
    let is_same = is_same_lengthened(alloc, frame, text.as_str())?;
    if !is_decoded {
        text.push_str(", otherwise by itself")?;
    }
    if !is_read {
        text.push_str(", otherwise in two pieces")?;
    }
    if !is_same {
        text.push_str(", otherwise lengthened")?;
    }
    Ok(())
}

/// Reads the bytes that these digits spell: the messages, and then the first fault, or the number of bytes that the
/// last frame lacks.
///
/// A note follows if the same bytes, a byte at a time, give something else, or if the messages are written otherwise
/// than they were read, apart from the layout's byte. A note follows too if a single frame gives something else by
/// itself, in two chunks or with zeros after it.
pub fn read_of(alloc: Global, digits: &str) -> Result<String, Fault> {
    let bytes = bytes_in(alloc, digits)?;
    let mut text = read_by(alloc, &bytes, bytes.len().max(1))?;
    let in_bytes = read_by(alloc, &bytes, 1)?;
    if in_bytes.as_bytes() != text.as_bytes() {
        text.push_str(", otherwise in pieces")?;
    }
    if !is_written_again(alloc, &bytes)? {
        text.push_str(", otherwise written")?;
    }
    if is_one_frame(&bytes) {
        add_notes(alloc, &mut text, &bytes)?;
    }
    Ok(text)
}
