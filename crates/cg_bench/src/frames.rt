//! Frames: written, read, spoilt and checked.

use bytes::Bytes;
use cg_frames::{decode, encode};
use cg_measure::Failure;
use cg_messages::Message;
use cg_types::Fault;
use std::alloc::{AllocError, Global};

/// Reads the message that a frame spells.
pub(crate) fn read(alloc: Global, frame: &[u8]) -> Result<Message, Failure> {
    match decode(alloc, frame)? {
        Some((message, _)) => Ok(message),
        None => Err(Failure::Lacking("a whole frame")),
    }
}

/// Returns the fault of a frame.
pub(crate) fn fault(alloc: Global, frame: &[u8]) -> Result<Fault, Failure> {
    match decode(alloc, frame) {
        Err(fault) => Ok(fault),
        Ok(_) => Err(Failure::Lacking("a faulty frame")),
    }
}

// Returns these fields after their length, and one byte too many.
fn with_one_more(alloc: Global, fields: &[u8]) -> Result<Vec<u8>, AllocError> {
    let length = u32::try_from(fields.len()).unwrap_or(0).wrapping_add(1);
    let mut spoilt = Vec::new(alloc);
    spoilt.extend_from_slice(&length.to_be_bytes())?;
    spoilt.extend_from_slice(fields)?;
    spoilt.push(0)?;
    Ok(spoilt)
}

/// Returns the frame of a message with one byte too many after its last field: a reader checks all of it, and then
/// makes nothing.
pub(crate) fn spoilt(alloc: Global, message: &Message) -> Result<Vec<u8>, Failure> {
    let frame: Bytes = encode(alloc, message)?;
    let fields = frame.as_slice().get(4..).unwrap_or(b"");
    Ok(with_one_more(alloc, fields)?)
}
