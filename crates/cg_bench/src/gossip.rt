//! Messages answered and taken, from frame to frame and from table to table.

use crate::frames::read;
use bytes::Bytes;
use cg_engine::answer_frame;
use cg_exchange::{syn, take_ack, take_ack2};
use cg_frames::encode;
use cg_measure::Failure;
use cg_messages::{Ack, Ack2, Message, Syn};
use cg_table::Table;
use cg_types::{Cluster, Fault};
use std::alloc::{AllocError, Global};

fn read_syn(alloc: Global, frame: &[u8]) -> Result<Syn, Failure> {
    match read(alloc, frame)? {
        Message::Syn(syn) => Ok(syn),
        Message::Ack(_) | Message::Ack2(_) => Err(Failure::Lacking("a SYN")),
    }
}

fn read_ack(alloc: Global, frame: &[u8]) -> Result<Ack, Failure> {
    match read(alloc, frame)? {
        Message::Ack(ack) => Ok(ack),
        Message::Syn(_) | Message::Ack2(_) => Err(Failure::Lacking("an ACK")),
    }
}

fn read_ack2(alloc: Global, frame: &[u8]) -> Result<Ack2, Failure> {
    match read(alloc, frame)? {
        Message::Ack2(ack2) => Ok(ack2),
        Message::Syn(_) | Message::Ack(_) => Err(Failure::Lacking("an ACK2")),
    }
}

/// Returns the frame of the SYN that a table opens with.
pub(crate) fn opened(alloc: Global, table: &Table, cluster: &Cluster) -> Result<Bytes, AllocError> {
    encode(alloc, &Message::Syn(syn(alloc, table, cluster)?))
}

/// Returns the frame of the answer to the frame of a SYN, in a buffer with room for this number of bytes, as one has that
/// keeps its buffer.
pub(crate) fn answered(
    alloc: Global,
    table: &Table,
    cluster: &Cluster,
    frame: &[u8],
    room: usize,
) -> Result<Vec<u8>, Failure> {
    let syn = read_syn(alloc, frame)?;
    let buffer = Vec::with_capacity(alloc, room)?;
    Ok(answer_frame(alloc, table, cluster, &syn, buffer)?)
}

/// Returns the table after an ACK came, and the frame of the ACK2.
pub(crate) fn taken(alloc: Global, table: &Table, frame: &[u8]) -> Result<(Table, Bytes), Failure> {
    let ack = read_ack(alloc, frame)?;
    let (after, ack2, _) = take_ack(alloc, table, &ack)?;
    Ok((after, encode(alloc, &Message::Ack2(ack2))?))
}

/// Returns the table after an ACK2 came.
pub(crate) fn ended(alloc: Global, table: &Table, ack2: &Ack2) -> Result<Table, Fault> {
    let (after, _) = take_ack2(alloc, table, ack2)?;
    Ok(after)
}

/// Returns the answer to the SYN of the opener, in a buffer with room for this number of bytes.
pub(crate) fn first_answer(
    alloc: Global,
    opener: &Table,
    answerer: &Table,
    cluster: &Cluster,
    room: usize,
) -> Result<Vec<u8>, Failure> {
    let opening = opened(alloc, opener, cluster)?;
    answered(alloc, answerer, cluster, &opening, room)
}

// Returns the table after the frame of an ACK2 came.
fn closed(alloc: Global, table: &Table, frame: &[u8]) -> Result<Table, Failure> {
    Ok(ended(alloc, table, &read_ack2(alloc, frame)?)?)
}

/// Returns both tables after an exchange, whose ACK is in a buffer with room for this number of bytes.
pub(crate) fn exchanged(
    alloc: Global,
    opener: &Table,
    answerer: &Table,
    cluster: &Cluster,
    room: usize,
) -> Result<(Table, Table), Failure> {
    let answer = first_answer(alloc, opener, answerer, cluster, room)?;
    let (opener, last) = taken(alloc, opener, &answer)?;
    Ok((opener, closed(alloc, answerer, &last)?))
}
