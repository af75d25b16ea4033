//! The tasks on messages and tables that are measured, and the result of each.

use crate::frames::{fault, read};
use crate::gossip::{answered, ended, exchanged, opened, taken};
use bytes::Bytes;
use cg_frames::encode;
use cg_measure::{Failure, Work, add_message, add_table};
use cg_messages::{Ack2, Message};
use cg_table::Table;
use cg_types::{Cluster, Fault};
use md5::{Digest, Md5};
use std::alloc::Global;

/// A task of gossip, with its inputs.
#[derive(Drop)]
pub(crate) enum GossipWork {
    Encode(Message),
    Decode(Bytes),
    /// Checks a frame with a fault after its last field, and makes nothing.
    Check(Vec<u8>),
    /// Makes a SYN, as a frame.
    Open(Table, Cluster),
    /// Answers the frame of a SYN, in a buffer with room for this number of bytes.
    Answer(Table, Cluster, Bytes, usize),
    /// Takes the frame of an ACK.
    TakeAck(Table, Bytes),
    TakeAck2(Table, Ack2),
    /// A whole exchange between an opener and an answerer, from bytes to bytes, with such a buffer for the ACK.
    Exchange(Table, Table, Cluster, usize),
}

/// The result of one turn.
#[derive(Drop)]
pub(crate) enum Made {
    Frame(Bytes),
    Answer(Vec<u8>),
    Message(Message),
    Fault(Fault),
    Table(Table),
    Tables(Table, Table),
    Answered(Table, Bytes),
}

fn add_tables(alloc: Global, digest: &mut Md5, one: &Table, other: &Table) -> Result<(), Failure> {
    add_table(alloc, digest, one)?;
    add_table(alloc, digest, other)
}

fn add_answered(
    alloc: Global,
    digest: &mut Md5,
    table: &Table,
    frame: &Bytes,
) -> Result<(), Failure> {
    add_table(alloc, digest, table)?;
    digest.update(frame.as_slice());
    Ok(())
}

impl Work for GossipWork {
    type Made = Made;

    fn turn(&self, alloc: Global) -> Result<Made, Failure> {
        match self {
            GossipWork::Encode(message) => Ok(Made::Frame(encode(alloc, message)?)),
            GossipWork::Decode(frame) => Ok(Made::Message(read(alloc, frame)?)),
            GossipWork::Check(frame) => Ok(Made::Fault(fault(alloc, frame)?)),
            GossipWork::Open(table, cluster) => Ok(Made::Frame(opened(alloc, table, cluster)?)),
            GossipWork::Answer(table, cluster, frame, room) => {
                Ok(Made::Answer(answered(alloc, table, cluster, frame, *room)?))
            }
            GossipWork::TakeAck(table, frame) => {
                let (after, frame) = taken(alloc, table, frame)?;
                Ok(Made::Answered(after, frame))
            }
            GossipWork::TakeAck2(table, ack2) => Ok(Made::Table(ended(alloc, table, ack2)?)),
            GossipWork::Exchange(opener, answerer, cluster, room) => {
                let (opener, answerer) = exchanged(alloc, opener, answerer, cluster, *room)?;
                Ok(Made::Tables(opener, answerer))
            }
        }
    }

    fn add(alloc: Global, digest: &mut Md5, made: &Made) -> Result<(), Failure> {
        match made {
            Made::Frame(frame) => {
                digest.update(frame.as_slice());
                Ok(())
            }
            Made::Answer(frame) => {
                digest.update(frame);
                Ok(())
            }
            Made::Message(message) => add_message(alloc, digest, message),
            Made::Fault(fault) => {
                digest.update(fault.line(alloc)?.as_bytes());
                Ok(())
            }
            Made::Table(table) => add_table(alloc, digest, table),
            Made::Tables(one, other) => add_tables(alloc, digest, one, other),
            Made::Answered(table, frame) => add_answered(alloc, digest, table, frame),
        }
    }
}
