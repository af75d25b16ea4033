//! Digests of messages, tables and rings.

use crate::failure::Failure;
use crate::messages::bringing;
use cg_frames::encode;
use cg_messages::Message;
use cg_table::Table;
use cg_tokens::Ring;
use md5::{Digest, Md5};
use std::alloc::{AllocError, Global};

/// Adds a message, as its frame.
pub fn add_message(alloc: Global, digest: &mut Md5, message: &Message) -> Result<(), Failure> {
    digest.update(encode(alloc, message)?.as_slice());
    Ok(())
}

/// Adds all that a table holds, as the ACK that brings it.
pub fn add_table(alloc: Global, digest: &mut Md5, table: &Table) -> Result<(), Failure> {
    add_message(alloc, digest, &Message::Ack(bringing(alloc, table)?))
}

/// Adds each token of a ring with its endpoint.
pub fn add_ring(alloc: Global, digest: &mut Md5, ring: &Ring) -> Result<(), AllocError> {
    for (token, endpoint) in ring.positions() {
        digest.update(format!(in alloc; "{token} {endpoint}\n")?.as_bytes());
    }
    Ok(())
}
