//! Tables of one shape, and the messages that are made of them.

use cg_exchange::{answer_syn, syn};
use cg_measure::{Failure, HELD, Held, Shape, bringing, empty_syn, table};
use cg_messages::{Ack, Ack2, Message, OwnerDelta, Syn};
use cg_table::Table;
use cg_testing::cluster;
use std::alloc::{AllocError, Global};

/// The table of which a SYN is made.
#[derive(Clone, Copy)]
pub(crate) enum Opens {
    /// The plain table.
    Plain,
    /// A member that holds nothing.
    Nobody,
}

/// The contents of an ACK.
#[derive(Clone, Copy)]
pub(crate) enum Brings {
    /// All that a table holds.
    Whole,
    /// Each heartbeat, newer than in the plain table.
    Beats,
    /// The first state of each, newer than in the plain table.
    FirstState,
    /// The newer heartbeat of the eighth endpoint alone.
    Single,
}

/// The contents of a message.
#[derive(Clone, Copy)]
pub(crate) enum Said {
    Syn(Opens),
    Ack(Brings),
}

// Adds the table of a shape with these contents.
fn add_table(
    alloc: Global,
    tables: &mut Vec<Table>,
    held: Held,
    shape: Shape,
) -> Result<(), Failure> {
    let table = table(alloc, held, shape)?;
    Ok(tables.push(table)?)
}

/// Makes all tables of a shape, in the order of `HELD`.
pub(crate) fn tables_of(alloc: Global, shape: Shape) -> Result<Vec<Table>, Failure> {
    let mut tables = Vec::new(alloc);
    for held in HELD {
        add_table(alloc, &mut tables, held, shape)?;
    }
    Ok(tables)
}

/// Returns the table with these contents.
pub(crate) fn held_in(tables: &[Table], held: Held) -> Result<&Table, Failure> {
    tables.get(held as usize).ok_or(Failure::Lacking("a table"))
}

/// Makes a SYN of such a table.
pub(crate) fn syn_of(alloc: Global, tables: &[Table], opens: Opens) -> Result<Syn, Failure> {
    match opens {
        Opens::Plain => Ok(syn(alloc, held_in(tables, Held::Plain)?, &cluster(alloc)?)?),
        Opens::Nobody => empty_syn(alloc),
    }
}

// Returns the ACK that a newer table sends to the plain one.
fn newer(alloc: Global, tables: &[Table], held: Held) -> Result<Ack, Failure> {
    let syn = syn_of(alloc, tables, Opens::Plain)?;
    Ok(answer_syn(alloc, held_in(tables, held)?, syn.cluster(), &syn)?)
}

fn copies(alloc: Global, deltas: &[OwnerDelta]) -> Result<Vec<OwnerDelta>, AllocError> {
    let mut copies = Vec::new(alloc);
    for delta in deltas {
        copies.push(delta.copy(alloc)?)?;
    }
    Ok(copies)
}

// Returns the ACK with the eighth of these deltas alone.
fn single(alloc: Global, ack: &Ack) -> Result<Ack, Failure> {
    let eighth = ack.deltas().get(7..8).unwrap_or(&[]);
    let eighth = copies(alloc, eighth)?;
    Ack::new(Vec::new(alloc), eighth).ok_or(Failure::Lacking("an ACK"))
}

/// Returns the ACK with these contents.
pub(crate) fn ack_of(alloc: Global, tables: &[Table], brings: Brings) -> Result<Ack, Failure> {
    match brings {
        Brings::Whole => bringing(alloc, held_in(tables, Held::Other)?),
        Brings::Beats => newer(alloc, tables, Held::Beats),
        Brings::FirstState => newer(alloc, tables, Held::FirstState),
        Brings::Single => single(alloc, &newer(alloc, tables, Held::Beats)?),
    }
}

/// Returns the ACK2 with the deltas of an ACK.
pub(crate) fn ack2_of(alloc: Global, tables: &[Table], brings: Brings) -> Result<Ack2, Failure> {
    let ack = ack_of(alloc, tables, brings)?;
    Ack2::new(copies(alloc, ack.deltas())?).ok_or(Failure::Lacking("an ACK2"))
}

/// Returns the message with these contents.
pub(crate) fn message(alloc: Global, tables: &[Table], said: Said) -> Result<Message, Failure> {
    match said {
        Said::Syn(opens) => Ok(Message::Syn(syn_of(alloc, tables, opens)?)),
        Said::Ack(brings) => Ok(Message::Ack(ack_of(alloc, tables, brings)?)),
    }
}
