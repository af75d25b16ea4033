//! Events at a node, and the node, the text and the frame that each leads to.

ghost use Rattle.std.specs.Prelude.{◌≡◌, IfOk};
ghost use Rattle.cg_core.specs.Borrowed.{borrowed_event};
ghost use Rattle.cg_text.specs.Gives.{Gives};
ghost use Rattle.cg_c.specs.Leading.{reply_text, reply_frame, leading, led};

use cg_core::{BorrowedEvent, Node, Reply};
use cg_frames::encode_borrowed;
use cg_text::{add_outcomes, add_round};
use cg_types::Fault;
use std::alloc::{AllocError, Global};

/// A node after an event, the text of the reply, and the frame of the message that it sends.
#[derive(Drop)]
pub(crate) struct Led {
    pub(crate) node: Node,
    pub(crate) text: Box<Vec<u8>>,
    pub(crate) frame: Box<Vec<u8>>,
}

// The peers of a round, or the outcomes of deltas.
fn text_of(alloc: Global, reply: &Reply) -> Result<Box<Vec<u8>>, AllocError>
    ensures { IfOk result (λ b. b.value.items ≡ reply_text reply.now) }
{
    let mut text = String::new(alloc);
    match reply {
        Reply::Round { peers, .. } => add_round(&mut text, peers.endpoints())?,
        Reply::Both { outcomes, .. } => add_outcomes(&mut text, outcomes.as_slice())?,
        Reply::Took(outcomes) => add_outcomes(&mut text, outcomes.as_slice())?,
        Reply::Done(_) | Reply::Sent(_) => {}
    }
    Ok(Box::new(alloc, text.into_bytes())?)
}

// The frame of the message that a reply sends; no bytes if it sends none.
fn frame_of(alloc: Global, reply: &Reply) -> Result<Box<Vec<u8>>, AllocError>
    ensures { IfOk result (λ b. b.value.items ≡ reply_frame reply.now) }
{
    let Some(message) = reply.message() else {
        return Ok(Box::new(alloc, Vec::new(alloc))?);
    };
    let frame = encode_borrowed(alloc, message)?;
    Ok(Box::new(alloc, Vec::from_slice(alloc, frame.as_slice())?)?)
}

/// Returns what an event leads to at a node.
pub(crate) fn lead(alloc: Global, node: &Node, event: BorrowedEvent<'_>) -> Result<Led, Fault>
    ensures { Gives led result (leading node.now (borrowed_event event.entry)) }
{
    let (node, reply) = node.stepped_borrowed(alloc, event)?;
    let text = text_of(alloc, &reply)?;
    let frame = frame_of(alloc, &reply)?;
    Ok(Led { node, text, frame })
}
