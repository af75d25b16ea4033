//! The answer to a SYN as a frame, written from a table's rows.

ghost use Rattle.cg_types.specs.Answer.{Answers};
ghost use Rattle.cg_engine.specs.AnswerFrames.{frame_of_answer};

use cg_exchange::borrowed_answer;
use cg_frames::encode_ack_into;
use cg_messages::Syn;
use cg_table::Table;
use cg_types::{Cluster, Fault};
use std::alloc::Global;

/// Answers a SYN as `answer_syn` does, and returns the frame of the ACK: the bytes that `encode` makes of it. They are
/// copied from the table's entries, and no delta is made between. The frame is in the buffer, in place of what that
/// has: one that is used again takes no memory once it has grown.
///
/// `OtherCluster` if the sender's cluster has another name or another partitioner; `OutOfMemory` never comes in its
/// place. Else `OutOfMemory` comes if there is no memory for the lists of the answer or for the frame.
pub fn answer_frame(
    alloc: Global,
    table: &Table,
    cluster: &Cluster,
    syn: &Syn,
    buffer: Vec<u8>,
) -> Result<Vec<u8>, Fault>
    ensures { Answers (λ v. v.items) (frame_of_answer table.now cluster.now syn.now) result }
{
    let mut frame = buffer;
    let ack = borrowed_answer(alloc, table, cluster, syn)?;
    encode_ack_into(&mut frame, &ack)?;
    Ok(frame)
}
