//! `answer`: a node's answer to one SYN, from text to text.

ghost use Rattle.std.specs.Prelude.{◌≡◌, ◌≤◌, ◌+◌, ◌⊎◌, ℕ, List, Some, None, Ok, IfOk, IfSome, length, string_bytes};
ghost use Rattle.cg_text.specs.Gives.{Gives};
ghost use Rattle.cg_links.specs.declared.transfer.TheConstants.{MOST_READS};
ghost use Rattle.cg_links.specs.Counted.{link_of, calls_of, failed_of, idle_of, CountsFewer};
ghost use Rattle.cg_tool.specs.Answer as spec;
ghost use Rattle.cg_tool.specs.Answer.{answer_to_frame, answer_to, text_of, status_of};
ghost use Rattle.cg_text.specs.Written.{WroteOut};
ghost use Rattle.cg_tool.specs.Answered.{IsExpectedAnswer, AnswersAll, SaysOutOfMemory};

use crate::request::{Header, request};
use cg_engine::{answer_frame, expected_syn};
use cg_entry::Entry;
use cg_frames::decode;
use cg_links::{Counted, read_all};
use cg_messages::Syn;
use cg_table::Table;
use cg_text::written;
use cg_types::{Cause, Fault, OUT_OF_MEMORY_LINE, READ_FAULT_LINE};
use std::alloc::{AllocError, Global};
use std::io::{Read, Write};

// Reads the SYN whose frame the bytes are.
#[tactic(auto, unfolding(crate::specs::Answer::syn_in))]
fn syn_in(alloc: Global, bytes: &[u8]) -> Result<Syn, Fault>
    ensures { Gives (λ s. s) result (spec.syn_in bytes.now) }
{
    match decode(alloc, bytes) {
        Ok(None) => Err(Fault::Truncated),
        Ok(Some((message, size))) => {
            if size < bytes.len() {
                return Err(Fault::BadFrame {
                    place: size,
                    cause: Cause::Rest,
                });
            }
            expected_syn(message)
        }
        Err(fault) => Err(fault),
    }
}

// Returns the frame of the ACK with which a node that has just started answers a frame.
#[tactic(auto, unfolding(crate::specs::Answer::answer_to_frame))]
fn answer_to_bytes(alloc: Global, header: &Header, bytes: &[u8]) -> Result<Vec<u8>, Fault>
    ensures { Gives (λ v. v.items) result (answer_to_frame header.now bytes.now) }
{
    let syn = syn_in(alloc, bytes)?;
    let entry = Entry::start(alloc, header.generation);
    let table = Table::new(alloc, header.endpoint, entry)?;
    let frame = answer_frame(alloc, &table, &header.cluster, &syn, Vec::new(alloc))?;
    Ok(frame)
}

#[tactic(auto, unfolding(crate::specs::Answer::answer_to))]
fn answer_bytes(alloc: Global, input: &[u8]) -> Result<Vec<u8>, Fault>
    ensures { Gives (λ v. v.items) result (answer_to input.now) }
{
    let (header, frame) = request(alloc, input)?;
    answer_to_bytes(alloc, &header, &frame)
}

// Returns the text that answers the input, and the status.
fn expected_text(alloc: Global, input: &[u8]) -> Result<(String, u8), AllocError>
    ensures { IfOk result (λ p. (string_bytes p.0 ≡ text_of (answer_to input.now))
        × (p.1 ≡ status_of (answer_to input.now))) }
{
    match answer_bytes(alloc, input) {
        Ok(bytes) => {
            let mut text = hex::encode(alloc, &bytes)?;
            text.push('\n')?;
            Ok((text, 0))
        }
        Err(Fault::OutOfMemory) => Err(AllocError),
        Err(fault) => Ok((fault.line(alloc)?, 1)),
    }
}

fn answer_links<R: Read, W: Write>(
    alloc: Global,
    reader: &mut Counted<R>,
    writer: &mut Counted<W>,
) -> u8
    ensures answered { (text : List ℕ) × (status : ℕ)
        × IsExpectedAnswer (R.remaining (link_of reader.old)) (R.remaining (link_of reader.new))
        reader.old reader.new text status
        × WroteOut
        (W.contents (link_of writer.old)) (W.contents (link_of writer.new))
        writer.old writer.new text status result }
    ensures turns { calls_of reader.new ≤ calls_of reader.old + MOST_READS }
{
    match read_all(alloc, reader) {
        Ok(input) => match expected_text(alloc, &input) {
            Ok((text, status)) => written(writer, text.as_bytes(), status),
            Err(_) => written(writer, OUT_OF_MEMORY_LINE, 1),
        },
        Err(fault) => match fault {
            Fault::ReadFault => written(writer, READ_FAULT_LINE, 1),
            _ => written(writer, OUT_OF_MEMORY_LINE, 1),
        },
    }
}

/// Answers one SYN as a node that has just started, and returns the exit status.
///
/// The reader has a line `ENDPOINT GENERATION CLUSTER` and a line with the SYN's frame in hexadecimal digits; the last
/// line feed may be missing. It writes the ACK's frame in lower-case digits and a line feed, with status 0, or one
/// fault line, with status 1.
///
/// Faults are found in this order:
/// - BadText: either line is unreadable, a line is missing, or there is a further one;
/// - BadFrame (a fault in the frame), and then Truncated;
/// - BadFrame (bytes after the frame, then a frame of another kind), and then OtherCluster.
///
/// OutOfMemory comes if memory runs out on the way, ReadFault if a read fails or 4,294,967,295 reads do not meet the
/// end. The text is flushed. If the writer fails or takes no byte, a prefix of the text is written, and the status is 1.
/// The whole input is held in memory.
pub fn answer<R: Read, W: Write>(
    alloc: Global,
    reader: &mut Counted<R>,
    writer: &mut Counted<W>,
) -> u8
    // The expected text, and the prefix of it that was written.
    ensures answered { (text : List ℕ) × (status : ℕ)
        × IsExpectedAnswer (R.remaining (link_of reader.old)) (R.remaining (link_of reader.new))
        reader.old reader.new text status
        × WroteOut
        (W.contents (link_of writer.old)) (W.contents (link_of writer.new))
        writer.old writer.new text status result }
    // If no call of a link failed, no write took nothing and the bound on reads was not met, the text is the answer to
    // all of the input, unless memory ran out.
    ensures honest { failed_of reader.new ≡ 0 → CountsFewer reader.old reader.new MOST_READS
        → failed_of writer.new ≡ 0 → idle_of writer.new ≡ 0
        → IfSome (R.remaining (link_of reader.old)) (λ input.
        AnswersAll (R.remaining (link_of reader.new))
        (W.contents (link_of writer.old)) (W.contents (link_of writer.new)) input result
        ⊎ SaysOutOfMemory (W.contents (link_of writer.old)) (W.contents (link_of writer.new)) result) }
    ensures turns { calls_of reader.new ≤ calls_of reader.old + MOST_READS }
{
    answer_links(alloc, reader, writer)
}
