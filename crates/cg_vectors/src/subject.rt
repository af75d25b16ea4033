//! The subjects of vectors.

use crate::files::{contents, printed, verdict};
use crate::frames::read_of;
use crate::keys::token_text;
use crate::requests::answer_text;
use crate::rings::ring_text;
use crate::silences::verdict_text;
use cg_types::Fault;
use std::alloc::Global;
use std::rt::Files;

/// The subject of the vectors of a file.
#[derive(Clone, Copy, Debug)]
pub enum Subject {
    /// Bytes, and the messages and faults read in them.
    Frames,
    /// Keys and their tokens.
    Keys,
    /// Claims of endpoints, and the ring or the replicas of a token.
    Rings,
    /// Settings and arrivals, and the verdict at a time.
    Silences,
    /// Requests to `answer`, and their answers.
    Answers,
    /// Files of a script and of the text that it prints.
    Scripts,
    /// Files of journals and of the text of their audit.
    Journals,
}

/// Returns the text found for the input of a vector. BadText if the input can't be read; ReadFault if a file can't.
pub fn found<R: Files + Alloc<A = Global>>(
    rt: &R,
    subject: Subject,
    given: &str,
) -> Result<Vec<u8>, Fault> {
    let alloc = rt.alloc();
    match subject {
        Subject::Frames => Ok(read_of(alloc, given)?.into_bytes()),
        Subject::Keys => Ok(token_text(alloc, given)?.into_bytes()),
        Subject::Rings => Ok(ring_text(alloc, given)?.into_bytes()),
        Subject::Silences => Ok(verdict_text(alloc, given)?.into_bytes()),
        Subject::Answers => answer_text(alloc, given),
        Subject::Scripts => printed(rt, given),
        Subject::Journals => verdict(rt, given),
    }
}

/// Returns the text that a vector expects: its own words, a line of them, or the contents of the file that they name.
pub fn expected<R: Files + Alloc<A = Global>>(
    rt: &R,
    subject: Subject,
    words: &str,
) -> Result<Vec<u8>, Fault> {
    match subject {
        Subject::Answers => Ok(format!(in rt.alloc(); "{words}\n")?.into_bytes()),
        Subject::Scripts | Subject::Journals => contents(rt, words),
        _ => Ok(words.as_bytes().to_vec(rt.alloc())?),
    }
}
