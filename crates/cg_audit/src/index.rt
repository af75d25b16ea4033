//! The messages that were sent, in buckets by their hashes.

ghost use Rattle.std.specs.Prelude.{◌≡◌, ◌<◌, ◌+◌, ◌%◌, ◌↔◌, ◌∷◌, ◌++◌, [], IsTrue, IfOk, Contains, Some, length, map, slice_get};
ghost use Rattle.cg_messages.specs.Borrowed.{borrowed_message};
ghost use Rattle.cg_audit.specs.Hash as spec;
ghost use Rattle.cg_audit.specs.Index.{IsIndex, HaveTheSame};

use crate::hash::hash_of;
use crate::same::is_same;
use cg_messages::BorrowedMessage;
use std::alloc::{AllocError, Global};
use std::marker::Model;

/// Messages that were sent. Each is in the bucket of its hash, and knows the one before it there, so a search walks
/// that bucket alone. Messages are numbered from 1; 0 is no message.
#[derive(Drop)]
pub struct SentMessages<'a> {
    messages: Vec<BorrowedMessage<'a>>,
    hashes: Vec<u64>,
    // the last message of each bucket
    last: Vec<usize>,
    // of each message, the one before it in its bucket
    before: Vec<usize>,
}

/// A contract sees the list of messages.
impl<'a> Model for SentMessages<'a> {
    ghost use Rattle.std.specs.Prelude.{List, map};
    ghost use Rattle.std.specs.Coded.{coded_list};
    ghost use Rattle.cg_messages.specs.declared.message.Message.{Message};
    ghost use Rattle.cg_messages.specs.MessageCode.{message_code};
    ghost use Rattle.cg_messages.specs.Borrowed.{borrowed_message};
    ghost use Rattle.cg_audit.specs.Index.{IsIndex};

    ghost Value = { List Message };

    ghost coded = { coded_list message_code };

    ghost view = { λ s. map borrowed_message s.messages.items };

    ghost invariant = { λ s.
        IsIndex (map borrowed_message s.messages.items) s.hashes.items s.last.items s.before.items };
}

// Returns the bucket of a hash.
fn bucket_of(hash: u64, last: &[usize]) -> usize
    requires { 0 < length last.now }
    ensures { result ≡ hash % length last.now }
{
    (hash % last.len() as u64) as usize
}

fn count_of(hashes: &[u64]) -> usize
    ensures { result ≡ length hashes.now }
{
    hashes.len()
}

// Returns `true` if this message is at a place.
fn is_at(
    messages: &[BorrowedMessage<'_>],
    hashes: &[u64],
    place: usize,
    wanted: BorrowedMessage<'_>,
    hash: u64,
) -> bool
    requires place { place < length hashes.now }
    requires wanted { hash ≡ spec.hash_of (borrowed_message wanted) }
    requires hashed { map spec.hash_of (map borrowed_message messages.now) ≡ hashes.now }
    ensures { IsTrue result
        ↔ (slice_get (map borrowed_message messages.now) place ≡ Some (borrowed_message wanted.entry)) }
{
    hashes[place] == hash && is_same(messages[place], wanted)
}

// Returns `true` if a message is among these, which is to say, in its bucket.
fn is_among(
    messages: &[BorrowedMessage<'_>],
    hashes: &[u64],
    last: &[usize],
    before: &[usize],
    wanted: BorrowedMessage<'_>,
) -> bool
    requires { IsIndex (map borrowed_message messages.now) hashes.now last.now before.now }
    ensures { IsTrue result
        ↔ Contains (map borrowed_message messages.now) (borrowed_message wanted.entry) }
{
    let hash = hash_of(wanted);
    let mut number = last[bucket_of(hash, last)];
    while number > 0 {
        let place = number - 1;
        if is_at(messages, hashes, place, wanted, hash) {
            return true;
        }
        number = before[place];
    }
    false
}

impl<'a> SentMessages<'a> {
    /// Makes an empty collection of messages, with room for `room` of them. More can be added too, in fuller buckets.
    pub fn none(alloc: Global, room: usize) -> Result<SentMessages<'a>, AllocError>
        ensures { IfOk result (λ s. s ≡ []) }
    {
        Ok(SentMessages {
            messages: Vec::with_capacity(alloc, room)?,
            hashes: Vec::with_capacity(alloc, room)?,
            last: vec![in alloc; 0; room.max(1)]?,
            before: Vec::with_capacity(alloc, room)?,
        })
    }

    /// Returns `true` if an equal message is among these.
    pub fn contains(&self, message: BorrowedMessage<'_>) -> bool
        ensures { IsTrue result ↔ Contains self.now (borrowed_message message.entry) }
    {
        is_among(
            &self.messages,
            &self.hashes,
            &self.last,
            &self.before,
            message,
        )
    }

    // Returns these and one more, at the end.
    fn pushed(self, message: BorrowedMessage<'a>) -> Result<SentMessages<'a>, AllocError>
        ensures { IfOk result (λ s. s ≡ self.entry ++ borrowed_message message.entry ∷ []) }
    {
        let SentMessages {
            mut messages,
            mut hashes,
            mut last,
            mut before,
        } = self;
        let hash = hash_of(message);
        let bucket = bucket_of(hash, &last);
        before.push(last[bucket])?;
        messages.push(message)?;
        hashes.push(hash)?;
        last[bucket] = count_of(&hashes);
        Ok(SentMessages {
            messages,
            hashes,
            last,
            before,
        })
    }

    /// Returns these messages and one more. One that is among them already is not kept again.
    pub fn with(self, message: BorrowedMessage<'a>) -> Result<SentMessages<'a>, AllocError>
        ensures { IfOk result (λ s.
            HaveTheSame s (self.entry ++ borrowed_message message.entry ∷ [])) }
    {
        if self.contains(message) {
            return Ok(self);
        }
        self.pushed(message)
    }
}
