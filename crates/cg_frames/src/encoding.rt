//! Messages written as frames.

ghost use Rattle.std.specs.Prelude.{◌≡◌, ◌++◌, ◌+◌, ◌-◌, ◌<◌, ◌≤◌, ◌^◌, drop, length, IfOk, OnOk};
ghost use Rattle.cg_messages.specs.declared.message.Message.TheVariants as messages;
ghost use Rattle.cg_messages.specs.declared.owner_delta.OwnerDelta.{OwnerDelta as OwnerDeltaValue};
ghost use Rattle.cg_messages.specs.Borrowed.{borrowed_message};
ghost use Rattle.cg_frames.specs.declared.layout.TheConstants.{WRITTEN};
ghost use Rattle.cg_frames.specs.Fits.{Fits};
ghost use Rattle.cg_frames.specs.Layouts.{IsLayout, IsWritten};
ghost use Rattle.cg_frames.specs.Spelling as spec;

use crate::fits::{borrowed_ack_fits, message_fits};
use crate::layout::{Layout, WRITTEN};
use crate::lengths::message_length;
use bytes::{BufMut, Bytes};
use cg_entry::Digest;
use cg_messages::{
    Ack, Ack2, BorrowedAck, BorrowedMessage, BorrowedOwnerDelta, Message, OwnerDelta, Request, Syn,
};
use cg_types::{Cluster, Endpoint};
use std::alloc::{AllocError, Global};

#[tactic(auto, unfolding(cg_entry::specs::Section::two_bytes))]
fn put_two(out: &mut Vec<u8>, n: u16) -> Result<(), AllocError>
    ensures { OnOk result (out.new.items ≡ out.old.items ++ spec.two_bytes n) }
{
    out.put_u16(n)
}

#[tactic(auto, unfolding(cg_entry::specs::Section::four_bytes))]
fn put_four(out: &mut Vec<u8>, n: u32) -> Result<(), AllocError>
    ensures { OnOk result (out.new.items ≡ out.old.items ++ spec.four_bytes n) }
{
    out.put_u32(n)
}

// The bytes of an endpoint and two numbers: put at once, they take a fraction of the time.
#[tactic(auto, unfolding(cg_entry::specs::Section::two_bytes, cg_entry::specs::Section::four_bytes))]
fn member_bytes(endpoint: Endpoint, first: u32, second: u32) -> [u8; 14]
    ensures { result ≡ spec.endpoint endpoint ++ spec.four_bytes first ++ spec.four_bytes second }
{
    let mut bytes = [0u8; 14];
    bytes[..4].copy_from_slice(&endpoint.address());
    bytes[4..6].copy_from_slice(&endpoint.port().to_be_bytes());
    bytes[6..10].copy_from_slice(&first.to_be_bytes());
    bytes[10..].copy_from_slice(&second.to_be_bytes());
    bytes
}

fn put_digest(out: &mut Vec<u8>, digest: &Digest) -> Result<(), AllocError>
    ensures { OnOk result (out.new.items ≡ out.old.items ++ spec.digest digest.now) }
{
    out.put_slice(&member_bytes(
        digest.endpoint,
        digest.generation.get(),
        digest.newest.get(),
    ))
}

fn put_request(out: &mut Vec<u8>, request: Request) -> Result<(), AllocError>
    ensures { OnOk result (out.new.items ≡ out.old.items ++ spec.request request) }
{
    out.put_slice(&member_bytes(
        request.endpoint(),
        request.generation().get(),
        request.version(),
    ))
}

fn put_cluster(out: &mut Vec<u8>, cluster: &Cluster) -> Result<(), AllocError>
    ensures { OnOk result (out.new.items ≡ out.old.items ++ spec.cluster cluster.now) }
{
    out.put_u8(cluster.name().len() as u8)?;
    out.put_slice(cluster.name().as_bytes())?;
    out.put_u8(cluster.partitioner())?;
    Ok(())
}

fn put_digests(out: &mut Vec<u8>, digests: &[Digest]) -> Result<(), AllocError>
    requires { length digests.now < 2 ^ 16 }
    ensures { OnOk result (out.new.items ≡ out.old.items ++ spec.members spec.digest digests.now) }
{
    put_two(out, digests.len() as u16)?;
    for digest in digests {
        put_digest(out, digest)?;
    }
    Ok(())
}

fn put_requests(out: &mut Vec<u8>, requests: &[Request]) -> Result<(), AllocError>
    requires { length requests.now < 2 ^ 16 }
    ensures { OnOk result (out.new.items ≡ out.old.items ++ spec.members spec.request requests.now) }
{
    put_two(out, requests.len() as u16)?;
    for request in requests {
        put_request(out, *request)?;
    }
    Ok(())
}

// A member of a list of deltas: owned, or borrowed.
trait ListedDelta {
    // the delta about its owner
    ghost value: { Self → OwnerDeltaValue };

    fn put(&self, out: &mut Vec<u8>) -> Result<(), AllocError>
        ensures { OnOk result (out.new.items ≡ out.old.items ++ spec.delta (value self.now)) };
}

impl ListedDelta for OwnerDelta {
    ghost value = { λ d. d };

    fn put(&self, out: &mut Vec<u8>) -> Result<(), AllocError> {
        self.delta.put(self.endpoint, out)
    }
}

impl ListedDelta for BorrowedOwnerDelta<'_> {
    ghost value = { λ d. d };

    fn put(&self, out: &mut Vec<u8>) -> Result<(), AllocError> {
        self.delta().put(self.endpoint(), out)
    }
}

fn put_deltas<D: ListedDelta>(out: &mut Vec<u8>, deltas: &[D]) -> Result<(), AllocError>
    requires { length deltas.now < 2 ^ 16 }
    ensures { OnOk result (out.new.items ≡ out.old.items ++ spec.members (λ d. spec.delta (D.value d)) deltas.now) }
{
    put_two(out, deltas.len() as u16)?;
    for delta in deltas {
        delta.put(out)?;
    }
    Ok(())
}

// Writes the kind and the body of a SYN.
fn put_syn(out: &mut Vec<u8>, syn: &Syn) -> Result<(), AllocError>
    ensures { OnOk result (out.new.items ≡ out.old.items ++ spec.message (messages.Syn syn.now)) }
{
    out.put_u8(1)?;
    put_cluster(out, syn.cluster())?;
    put_digests(out, syn.digests())?;
    Ok(())
}

fn put_ack(out: &mut Vec<u8>, ack: &Ack) -> Result<(), AllocError>
    ensures { OnOk result (out.new.items ≡ out.old.items ++ spec.message (messages.Ack ack.now)) }
{
    out.put_u8(2)?;
    put_requests(out, ack.requests())?;
    put_deltas(out, ack.deltas())?;
    Ok(())
}

fn put_ack2(out: &mut Vec<u8>, ack2: &Ack2) -> Result<(), AllocError>
    ensures { OnOk result (out.new.items ≡ out.old.items ++ spec.message (messages.Ack2 ack2.now)) }
{
    out.put_u8(3)?;
    put_deltas(out, ack2.deltas())?;
    Ok(())
}

fn put_message(out: &mut Vec<u8>, message: BorrowedMessage<'_>) -> Result<(), AllocError>
    ensures { OnOk result (out.new.items ≡ out.old.items ++ spec.message (borrowed_message message.entry)) }
{
    match message {
        BorrowedMessage::Syn(syn) => put_syn(out, syn)?,
        BorrowedMessage::Ack(ack) => put_ack(out, ack)?,
        BorrowedMessage::Ack2(ack2) => put_ack2(out, ack2)?,
    }
    Ok(())
}

/// Writes a message as `encode_borrowed` does, in any layout that allows what messages hold. The message fits it, so its
/// length fits into four bytes.
pub fn encode_in(
    alloc: Global,
    layout: &Layout,
    message: BorrowedMessage<'_>,
) -> Result<Bytes, AllocError>
    requires layout { IsLayout layout.now }
    requires written { IsWritten layout.now }
    ensures written { IfOk result (λ b. b ≡ spec.frame layout.now (borrowed_message message.entry)) }
    ensures fits { Fits layout.now (borrowed_message message.entry) }
{
    message_fits(layout, message);
    let length = 1 + message_length(message);
    let mut frame = Vec::with_capacity(alloc, 4 + length)?;
    put_four(&mut frame, length as u32)?;
    frame.put_u8(layout.byte)?;
    put_message(&mut frame, message)?;
    Ok(Bytes::from_vec(frame)?)
}

/// Writes a message as a frame: its length in four bytes, and the bytes of that length.
///
/// `AllocError` if memory is short, and no other refusal, since each message is short enough for its length. At most
/// 33,628,678 bytes come after it (`laws::each_is_short`).
pub fn encode(alloc: Global, message: &Message) -> Result<Bytes, AllocError>
    ensures written { IfOk result (λ b. b ≡ spec.frame WRITTEN message.now) }
    // so a message that is written can be read again
    ensures fits { Fits WRITTEN message.now }
{
    encode_borrowed(alloc, message.borrowed())
}

/// Writes a borrowed message as `encode` does: the holder of a message in another form writes it without a copy.
pub fn encode_borrowed(alloc: Global, message: BorrowedMessage<'_>) -> Result<Bytes, AllocError>
    ensures written { IfOk result (λ b. b ≡ spec.frame WRITTEN (borrowed_message message.entry)) }
    ensures fits { Fits WRITTEN (borrowed_message message.entry) }
{
    encode_in(alloc, &WRITTEN, message)
}

// Writes the length of what follows into the first four bytes.
#[tactic(auto, unfolding(cg_entry::specs::Section::four_bytes))]
fn put_length(out: &mut Vec<u8>)
    requires whole { 4 ≤ length out.old.items }
    requires short { length out.old.items < 4 + 2 ^ 32 }
    ensures { out.new.items ≡ spec.four_bytes (length out.old.items - 4) ++ drop 4 out.old.items }
{
    let size = out.as_slice().len() - 4;
    let bytes = (size as u32).to_be_bytes();
    out[0] = bytes[0];
    out[1] = bytes[1];
    out[2] = bytes[2];
    out[3] = bytes[3];
}

/// Writes the frame of an ACK whose deltas are borrowed into `out`, in place of what that has: the bytes that `encode`
/// makes of the same ACK. `out` may be kept for the next one, which then takes no memory if it fits.
///
/// After `AllocError` `out` may have a part of the frame.
pub fn encode_ack_into(out: &mut Vec<u8>, ack: &BorrowedAck<'_>) -> Result<(), AllocError>
    ensures written { OnOk result (out.new.items ≡ spec.frame WRITTEN (messages.Ack ack.now)) }
    ensures fits { Fits WRITTEN (messages.Ack ack.now) }
{
    borrowed_ack_fits(&WRITTEN, ack);
    out.clear();
    out.extend_from_slice(&[0, 0, 0, 0, WRITTEN.byte, 2])?;
    put_requests(out, ack.requests())?;
    put_deltas(out, ack.deltas())?;
    put_length(out);
    Ok(())
}
