//! Bytes that come in chunks, cut into messages.

ghost use Rattle.std.specs.Prelude.{◌≡◌, ◌<◌, ◌≤◌, [], ◌++◌, length, IfOk, IfErr, IfSome, OnErr, OnOk, Ok, IsOk, IsErr};
ghost use Rattle.cg_types.specs.declared.fault.Fault.TheVariants as faults;
ghost use Rattle.cg_frames.specs.declared.layout.TheConstants.{LAYOUTS};
ghost use Rattle.cg_frames.specs.Choosing.{AreRead, NeedsMore, frame_among};
ghost use Rattle.cg_frames.specs.Faults.{IsBadFrame, IsBadFrameOr};
ghost use Rattle.cg_frames.specs.Feeding as spec;
ghost use Rattle.cg_frames.specs.Laws.{AreBytes};

use crate::decoding::decode_among;
use crate::layout::{LAYOUTS, Layout};
use cg_messages::Message;
use cg_types::Fault;
use std::alloc::{AllocError, Global};
use std::marker::Model;

/// The messages and the fault of a chunk.
#[derive(Debug, Drop)]
pub struct Fed {
    /// The messages that are whole now, in the order of their bytes.
    pub messages: Vec<Message>,
    /// The fault after them, if any: `BadFrame`, with the offset in its frame.
    pub fault: Option<Fault>,
}

// The messages at the start of bytes, the number of bytes that they take, and the fault after them, if any.
#[derive(Drop)]
struct Cutting {
    fed: Fed,
    taken: usize,
}

// Cuts off all messages at the start. Only memory may run out, and a fault at the start is found without any.
fn cut(alloc: Global, layouts: &[Layout], bytes: &[u8]) -> Result<Cutting, Fault>
    requires { AreRead layouts.now }
    ensures ok { IfOk result (λ c. spec.IsCut layouts.now bytes.now c.fed.messages.items c.taken c.fed.fault) }
    ensures err { IfErr result (λ f. f ≡ faults.OutOfMemory) }
    ensures at_once { IsErr (frame_among layouts.now bytes.now) → IsOk result }
    ensures bytes { AreBytes bytes.now }
{
    let mut messages = Vec::new(alloc);
    let mut taken: usize = 0;
    loop {
        let (_, rest) = bytes.split_at(taken);
        match decode_among(alloc, layouts, rest) {
            Ok(Some((message, size))) => {
                messages.push(message)?;
                taken += size;
            }
            Ok(None) => {
                let fault = None;
                let fed = Fed { messages, fault };
                return Ok(Cutting { fed, taken });
            }
            Err(fault) => match fault {
                Fault::OutOfMemory => return Err(Fault::OutOfMemory),
                _ => {
                    let fed = Fed {
                        messages,
                        fault: Some(fault),
                    };
                    return Ok(Cutting { fed, taken });
                }
            },
        }
    }
}

// Cuts the chunk if nothing is held, and holds what is left of it; a refusal changes nothing.
fn begin(alloc: Global, layouts: &[Layout], held: &mut Vec<u8>, piece: &[u8]) -> Result<Fed, Fault>
    requires layouts { AreRead layouts.now }
    requires empty { held.old.items ≡ [] }
    ensures ok { IfOk result (λ fed. spec.frames_in layouts.now piece.now
        ≡ record { messages = fed.messages.items; rest = spec.standing_of held.new.items fed.fault }) }
    ensures bytes { OnOk result (AreBytes piece.now) }
    ensures same { OnErr result (held.new.items ≡ held.old.items) }
    ensures err { IfErr result (λ f. f ≡ faults.OutOfMemory) }
    ensures at_once { IsErr (frame_among layouts.now piece.now) → IsOk result }
{
    let cutting = cut(alloc, layouts, piece)?;
    if cutting.fed.fault.is_none() {
        let (_, rest) = piece.split_at(cutting.taken);
        *held = rest.to_vec(alloc)?;
    }
    Ok(cutting.fed)
}

// Makes room for all that the frame lacks, or for the chunk if it is longer, once more than half of the frame is held. Until
// then the room grows as that of each list.
fn make_room(held: &mut Vec<u8>, piece: usize) -> Result<(), AllocError>
    ensures { held.new.items ≡ held.old.items }
{
    let lacking = lack(held.as_slice());
    if lacking >= held.len() {
        return Ok(());
    }
    held.reserve_exact(lacking.max(piece))
}

// Appends the chunk and cuts off all messages; a refusal changes nothing.
fn extend(alloc: Global, layouts: &[Layout], held: &mut Vec<u8>, piece: &[u8]) -> Result<Fed, Fault>
    requires { AreRead layouts.now }
    ensures ok { IfOk result (λ fed. spec.frames_in layouts.now (held.old.items ++ piece.now)
        ≡ record { messages = fed.messages.items; rest = spec.standing_of held.new.items fed.fault }) }
    ensures bytes { OnOk result (AreBytes (held.old.items ++ piece.now)) }
    ensures same { OnErr result (held.new.items ≡ held.old.items) }
    ensures err { IfErr result (λ f. f ≡ faults.OutOfMemory) }
{
    let before = held.len();
    make_room(held, piece.len())?;
    held.extend_from_slice(piece)?;
    let Ok(cutting) = cut(alloc, layouts, held.as_slice()) else {
        held.truncate(before);
        return Err(Fault::OutOfMemory);
    };
    if cutting.fed.fault.is_some() {
        *held = Vec::new(alloc);
    } else if cutting.taken > 0 {
        let Ok(rest) = held[cutting.taken..].to_vec(alloc) else {
            held.truncate(before);
            return Err(Fault::OutOfMemory);
        };
        *held = rest;
    }
    Ok(cutting.fed)
}

// Cuts the bytes held and then the chunk, and holds what is left; a refusal changes nothing. The empty chunk needs no
// memory, and if nothing is held a fault at the start needs none.
fn take(alloc: Global, layouts: &[Layout], held: &mut Vec<u8>, piece: &[u8]) -> Result<Fed, Fault>
    requires layouts { AreRead layouts.now }
    requires partial { NeedsMore layouts.now held.old.items }
    ensures ok { IfOk result (λ fed. spec.frames_in layouts.now (held.old.items ++ piece.now)
        ≡ record { messages = fed.messages.items; rest = spec.standing_of held.new.items fed.fault }) }
    ensures bytes { OnOk result (AreBytes (held.old.items ++ piece.now)) }
    ensures same { OnErr result (held.new.items ≡ held.old.items) }
    ensures err { IfErr result (λ f. f ≡ faults.OutOfMemory) }
    ensures nothing { piece.now ≡ [] → IsOk result }
    ensures at_once { held.old.items ≡ [] → IsErr (frame_among layouts.now piece.now) → IsOk result }
{
    if piece.is_empty() {
        let messages = Vec::new(alloc);
        let fault = None;
        return Ok(Fed { messages, fault });
    }
    if held.is_empty() {
        return begin(alloc, layouts, held, piece);
    }
    extend(alloc, layouts, held, piece)
}

/// A stream of frames that comes in chunks. It holds the bytes of the next frame that have come, or its lasting fault.
/// Between chunks it holds less than one frame of the greatest length. It takes room for at most twice the bytes that
/// came, and not for a frame's length that was announced; for the counts within a whole frame it does as `decode`.
#[derive(Drop)]
pub struct Feed {
    alloc: Global,
    held: Vec<u8>,
    fault: Option<Fault>,
}

impl Model for Feed {
    ghost use Rattle.cg_frames.specs.declared.layout.TheConstants.{LAYOUTS};
    ghost use Rattle.cg_frames.specs.Feeding.{Standing, IsPartial, standing_of};

    ghost Value = { Standing };

    ghost view = { λ s. standing_of s.held.items s.fault };

    ghost invariant = { λ s. IsPartial LAYOUTS (standing_of s.held.items s.fault) };
}

impl Feed {
    /// Opens a stream of which nothing has come. It takes no memory; what it will hold comes from `alloc`.
    pub fn new(alloc: Global) -> Feed
        ensures { result ≡ Ok [] }
    {
        Feed {
            alloc,
            held: Vec::new(alloc),
            fault: None,
        }
    }

    /// Takes the next chunk of the stream, of any length, and returns the messages that are whole now.
    ///
    /// The bytes held and the chunk are the spellings of these messages, each in a layout that it fits, and then a
    /// rest. The rest is held from now on, or begins with the fault. After a fault each chunk is dropped, and gives no
    /// message and that fault. A chunk no longer than `wants` gives at most one message, and if it gives one, nothing
    /// is held after it. `OutOfMemory` leaves the feed unchanged; there is no other refusal. Three chunks are never
    /// refused, since they need no memory: the empty one, one after a fault, and one that begins with a fault while
    /// nothing is held.
    pub fn push(&mut self, piece: &[u8]) -> Result<Fed, Fault>
        ensures given { IfOk result (λ fed. fed.messages.items
            ≡ (spec.cut_of_piece LAYOUTS self.old piece.now).messages) }
        ensures rest { OnOk result (self.new ≡ (spec.cut_of_piece LAYOUTS self.old piece.now).rest) }
        ensures fault { IfOk result (λ fed. fed.fault ≡ spec.fault_standing self.new) }
        ensures bad { IfOk result (λ fed. IfSome fed.fault IsBadFrame) }
        ensures spelled { IfOk result (λ fed. spec.SplitsFrom LAYOUTS self.old piece.now
            (record { messages = fed.messages.items; rest = self.new })) }
        ensures one { IfOk result (λ fed. length piece.now ≤ spec.wants_of self.old
            → spec.HasAtMostOne fed.messages.items self.new) }
        ensures same { OnErr result (self.new ≡ self.old) }
        ensures stands { IsErr self.old → IsOk result }
        ensures nothing { piece.now ≡ [] → IsOk result }
        ensures at_once { self.old ≡ Ok [] → IsErr (frame_among LAYOUTS piece.now) → IsOk result }
        ensures err { IfErr result (λ f. f ≡ faults.OutOfMemory) }
    {
        if let Some(fault) = self.fault {
            return Ok(Fed {
                messages: Vec::new(self.alloc),
                fault: Some(fault),
            });
        }
        let fed = take(self.alloc, &LAYOUTS, &mut self.held, piece)?;
        self.fault = fed.fault;
        Ok(fed)
    }

    /// The number of bytes that the present length, of 4 bytes, or the present frame lacks: at least 1, and 0 after a
    /// fault.
    pub fn wants(&self) -> usize
        ensures is { result ≡ spec.wants_of self.now }
        ensures some { IsOk self.now → 0 < result }
    {
        match self.fault {
            Some(_) => 0,
            None => lack(self.held.as_slice()),
        }
    }

    /// Tests whether the stream may end here: `Truncated` if a part of a frame is held, and the fault after one.
    pub fn end(&self) -> Result<(), Fault>
        ensures is { spec.Ends self.now result }
        ensures faults { IfErr result (IsBadFrameOr faults.Truncated) }
    {
        match self.fault {
            Some(fault) => Err(fault),
            None if self.held.is_empty() => Ok(()),
            None => Err(Fault::Truncated),
        }
    }
}

// The number of bytes that the length or the frame lacks of which these have come.
#[tactic(auto, unfolding(crate::specs::Feeding::lack_of))]
fn lack(held: &[u8]) -> usize
    ensures { result ≡ spec.lack_of held.now }
{
    if held.len() < 4 {
        return 4 - held.len();
    }
    let size = u32::from_be_bytes([held[0], held[1], held[2], held[3]]) as usize;
    (4 + size).saturating_sub(held.len())
}
