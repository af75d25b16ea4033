//! Rounds, and the exchanges of a node with others.

ghost use Rattle.std.specs.Prelude.{◌≡◌, [], ◌∷◌};
ghost use Rattle.cg_core.specs.Borrowed.{borrowed_event};
ghost use Rattle.cg_core.specs.declared.event.Event.TheVariants as events;
ghost use Rattle.cg_text.specs.Gives.{Gives};
ghost use Rattle.cg_frames.specs.Choosing.{frame_among};
ghost use Rattle.cg_frames.specs.declared.layout.TheConstants.{LAYOUTS};
ghost use Rattle.cg_c.specs.Told.{Tells};
ghost use Rattle.cg_c.specs.Bytes.{held_items};
ghost use Rattle.cg_c.specs.Leading.{held_leading, held_opening, held_handling, whole};
ghost use Rattle.cg_c.specs.Announced.{announced};

use crate::given::Bytes;
use crate::held_node::HeldNode;
use crate::leading::lead;
use crate::told::{DONE, number};
use cg_core::BorrowedEvent;
use cg_frames::{Message, decode};
use cg_types::Fault;
use std::alloc::Global;

// Does an event at the node that is held, and gives the text and the frame of its reply.
fn act(
    alloc: Global,
    node: &mut HeldNode,
    event: BorrowedEvent<'_>,
    text: &mut Bytes,
    frame: &mut Bytes,
) -> u32
    ensures { Tells (held_leading node.old.value (borrowed_event event.entry))
        (node.new.value, (held_items text.new.held.value, held_items frame.new.held.value))
        ((node.new.value ≡ node.old.value) × (text.new ≡ text.old) × (frame.new ≡ frame.old)) result }
{
    let Some(mut inside) = node.take(alloc) else {
        return number(Fault::NoSuchNode);
    };
    match lead(alloc, &inside, event) {
        Ok(led) => {
            *inside = led.node;
            node.put(alloc, inside);
            text.put(alloc, led.text);
            frame.put(alloc, led.frame);
            DONE
        }
        Err(fault) => {
            node.put(alloc, inside);
            number(fault)
        }
    }
}

// The message of the frame that bytes begin with, and the frame's length.
fn whole_frame(alloc: Global, bytes: &[u8]) -> Result<(Message, usize), Fault>
    ensures { Gives (λ x. x) result (whole (frame_among LAYOUTS bytes.now)) }
{
    match decode(alloc, bytes) {
        Ok(Some(read)) => Ok(read),
        Ok(None) => Err(Fault::Truncated),
        Err(fault) => Err(fault),
    }
}

// The length of the frame that bytes begin with, by their first five.
fn length_of(alloc: Global, bytes: &[u8]) -> Result<usize, Fault>
    ensures { Gives (λ n. n) result (announced bytes.now) }
{
    let first = match bytes.get(..5) {
        Some(first) => first,
        None => bytes,
    };
    decode(alloc, first)?;
    if bytes.len() < 4 {
        return Err(Fault::Truncated);
    }
    let size = u32::from_be_bytes([bytes[0], bytes[1], bytes[2], bytes[3]]);
    Ok(4 + size as usize)
}

/// Tells the length of the frame that bytes begin with, by the first five of them; the others need not be there. It
/// answers `Truncated` if fewer than four are there, and `BadFrame` if no frame of the layout that the fifth names is so
/// long, or none at all so short.
#[unsafe(no_mangle)]
pub extern "C" fn cg_frame_length(alloc: Global, bytes: &[u8], length: &mut usize) -> u32
    ensures { Tells (announced bytes.now) length.new (length.new ≡ length.old) result }
{
    match length_of(alloc, bytes) {
        Ok(announced) => {
            *length = announced;
            DONE
        }
        Err(fault) => number(fault),
    }
}

/// Begins a round at `now`, in milliseconds of the clock of all calls: the heartbeat version rises, and peers are chosen
/// with four random words. It gives the line `round`, with each peer after a space, and the frame of the SYN for them.
/// It answers `VersionsSpent` if there is no version left.
#[unsafe(no_mangle)]
pub extern "C" fn cg_tick(
    alloc: Global,
    node: &mut HeldNode,
    now: u64,
    a: u64,
    b: u64,
    c: u64,
    d: u64,
    peers: &mut Bytes,
    frame: &mut Bytes,
) -> u32
    ensures { Tells (held_leading node.old.value (events.Tick now (a ∷ b ∷ c ∷ d ∷ [])))
        (node.new.value, (held_items peers.new.held.value, held_items frame.new.held.value))
        ((node.new.value ≡ node.old.value) × (peers.new ≡ peers.old) × (frame.new ≡ frame.old)) result }
{
    let words = [a, b, c, d];
    act(
        alloc,
        node,
        BorrowedEvent::Tick { now, words },
        peers,
        frame,
    )
}

/// Handles the message of the frame that bytes begin with, at `now`, and tells the length of the frame. It gives the
/// outcome of each delta, one a line, and the frame of the answer; no bytes if there is none. It answers `Truncated` if
/// the bytes end inside a frame, `BadFrame` if they begin with none, `OtherCluster` for a SYN of another cluster, and
/// `TableFull` if more endpoints would be held than a table may hold.
#[unsafe(no_mangle)]
pub extern "C" fn cg_handle(
    alloc: Global,
    node: &mut HeldNode,
    now: u64,
    bytes: &[u8],
    taken: &mut usize,
    outcomes: &mut Bytes,
    frame: &mut Bytes,
) -> u32
    ensures { Tells (held_handling node.old.value now bytes.now)
        ((node.new.value, (held_items outcomes.new.held.value, held_items frame.new.held.value)), taken.new)
        ((node.new.value ≡ node.old.value) × (taken.new ≡ taken.old) × (outcomes.new ≡ outcomes.old)
        × (frame.new ≡ frame.old)) result }
{
    let (message, length) = match whole_frame(alloc, bytes) {
        Ok(read) => read,
        Err(fault) => return number(fault),
    };
    let event = BorrowedEvent::arriving(message.borrowed(), now);
    let told = act(alloc, node, event, outcomes, frame);
    if told == DONE {
        *taken = length;
    }
    told
}

/// Gives the frame of the SYN that opens an exchange.
#[unsafe(no_mangle)]
pub extern "C" fn cg_opening(alloc: Global, node: &mut HeldNode, frame: &mut Bytes) -> u32
    ensures told { Tells (held_opening node.old.value) (held_items frame.new.held.value)
        (frame.new ≡ frame.old) result }
    ensures same { node.new.value ≡ node.old.value }
{
    let Some(inside) = node.take(alloc) else {
        return number(Fault::NoSuchNode);
    };
    let opening = lead(alloc, &inside, BorrowedEvent::Opening);
    node.put(alloc, inside);
    match opening {
        Ok(opened) => {
            frame.put(alloc, opened.frame);
            DONE
        }
        Err(fault) => number(fault),
    }
}
