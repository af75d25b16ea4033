//! Frames at the start of bytes.

ghost use Rattle.std.specs.Prelude.{◌≡◌, ◌<◌, ◌^◌, length, Ok, None, IfErr};
ghost use Rattle.cg_frames.specs.declared.layout.TheConstants.{LAYOUTS};
ghost use Rattle.cg_types.specs.declared.fault.Fault.TheVariants.{OutOfMemory};
ghost use Rattle.cg_types.specs.Answer.{Answers};
ghost use Rattle.cg_frames.specs.Faults.{IsBadFrameOr};
ghost use Rattle.cg_frames.specs.Layouts.{IsRead};
ghost use Rattle.cg_frames.specs.Choosing.{frame_among, AreRead};
ghost use Rattle.cg_frames.specs.Reading as spec;
ghost use Rattle.cg_frames.specs.Laws.{TakesOnlySpelled, GivesEachSpelled};

use crate::bodies::{check, read};
use crate::layout::{LAYOUTS, Layout};
use crate::layouts::expected_layout;
use crate::misread::{Misread, ReadError};
use cg_messages::Message;
use cg_types::{Cause, Fault};
use std::alloc::Global;

// The most bytes after its length of a frame that is read in one pass. Before its fault is found such a frame takes
// less than 320 KB, twenty times this. Each SYN is shorter, and so are the heartbeats of as many members as a list can
// have.
const SHORT: usize = 16_384;

// The fault of a frame with this number of bytes after its length.
fn fault_at(size: usize, misread: Misread) -> Fault
    requires { size < 2 ^ 32 }
    ensures { result ≡ spec.fault_at size misread }
{
    Fault::BadFrame {
        place: (4 + size).saturating_sub(misread.left),
        cause: misread.cause,
    }
}

// Reads as `read_inside` does: all faults are found before memory is requested.
fn read_checked(alloc: Global, layout: &Layout, inside: &[u8]) -> Result<Message, Fault>
    requires short { length inside.now < 2 ^ 32 }
    requires layout { IsRead layout.now }
    ensures { Answers (λ m. m)
        (spec.with_place (length inside.now) (spec.inside_at layout.now inside.now)) result }
{
    if let Err(misread) = check(layout, inside) {
        return Err(fault_at(inside.len(), misread));
    }
    match read(alloc, layout, inside, true) {
        Ok(message) => Ok(message),
        Err(ReadError::Memory) => Err(Fault::OutOfMemory),
        Err(ReadError::Misread(misread)) => Err(fault_at(inside.len(), misread)),
    }
}

// Reads as `read_inside` does, in one pass: if memory is short, a second one decides whether a fault comes first.
fn read_at_once(alloc: Global, layout: &Layout, inside: &[u8]) -> Result<Message, Fault>
    requires short { length inside.now < 2 ^ 32 }
    requires layout { IsRead layout.now }
    ensures { Answers (λ m. m)
        (spec.with_place (length inside.now) (spec.inside_at layout.now inside.now)) result }
{
    match read(alloc, layout, inside, false) {
        Ok(message) => Ok(message),
        Err(ReadError::Misread(misread)) => Err(fault_at(inside.len(), misread)),
        Err(ReadError::Memory) => match check(layout, inside) {
            Ok(()) => Err(Fault::OutOfMemory),
            Err(misread) => Err(fault_at(inside.len(), misread)),
        },
    }
}

// Reads the bytes after the length.
fn read_inside(alloc: Global, layout: &Layout, inside: &[u8]) -> Result<Message, Fault>
    requires short { length inside.now < 2 ^ 32 }
    requires layout { IsRead layout.now }
    ensures { Answers (λ m. m)
        (spec.with_place (length inside.now) (spec.inside_at layout.now inside.now)) result }
{
    if inside.len() <= SHORT {
        read_at_once(alloc, layout, inside)
    } else {
        read_checked(alloc, layout, inside)
    }
}

/// Reads a message as `decode` does, in one layout that messages can hold, of any byte. A frame of another byte is a
/// `BadFrame` of `Layout`.
#[tactic(auto, unfolding(crate::specs::Reading::frame_at))]
pub fn decode_in(
    alloc: Global,
    layout: &Layout,
    bytes: &[u8],
) -> Result<Option<(Message, usize)>, Fault>
    requires { IsRead layout.now }
    ensures exact { Answers (λ x. x) (spec.frame_at layout.now bytes.now) result }
    ensures more { spec.frame_at layout.now bytes.now ≡ Ok None → result ≡ Ok None }
{
    if bytes.len() < 4 {
        return Ok(None);
    }
    let (front, rest) = bytes.split_at(4);
    let size = u32::from_be_bytes([front[0], front[1], front[2], front[3]]) as usize;
    if size > layout.length {
        return Err(Fault::BadFrame {
            place: 0,
            cause: Cause::Length,
        });
    }
    if rest.len() < size {
        return Ok(None);
    }
    let (inside, _) = rest.split_at(size);
    let message = read_inside(alloc, layout, inside)?;
    Ok(Some((message, 4 + size)))
}

/// Reads a message as `decode` does, in any layouts that messages can hold, distinguished by their bytes.
pub fn decode_among(
    alloc: Global,
    layouts: &[Layout],
    bytes: &[u8],
) -> Result<Option<(Message, usize)>, Fault>
    requires { AreRead layouts.now }
    ensures exact { Answers (λ x. x) (frame_among layouts.now bytes.now) result }
    ensures more { frame_among layouts.now bytes.now ≡ Ok None → result ≡ Ok None }
{
    let layout = expected_layout(layouts, bytes);
    decode_in(alloc, &layout, bytes)
}

/// Reads the message whose frame begins the bytes, and returns it with the frame's length in bytes.
///
/// It returns `None` if more bytes are needed: fewer than 4 are there, or fewer than the length says. The byte after
/// the length names the layout; until it has come, the longest frames of all layouts are allowed. Bytes after the frame
/// are not looked at. `BadFrame` has the first cause that is met, and its offset, in bytes from the first byte of the
/// length; it is found whatever memory there is. `OutOfMemory` comes only if the frame has no fault. For a frame of
/// more than 16,384 bytes after its length, no memory is requested before all faults are ruled out. A shorter one may
/// take memory for members that came before its fault, and gives it back. In frames of every length room is taken only
/// for members that the bytes left can hold, never for a number that is announced.
pub fn decode(alloc: Global, bytes: &[u8]) -> Result<Option<(Message, usize)>, Fault>
    ensures exact { Answers (λ x. x) (frame_among LAYOUTS bytes.now) result }
    ensures more { frame_among LAYOUTS bytes.now ≡ Ok None → result ≡ Ok None }
    ensures faults { IfErr result (IsBadFrameOr OutOfMemory) }
    ensures found { TakesOnlySpelled LAYOUTS bytes.now result }
    ensures only { GivesEachSpelled LAYOUTS bytes.now result }
{
    decode_among(alloc, &LAYOUTS, bytes)
}
