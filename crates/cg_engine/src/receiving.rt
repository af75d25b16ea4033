//! Reading one message from a link.

ghost use Rattle.std.specs.Prelude.{◌≡◌, ◌⊎◌, ◌+◌, ◌≤◌, [], ◌++◌, length, Ok, Err, None, IsOk, IsErr, IfOk, IfErr, IfNone, IfSome};
ghost use Rattle.cg_types.specs.declared.fault.Fault.TheVariants as faults;
ghost use Rattle.cg_frames.specs.declared.layout.TheConstants.{LAYOUTS};
ghost use Rattle.cg_frames.specs.Choosing.{frame_among, NeedsMore};
ghost use Rattle.cg_frames.specs.Faults.{IsBadFrame};
ghost use Rattle.cg_frames.specs.Feeding.{wants_of};
ghost use Rattle.cg_links.specs.Counted.{calls_of, link_of};
ghost use Rattle.cg_engine.specs.Received.{IsSpelledBy, Receives, held_of};

use cg_frames::{Feed, WRITTEN};
use cg_links::Counted;
use cg_messages::Message;
use cg_types::Fault;
use std::alloc::Global;
use std::io::Read;

/// The most bytes that one read requests.
pub const PIECE_LIMIT: usize = 4096;

/// The most reads of one message. Each but the last gives a byte or more, so the longest frame is whole before that
/// many reads are made.
pub const MOST_TURNS: usize = WRITTEN.length + 10;

// Takes a chunk that passes neither the present length nor the present frame. Returns the message that is whole with
// it, or nothing.
fn take_piece(feed: &mut Feed, piece: &[u8]) -> Result<Option<Message>, Fault>
    requires sound { IsOk feed.old }
    requires fits { length piece.now ≤ wants_of feed.old }
    ensures more { IfOk result (λ o. IfNone o ((feed.new ≡ Ok (held_of feed.old ++ piece.now))
        × NeedsMore LAYOUTS (held_of feed.old ++ piece.now))) }
    ensures whole { IfOk result (λ o. IfSome o (IsSpelledBy (held_of feed.old ++ piece.now))) }
    ensures err { IfErr result (λ f.
        ((f ≡ faults.OutOfMemory) × (held_of feed.old ≡ [] → IsErr (frame_among LAYOUTS piece.now) → ⊥))
        ⊎ (IsBadFrame f × (frame_among LAYOUTS (held_of feed.old ++ piece.now) ≡ Err f))) }
{
    let mut fed = match feed.push(piece) {
        Ok(fed) => fed,
        Err(fault) => return Err(fault),
    };
    match fed.fault {
        Some(fault) => Err(fault),
        None => Ok(fed.messages.pop()),
    }
}

/// Reads one message in any layout, and no byte after it; `None` if the input ends before it.
///
/// Each read requests the bytes that the present length or frame lacks, and at most 4,096. `BadFrame` if the bytes
/// begin with that fault, `Truncated` if the input ends inside the message, `ReadFault` if a read failed, and
/// `OutOfMemory`.
pub fn receive<R: Read>(alloc: Global, reader: &mut Counted<R>) -> Result<Option<Message>, Fault>
    ensures came { Receives (R.remaining (link_of reader.old)) (R.remaining (link_of reader.new))
        reader.old reader.new result }
    ensures turns { calls_of reader.new ≤ calls_of reader.old + MOST_TURNS }
{
    let mut feed = Feed::new(alloc);
    let mut chunk = [0u8; PIECE_LIMIT];
    for _ in 0..MOST_TURNS {
        let room = feed.wants().min(PIECE_LIMIT);
        match reader.read(&mut chunk[..room]) {
            Ok(0) => {
                return match feed.end() {
                    Ok(()) => Ok(None),
                    Err(cut) => Err(cut),
                };
            }
            Ok(n) => match take_piece(&mut feed, &chunk[..n]) {
                Ok(None) => {}
                Ok(Some(message)) => return Ok(Some(message)),
                Err(fault) => return Err(fault),
            },
            Err(_) => return Err(Fault::ReadFault),
        }
    }
    Err(Fault::ReadFault)
}
