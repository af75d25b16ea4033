//! Lines, one after the other, from a reader.

ghost use Rattle.std.specs.Prelude.{◌≡◌, ◌≤◌, ◌+◌, ◌⊎◌, ℕ, List, [], ◌++◌, MatchResult, OnOk, IfOk, IfErr};
ghost use Rattle.cg_types.specs.declared.fault.Fault.{Fault as FaultValue};
ghost use Rattle.cg_types.specs.declared.fault.Fault.TheVariants as faults;
ghost use Rattle.cg_links.specs.Counted.{link_of, calls_of};
ghost use Rattle.cg_links.specs.Lines.{ended_lines, unended_line, last_line};
ghost use Rattle.cg_links.specs.declared.lines.Next.TheVariants.{More};
ghost use Rattle.cg_links.specs.Taken.{Takes, Refuses, StopsAmong, EndsAmong, Goes, GoesOn, TakesLines};

use crate::counted::Counted;
use crate::transfer::MOST_READS;
use cg_types::{Fault, cut};
use std::alloc::Global;
use std::io::Read;

/// The most bytes of a text that one read asks for.
pub const PIECE_LIMIT: usize = 4096;

/// After a line that was taken: more lines are to be read, or the reading stops.
#[derive(Clone, Copy, Debug, PartialEq, Eq)]
pub enum Next {
    More,
    Stop,
}

/// A taker of the lines of a text, one after the other.
pub trait TakeLine {
    // a state, a line, and the state that it leads to
    ghost takes: { Self → List ℕ → Self → Type 0 };

    // a state, a line that ends the reading, and the state that is left
    ghost ends: { Self → List ℕ → Self → Type 0 };

    // a state, a line that is refused, the state that is left, and the fault
    ghost refuses: { Self → List ℕ → Self → FaultValue → Type 0 };

    /// Takes the next line, which has no line feed.
    fn take_line(&mut self, alloc: Global, line: &[u8]) -> Result<Next, Fault>
        ensures { MatchResult result
            (λ next. Goes takes ends next self.old line.now self.new) (λ f. refuses self.old line.now self.new f) };
}

// Keeps bytes of a line that has not ended.
fn hold(front: &mut Vec<u8>, part: &[u8]) -> Result<(), Fault>
    ensures ok { OnOk result (front.new.items ≡ front.old.items ++ part.now) }
    ensures err { IfErr result (λ f. f ≡ faults.OutOfMemory) }
{
    match front.extend_from_slice(part) {
        Ok(()) => Ok(()),
        Err(_) => Err(Fault::OutOfMemory),
    }
}

// Hands over a line that ends with `part`, and leaves nothing in `front`, which came before that part. A line that is
// whole in a chunk is handed over where it lies.
fn take_ended<T: TakeLine>(
    alloc: Global,
    taker: &mut T,
    front: &mut Vec<u8>,
    part: &[u8],
) -> Result<Next, Fault>
    ensures taken { MatchResult result
        (λ next. Goes T.takes T.ends next taker.old (front.old.items ++ part.now) taker.new)
        (λ f. T.refuses taker.old (front.old.items ++ part.now) taker.new f
        ⊎ ((f ≡ faults.OutOfMemory) × (taker.new ≡ taker.old))) }
    ensures none { OnOk result (front.new.items ≡ []) }
{
    if front.is_empty() {
        return match taker.take_line(alloc, part) {
            Ok(next) => Ok(next),
            Err(fault) => Err(fault),
        };
    }
    match hold(front, part) {
        Ok(()) => {}
        Err(fault) => return Err(fault),
    }
    let next = match taker.take_line(alloc, front) {
        Ok(next) => next,
        Err(fault) => return Err(fault),
    };
    front.clear();
    Ok(next)
}

// Hands over each line that ends in a chunk of a text, up to one that ends the reading. `front` comes before the chunk
// in its line, and then holds the bytes after the last line feed.
fn take_piece<T: TakeLine>(
    alloc: Global,
    taker: &mut T,
    front: &mut Vec<u8>,
    piece: &[u8],
) -> Result<Next, Fault>
    ensures taken { MatchResult result
        (λ next. GoesOn T.takes T.ends T.refuses next taker.old (ended_lines front.old.items piece.now) taker.new)
        (λ f. StopsAmong T.takes T.refuses taker.old (ended_lines front.old.items piece.now) taker.new f) }
    ensures unended { IfOk result (λ next. next ≡ More → front.new.items ≡ unended_line front.old.items piece.now) }
{
    let mut rest = piece;
    while let Some((part, behind)) = cut(rest, b'\n') {
        match take_ended(alloc, taker, front, part) {
            Ok(Next::More) => {}
            Ok(Next::Stop) => return Ok(Next::Stop),
            Err(fault) => return Err(fault),
        }
        rest = behind;
    }
    match hold(front, rest) {
        Ok(()) => Ok(Next::More),
        Err(fault) => Err(fault),
    }
}

// Hands over the last line, if it does not end with a line feed.
fn take_last<T: TakeLine>(alloc: Global, taker: &mut T, line: &[u8]) -> Result<(), Fault>
    ensures { MatchResult result
        (λ _. Takes T.takes T.refuses taker.old (last_line line.now) taker.new
        ⊎ EndsAmong T.takes T.ends T.refuses taker.old (last_line line.now) taker.new)
        (λ f. Refuses T.takes T.refuses taker.old (last_line line.now) taker.new f) }
{
    if line.is_empty() {
        return Ok(());
    }
    match taker.take_line(alloc, line) {
        Ok(_) => Ok(()),
        Err(fault) => Err(fault),
    }
}

// Hands over each line of a text, of which nothing was read, up to one that ends the reading.
fn take_pieces<T: TakeLine, R: Read>(
    alloc: Global,
    taker: &mut T,
    front: &mut Vec<u8>,
    reader: &mut Counted<R>,
) -> Result<(), Fault>
    requires none { front.old.items ≡ [] }
    ensures lines { TakesLines T.takes T.ends T.refuses
        (R.remaining (link_of reader.old)) (R.remaining (link_of reader.new)) reader.old reader.new
        taker.old taker.new result }
    ensures turns { calls_of reader.new ≤ calls_of reader.old + MOST_READS }
{
    let mut piece = [0u8; PIECE_LIMIT];
    for _ in 0..MOST_READS {
        match reader.read(&mut piece) {
            Ok(0) => return take_last(alloc, taker, front),
            Ok(n) => match take_piece(alloc, taker, front, &piece[..n]) {
                Ok(Next::More) => {}
                Ok(Next::Stop) => return Ok(()),
                Err(fault) => return Err(fault),
            },
            Err(_) => return Err(Fault::ReadFault),
        }
    }
    Err(Fault::ReadFault)
}

/// Hands over the lines that the reader has left, without their line feeds, up to the first that ends the reading or is
/// refused, with the fault of that line. The last line feed may be missing.
///
/// `ReadFault` if a read fails or 4,294,967,295 reads were made: then the lines that were read whole were taken.
/// `OutOfMemory` if a line finds no room: then the lines that were whole before the last read were taken, and some of
/// those that this read ended.
pub fn take_lines<T: TakeLine, R: Read>(
    alloc: Global,
    taker: &mut T,
    reader: &mut Counted<R>,
) -> Result<(), Fault>
    ensures lines { TakesLines T.takes T.ends T.refuses
        (R.remaining (link_of reader.old)) (R.remaining (link_of reader.new)) reader.old reader.new
        taker.old taker.new result }
    ensures turns { calls_of reader.new ≤ calls_of reader.old + MOST_READS }
{
    let mut front = Vec::new(alloc);
    take_pieces(alloc, taker, &mut front, reader)
}
