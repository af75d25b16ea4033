//! The length of a text's whole lines.

ghost use Rattle.std.specs.Prelude.{◌≡◌, ◌+◌, ◌<◌, ◌^◌, ◌++◌, ℕ, List, length, IfOk, IfErr};
ghost use Rattle.cg_types.specs.declared.fault.Fault.TheVariants as faults;
ghost use Rattle.cg_links.specs.Counted.{link_of};
ghost use Rattle.cg_cut.specs.Whole as spec;
ghost use Rattle.cg_cut.specs.Whole.{ReadsLength};

use cg_links::{Counted, MOST_READS, PIECE_LIMIT};
use cg_types::Fault;
use std::io::Read;

// Returns the number of bytes up to the last line feed of a piece, with it.
fn length_in(piece: &[u8]) -> usize
    ensures { result ≡ spec.whole_length piece.now }
{
    let mut rest = piece;
    while let Some((last, front)) = rest.split_last() {
        if *last == b'\n' {
            return rest.len();
        }
        rest = front;
    }
    0
}

// Returns the length of the whole lines of a text of `read` bytes and a piece behind it, if those of the text alone have
// this length.
fn length_with(whole: u64, read: u64, piece: &[u8]) -> u64
    requires { read + length piece.now < 2 ^ 63 }
    ensures { (text : List ℕ) → length text ≡ read → spec.whole_length text ≡ whole
        → spec.whole_length (text ++ piece.now) ≡ result }
{
    let n = length_in(piece);
    if n == 0 {
        return whole;
    }
    read + n as u64
}

/// Reads all that the reader has left, and returns the length of its whole lines: the number of bytes up to the last
/// line feed, with it. `ReadFault` if a read fails or 4,294,967,295 reads did not meet the end. It takes no memory.
pub fn whole_length<R: Read>(reader: &mut Counted<R>) -> Result<u64, Fault>
    ensures ok { IfOk result (ReadsLength (R.remaining (link_of reader.old)) (R.remaining (link_of reader.new))) }
    ensures fault { IfErr result (λ f. f ≡ faults.ReadFault) }
{
    let mut piece = [0u8; PIECE_LIMIT];
    let mut read = 0u64;
    let mut whole = 0u64;
    for _ in 0..MOST_READS {
        match reader.read(&mut piece) {
            Ok(0) => return Ok(whole),
            Ok(n) => {
                whole = length_with(whole, read, &piece[..n]);
                read += n as u64;
            }
            Err(_) => return Err(Fault::ReadFault),
        }
    }
    Err(Fault::ReadFault)
}
