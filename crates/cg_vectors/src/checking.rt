//! The vectors of a file, run one after the other.

ghost use Rattle.std.specs.Prelude.{◌≡◌, ◌≤◌, IfOk, map, count_by, not};
ghost use Rattle.std.specs.Str.Lines.{lines};
ghost use Rattle.cg_vectors.specs.Vector as spec;

use crate::subject::{Subject, expected, found};
use crate::vector::{Vector, is_remark, is_same, vector_in};
use cg_types::Fault;
use std::alloc::{AllocError, Global};
use std::rt::Files;

/// The number of vectors that hold, and of all.
#[derive(Clone, Copy, Debug)]
pub struct Tally {
    pub held: usize,
    pub all: usize,
}

/// Returns the lines of a text.
pub fn lines_in(alloc: Global, text: &str) -> Result<Vec<&str>, AllocError>
    ensures { IfOk result (λ v. map (λ line. line.now) v.items ≡ lines text.now) }
{
    text.lines().collect(alloc)
}

// Reads bytes as a text.
fn text_in(bytes: &[u8]) -> Result<&str, Fault> {
    match std::str::from_utf8(bytes) {
        Ok(text) => Ok(text),
        Err(_) => Err(Fault::BadText),
    }
}

// Prints the text that was found at a line instead of the expected one.
fn tell_difference<R: Print>(rt: &R, file: &str, number: usize, found: &[u8]) {
    let text = text_in(found).unwrap_or("no text");
    let _ = println!(rt; "{file}:{number}: {text}");
}

// Tests whether a vector holds; if it does not, prints the text that was found.
fn vector_holds<R: Files + Print + Alloc<A = Global>>(
    rt: &R,
    file: &str,
    number: usize,
    subject: Subject,
    vector: Vector<'_>,
) -> Result<bool, Fault> {
    let found = found(rt, subject, text_in(vector.given)?)?;
    let expected = expected(rt, subject, text_in(vector.expected)?)?;
    let same = is_same(&found, &expected);
    if !same {
        tell_difference(rt, file, number, &found);
    }
    Ok(same)
}

// Tests whether a line has a vector that holds; if not, prints the text that was found, or why there is none.
fn line_holds<R: Files + Print + Alloc<A = Global>>(
    rt: &R,
    file: &str,
    number: usize,
    subject: Subject,
    line: &str,
) -> bool {
    let Some(vector) = vector_in(line.as_bytes()) else {
        let _ = println!(rt; "{file}:{number}: no vector");
        return false;
    };
    match vector_holds(rt, file, number, subject, vector) {
        Ok(holds) => holds,
        Err(fault) => {
            let _ = println!(rt; "{file}:{number}: fault {fault}");
            false
        }
    }
}

/// Runs the vector of each line that is neither empty nor a remark, and returns the numbers of those that hold and of
/// all.
pub fn check_lines<R: Files + Print + Alloc<A = Global>>(
    rt: &R,
    file: &str,
    subject: Subject,
    lines: &[&str],
) -> Tally
    // No vector is passed over.
    ensures all { result.all ≡ count_by (λ line. not (spec.is_remark line.now)) lines.now }
    ensures held { result.held ≤ result.all }
{
    let mut tally = Tally { held: 0, all: 0 };
    let mut number: usize = 0;
    for line in lines {
        number = number.saturating_add(1);
        if !is_remark(line.as_bytes()) {
            tally.all += 1;
            if line_holds(rt, file, number, subject, line) {
                tally.held += 1;
            }
        }
    }
    tally
}
