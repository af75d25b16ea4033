//! One line of a file of vectors.

ghost use Rattle.std.specs.Prelude.{◌≡◌, ◌↔◌, ◌≤◌, ℕ, List, IsTrue, IfSome, IfNone, length};
ghost use Rattle.cg_vectors.specs.Vector as spec;
ghost use Rattle.cg_vectors.specs.Vector.{IsVector};

// The separator between the input of a vector and its expected text.
const EQUALS: &[u8] = b" = ";

/// A vector: its input, and its expected text.
#[derive(Clone, Copy, Debug)]
pub struct Vector<'a> {
    pub given: &'a [u8],
    pub expected: &'a [u8],
}

/// Tests whether a line has no vector: it is empty, or a remark.
pub fn is_remark(line: &[u8]) -> bool
    ensures { result ≡ spec.is_remark line.now }
{
    match line.first() {
        None => true,
        Some(first) => *first == b'#',
    }
}

/// Reads the vector of a line, cut at the first equals sign between two spaces.
pub fn vector_in(line: &[u8]) -> Option<Vector<'_>>
    ensures some { IfSome result (λ v. IsVector line.now v.given.now v.expected.now) }
    ensures first { IfSome result (λ v. (given expected : List ℕ) → IsVector line.now given expected
        → length v.given.now ≤ length given) }
    ensures none { IfNone result ((given expected : List ℕ) → ¬ IsVector line.now given expected) }
{
    for place in 0..line.len() {
        let (given, rest) = line.split_at(place);
        if let Some(expected) = rest.strip_prefix(EQUALS) {
            return Some(Vector { given, expected });
        }
    }
    None
}

/// Tests whether the bytes found are the expected ones.
pub fn is_same(found: &[u8], expected: &[u8]) -> bool
    ensures { IsTrue result ↔ (found.now ≡ expected.now) }
{
    found == expected
}
