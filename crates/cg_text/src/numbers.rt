//! Two numbers that end a line, put together in place.

ghost use Rattle.std.specs.Prelude.{◌≡◌, ◌≤◌, ◌+◌, ◌∷◌, ◌++◌, [], codes, drop, decimal, OnOk, string_bytes};

use itoa::write_digits;
use std::alloc::AllocError;
use std::str::from_utf8_unchecked;

// The bytes of the longest two: ten digits and a byte each.
const LONGEST: usize = 22;

// Puts a number and the byte after it before the bytes that begin at `end`, and returns the place where they begin.
fn put_number(number: u32, ending: u8, text: &mut [u8; LONGEST], end: usize) -> usize
    requires room { 11 ≤ end }
    requires within { end ≤ 22 }
    ensures start { result ≤ end }
    ensures short { end ≤ result + 11 }
    ensures text { drop result text.new ≡ decimal number ++ (ending ∷ drop end text.old) }
{
    text[end - 1] = ending;
    write_digits(u64::from(number), text, end - 1)
}

// Puts both at the end of some bytes, and returns the place where they begin. The last part is put first, so that all
// are written at once.
fn put_numbers(first: u32, second: u32, text: &mut [u8; LONGEST]) -> usize
    ensures start { result ≤ 22 }
    ensures text { drop result text.new ≡ decimal first ++ (32 ∷ (decimal second ++ (10 ∷ []))) }
{
    let at = put_number(second, b'\n', text, LONGEST);
    put_number(first, b' ', text, at)
}

// The two numbers as UTF-8, which they are by proof: digits, a space and a line feed.
fn text_of(first: u32, second: u32, room: &mut [u8; LONGEST]) -> &str
    ensures { result.now ≡ decimal first ++ (32 ∷ (decimal second ++ (10 ∷ []))) }
{
    let start = put_numbers(first, second, room);
    unsafe { from_utf8_unchecked(&room[start..]) }
}

/// Adds two numbers with a space between, and a line feed.
pub(crate) fn add_numbers(text: &mut String, first: u32, second: u32) -> Result<(), AllocError>
    ensures { OnOk result (string_bytes text.new
        ≡ string_bytes text.old ++ (decimal first ++ (codes " " ++ (decimal second ++ codes "\n")))) }
{
    text.push_str(text_of(first, second, &mut [0u8; LONGEST]))
}
