//! Parts of a line, and numbers in decimal digits.

ghost use Rattle.std.specs.Prelude.{◌≡◌, ◌≢◌, ℕ, ◌≤◌, decimal, IfSome, IfNone, option_map, ◌+◌, ◌*◌, ◌==◌, ◌&&◌, ◌||◌, not, nat_lt, nat_le, if◌then◌else◌, slice_index, length, Some, None};
ghost use Rattle.std.specs.List.{list_all};
ghost use Rattle.std.specs.Char.{is_ascii_digit};
ghost use Rattle.std.specs.Str.Parse.{digits_value};
ghost use Rattle.cg_types.specs.Words as spec;
ghost use Rattle.cg_types.specs.Words.{cut_at, number_of};

/// Cuts bytes at the first byte `at`: returns the part before it and the part after it, or `None` if there is no such
/// byte.
pub fn cut(bytes: &[u8], at: u8) -> Option<(&[u8], &[u8])>
    ensures { option_map (λ p. (p.0.now, p.1.now)) result ≡ cut_at at bytes.now }
{
    for i in 0..bytes.len() {
        if bytes[i] == at {
            return Some((&bytes[..i], &bytes[i + 1..]));
        }
    }
    None
}

/// Reads a number of at most `most` from its text, in decimal digits with no leading zero.
pub fn number(text: &[u8], most: u64) -> Option<u64>
    ensures value { result ≡ number_of most text.now }
    ensures some { IfSome result (λ n. (text.now ≡ decimal n) × (n ≤ most)) }
    ensures none { IfNone result ((n : ℕ) → n ≤ most → text.now ≢ decimal n) }
{
    read_number(text, most)
}

/// Reads a number from `least` to `most` from its text, as `number` does.
pub fn number_between(text: &[u8], least: u64, most: u64) -> Option<u64>
    ensures value { result ≡ spec.number_between least most text.now }
    ensures some { IfSome result (λ n. (text.now ≡ decimal n) × (least ≤ n) × (n ≤ most)) }
    ensures none { IfNone result ((n : ℕ) → least ≤ n → n ≤ most → text.now ≢ decimal n) }
{
    read_between(text, least, most)
}

#[tactic(auto, unfolding(crate::specs::Words::number_between))]
fn read_between(text: &[u8], least: u64, most: u64) -> Option<u64>
    ensures { result ≡ spec.number_between least most text.now }
{
    let number = read_number(text, most)?;
    if number < least { None } else { Some(number) }
}

#[tactic(auto, unfolding(crate::specs::Words::number_of))]
fn read_number(text: &[u8], most: u64) -> Option<u64>
    ensures { result ≡ number_of most text.now }
{
    if !begins_well(text) {
        return None;
    }
    value_of(text, most)
}

// Tests whether there is a byte, and no zero leads others.
fn begins_well(text: &[u8]) -> bool
    ensures { result ≡ (nat_lt 0 (length text.now) && (not (slice_index text.now 0 == 48) || length text.now == 1)) }
{
    !text.is_empty() && (text[0] != b'0' || text.len() == 1)
}

// The number of at most `most` that digits write, also with zeros before it.
fn value_of(text: &[u8], most: u64) -> Option<u64>
    ensures { result ≡ (if list_all is_ascii_digit text.now && nat_le (digits_value 10 text.now) most
        then Some (digits_value 10 text.now) else None) }
{
    let mut value = 0;
    for byte in text {
        if !byte.is_ascii_digit() {
            return None;
        }
        let Some(next) = with_digit(value, u64::from(*byte - b'0'), most) else {
            return None;
        };
        value = next;
    }
    Some(value)
}

// A number with one more digit, if that is at most `most`.
fn with_digit(number: u64, digit: u64, most: u64) -> Option<u64>
    requires { number ≤ most }
    ensures { result ≡ (if nat_le (number * 10 + digit) most then Some (number * 10 + digit) else None) }
{
    if number > most / 10 {
        return None;
    }
    let tens = number * 10;
    if digit > most - tens {
        return None;
    }
    Some(tens + digit)
}
