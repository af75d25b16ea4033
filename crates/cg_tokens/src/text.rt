//! Texts of tokens.

ghost use Rattle.std.specs.Prelude.{◌≡◌, ◌≢◌, ℕ, List, Err, ◌<◌, ◌≤◌, ◌∷◌, length, IfOk, OnErr, IfSome, IsSome, IsTrue, option_copied, option_map};
ghost use Rattle.std.specs.List.{list_all};
ghost use Rattle.std.specs.Char.{digit_value};
ghost use Rattle.std.specs.Str.Parse.{digits_value};
ghost use Rattle.cg_types.specs.Answer.{Answers};
ghost use Rattle.cg_tokens.specs.Text.{is_lower_digit, token_in, pieces, pieces_of, tokens_of, read_as, tokens_text, AreTokens};
ghost use Rattle.cg_types.specs.declared.fault.Fault.TheVariants.{BadText};

use crate::limits::{COMMA, TOKEN_COUNT_LIMIT, TOKEN_DIGITS};
use crate::token::Token;
use arrayvec::ArrayVec;
use cg_types::{Fault, cut};
use std::alloc::{AllocError, Global};

// Tests whether a byte is a digit, as hexadecimal texts of tokens have them: no capital letter.
fn is_lower_digit(byte: u8) -> bool
    ensures { result ≡ is_lower_digit byte }
{
    matches!(byte, b'0'..=b'9' | b'a'..=b'f')
}

fn are_lower_digits(text: &[u8]) -> bool
    ensures { result ≡ list_all is_lower_digit text.now }
{
    text.iter().all(|byte| is_lower_digit(*byte))
}

// The value of a digit.
fn digit_of(byte: u8) -> u8
    requires { IsTrue (is_lower_digit byte) }
    ensures value { result ≡ digit_value byte }
    ensures range { result < 16 }
{
    if byte <= b'9' {
        byte - b'0'
    } else {
        byte - b'a' + 10
    }
}

// The number that digits write.
fn number_of(digits: &[u8]) -> u128
    requires digits { IsTrue (list_all is_lower_digit digits.now) }
    requires few { length digits.now ≤ TOKEN_DIGITS }
    ensures { result ≡ digits_value 16 digits.now }
{
    let mut number = 0;
    for byte in digits {
        number = number * 16 + u128::from(digit_of(*byte));
    }
    number
}

// The token that 32 digits write.
#[tactic(auto, unfolding(crate::specs::Text::token_in))]
fn token_in(digits: &[u8]) -> Option<Token>
    ensures { result ≡ token_in digits.now }
{
    if digits.len() != TOKEN_DIGITS || !are_lower_digits(digits) {
        return None;
    }
    Token::new(number_of(digits))
}

/// Cuts a text at its first comma: returns the part before it, and the part after it if there is a comma.
pub fn first_piece(text: &[u8]) -> (&[u8], Option<&[u8]>)
    ensures pieces { pieces text.now ≡ result.0.now ∷ pieces_of (option_copied result.1) }
    ensures shorter { IfSome result.1 (λ rest. length rest.now < length text.now) }
{
    match cut(text, COMMA) {
        Some((piece, rest)) => (piece, Some(rest)),
        None => (text, None),
    }
}

// The tokens of a text, if it is one of tokens, on the stack.
fn gather(text: &[u8]) -> Option<ArrayVec<Token, TOKEN_COUNT_LIMIT>>
    ensures { option_map (λ v. v.items) result ≡ tokens_of text.now }
{
    let mut tokens = ArrayVec::new();
    let mut last: Option<Token> = None;
    let mut rest = Some(text);
    while let Some(text) = rest {
        let (piece, behind) = first_piece(text);
        let Some(token) = token_in(piece) else {
            return None;
        };
        if let Some(before) = last
            && token <= before
        {
            return None;
        }
        if tokens.try_push(token).is_err() {
            return None;
        }
        last = Some(token);
        rest = behind;
    }
    Some(tokens)
}

/// Reads the tokens of a text, if it is one of tokens, as `read_tokens` does. `AllocError` comes only for such a text.
pub fn tokens_in(alloc: Global, text: &[u8]) -> Result<Option<Vec<Token>>, AllocError>
    ensures ok { IfOk result (λ tokens. option_map (λ v. v.items) tokens ≡ tokens_of text.now) }
    ensures err { OnErr result (IsSome (tokens_of text.now)) }
{
    match gather(text) {
        Some(tokens) => Ok(Some(tokens.as_slice().to_vec(alloc)?)),
        None => Ok(None),
    }
}

/// Reads the tokens of an endpoint from a text, as its state `TOKENS` has it. That is 1 to `TOKEN_COUNT_LIMIT` tokens
/// of 32 lower-case hexadecimal digits, each greater than the one before it, with one comma between them. Any other
/// text is BadText, whatever memory there is; OutOfMemory comes only if the text is one of tokens.
pub fn read_tokens(alloc: Global, text: &str) -> Result<Vec<Token>, Fault>
    ensures answer { Answers (λ tokens. tokens.items) (read_as (tokens_of text.now)) result }
    // The text is the one that is written for the tokens.
    ensures ok { IfOk result (λ tokens. text.now ≡ tokens_text tokens.items) }
    // A text that is refused is not the text of any tokens.
    ensures bad { result ≡ Err BadText → (tokens : List ℕ) → AreTokens tokens → text.now ≢ tokens_text tokens }
{
    match tokens_in(alloc, text.as_bytes())? {
        Some(tokens) => Ok(tokens),
        None => Err(Fault::BadText),
    }
}
