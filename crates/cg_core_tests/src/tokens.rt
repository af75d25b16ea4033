//! Tokens of RFC 1321's test suite, and texts of tokens.

use cg_testing::{expect, expect_eq};
use cg_tokens::{TOKEN_LIMIT, Token, first_piece, read_tokens, token_of, tokens_in};
use cg_types::Fault;
use std::alloc::{AllocError, Global};
use std::test::Fail;

pub(crate) fn token(number: u128) -> Result<Token, Fail> {
    Ok(Token::new(number).ok_or("a token")?)
}

// The text of a key's token.
fn text_of_key(alloc: Global, key: &str) -> Result<String, AllocError> {
    let token = token_of(key.as_bytes());
    format!(in alloc; "{token}")
}

#[test]
fn tokens_of_keys(rt: HostRuntime) -> Result<(), Fail> {
    for (key, text) in [
        ("", "2be2732670ff4dfb167ff6671307bd82"),
        ("a", "0cc175b9c0f1b6a831c399e269772661"),
        ("abc", "6ffeaf67c32db04f2969c082d71e808e"),
        ("message digest", "0694968283486c72ada5d0ce550e9e30"),
        (
            "abcdefghijklmnopqrstuvwxyz",
            "3c032c289e6d1bff8204b69335981ec5",
        ),
        (
            "ABCDEFGHIJKLMNOPQRSTUVWXYZabcdefghijklmnopqrstuvwxyz0123456789",
            "2e8b54672d88260a5a9ee3d360be6261",
        ),
        (
            "12345678901234567890123456789012345678901234567890123456789012345678901234567890",
            "57edf4a22be3c955ac49da2e2107b67a",
        ),
    ] {
        expect_eq!(text_of_key(rt.alloc(), key)?.as_str(), text, "of {key}")?;
    }
    Ok(())
}

#[test]
fn tokens_are_bounded_and_ordered() -> Result<(), Fail> {
    let numbers = (token(0)?.number(), token(TOKEN_LIMIT)?.number());
    expect_eq!(numbers, (0, TOKEN_LIMIT))?;
    expect!(Token::new(TOKEN_LIMIT + 1).is_none())?;
    let (one, two) = (token(1)?, token(2)?);
    expect!(one < two)?;
    expect!(one != two)
}

const AT_16_AND_64: &str = "00000000000000000000000000000010,00000000000000000000000000000040";

fn fault_of(alloc: Global, text: &str) -> Option<Fault> {
    read_tokens(alloc, text).err()
}

// The number of tokens of a text, and the first two.
type FirstTwo = (usize, Option<Token>, Option<Token>);

fn first_two(alloc: Global, text: &str) -> Result<FirstTwo, Fault> {
    let tokens = read_tokens(alloc, text)?;
    Ok((tokens.len(), tokens.get(0).copied(), tokens.get(1).copied()))
}

#[test]
fn texts_of_tokens_are_read(rt: HostRuntime) -> Result<(), Fail> {
    let two = (2, Some(token(16)?), Some(token(64)?));
    expect_eq!(first_two(rt.alloc(), AT_16_AND_64)?, two)?;
    let greatest = (1, Some(token(TOKEN_LIMIT)?), None);
    expect_eq!(
        first_two(rt.alloc(), "80000000000000000000000000000000")?,
        greatest
    )
}

fn expect_16_and_64(tokens: &[Token]) -> Result<(), Fail> {
    expect!(tokens == [token(16)?, token(64)?].as_slice())
}

#[test]
fn tokens_in_a_text(rt: HostRuntime) -> Result<(), Fail> {
    let tokens = tokens_in(rt.alloc(), AT_16_AND_64.as_bytes())?.ok_or("tokens")?;
    expect_16_and_64(&tokens)?;
    expect!(tokens_in(rt.alloc(), b"16,64")?.is_none())
}

#[test]
fn the_first_piece_of_a_text() -> Result<(), Fail> {
    for (text, piece, behind) in [
        ("normal,16,64", "normal", Some("16,64")),
        ("normal", "normal", None),
        (",16", "", Some("16")),
        ("16,", "16", Some("")),
        ("", "", None),
    ] {
        let (first, rest) = first_piece(text.as_bytes());
        expect!(first == piece.as_bytes(), "of {text}")?;
        expect!(
            rest == behind.map(|it| it.as_bytes()),
            "behind it in {text}"
        )?;
    }
    Ok(())
}

#[test]
fn other_texts_are_bad(rt: HostRuntime) -> Result<(), Fail> {
    for text in [
        "",
        ",",
        "80000000000000000000000000000001",
        "00000000000000000000000000000020,00000000000000000000000000000020",
        "00000000000000000000000000000020,00000000000000000000000000000010",
        "00000000000000000000000000000010,",
        ",00000000000000000000000000000010",
        "00000000000000000000000000000010,,00000000000000000000000000000020",
        "00000000000000000000000000000010, 0000000000000000000000000000020",
        "0000000000000000000000000000001",
        "000000000000000000000000000000010",
        "0000000000000000000000000000000A",
        "0000000000000000000000000000000g",
        "+0000000000000000000000000000010",
    ] {
        expect_eq!(fault_of(rt.alloc(), text), Some(Fault::BadText), "{text}")?;
    }
    Ok(())
}

// A text with one more token, after a comma unless it is the first.
fn with_token(alloc: Global, text: &str, number: u64) -> Result<String, Fail> {
    let comma = if number > 1 { "," } else { "" };
    let token = token(u128::from(number))?;
    Ok(format!(in alloc; "{text}{comma}{token}")?)
}

// The tokens from 1 on, with commas between them.
fn text_of(alloc: Global, count: u64) -> Result<String, Fail> {
    let mut text = String::new(alloc);
    for number in 1..=count {
        text = with_token(alloc, text.as_str(), number)?;
    }
    Ok(text)
}

fn expect_16_tokens(alloc: Global, text: &str) -> Result<(), Fail> {
    let tokens = read_tokens(alloc, text)?;
    expect_eq!(tokens.len(), 16)?;
    expect_eq!(tokens[15], token(16)?)
}

#[test]
fn sixteen_tokens_and_no_more(rt: HostRuntime) -> Result<(), Fail> {
    expect_16_tokens(rt.alloc(), &text_of(rt.alloc(), 16)?)?;
    let more = text_of(rt.alloc(), 17)?;
    expect_eq!(fault_of(rt.alloc(), &more), Some(Fault::BadText))
}
