//! Claims to tokens: who has which.

ghost use Rattle.std.specs.Prelude.{◌≡◌, ◌++◌, IfOk, OnOk, map, codes, option_copied};
ghost use Rattle.std.specs.List.{before_first, flat_map};
ghost use Rattle.std.specs.Str.{bytes_eq};
ghost use Rattle.std.specs.List.Sorted.{IsPermutation, IsSorted};
ghost use Rattle.cg_types.specs.Numbers.{IsKey};
ghost use Rattle.cg_types.specs.Rising.{Rises, is_among};
ghost use Rattle.cg_types.specs.Rows.{keys_of};
ghost use Rattle.cg_tokens.specs.Text.{is_comma};
ghost use Rattle.cg_tokens.specs.Claims as spec;
ghost use Rattle.cg_tokens.specs.Claims.{text_at, claimed_tokens, claim, claims_of, rank, without, before, behind, merge};

use crate::text::{first_piece, tokens_in};
use crate::token::Token;
use cg_entry::Entry;
use cg_types::{Endpoint, Generation, Row, STATUS_KEY, StateKey, TOKENS_KEY};
use std::alloc::{AllocError, Global};
use std::cmp::Reverse;

/// A token that an endpoint claims, and the generation in which it does.
#[derive(Clone, Copy, Debug)]
pub(crate) struct Claim {
    pub(crate) token: Token,
    pub(crate) endpoint: Endpoint,
    pub(crate) generation: Generation,
}

// The text that an entry has at a key, empty if it has none.
fn text_at(entry: &Entry, key: u8) -> &[u8]
    requires { IsKey key }
    ensures { result.now ≡ text_at entry.now.states key }
{
    let Some(key) = StateKey::new(key) else {
        return b"";
    };
    match entry.get(key) {
        Some((text, _)) => text.as_str().as_bytes(),
        None => b"",
    }
}

// The part of a text before the first comma.
fn first_word(text: &[u8]) -> &[u8]
    ensures { result.now ≡ before_first is_comma text.now }
{
    let (word, _) = first_piece(text);
    word
}

// Tests whether an endpoint is a member of the ring by its status.
fn is_member(entry: &Entry) -> bool
    ensures { result ≡ spec.is_member entry.now.states }
{
    let status = first_word(text_at(entry, STATUS_KEY));
    status == b"NORMAL".as_slice() || status == b"LEAVING".as_slice()
}

// Tests whether two entries have the same text at a key.
fn same_text(one: &Entry, other: &Entry, key: u8) -> bool
    requires { IsKey key }
    ensures { result ≡ bytes_eq (text_at one.now.states key) (text_at other.now.states key) }
{
    text_at(one, key) == text_at(other, key)
}

/// Tests whether an entry shows that it claims the same tokens as the entry held of its owner before. It does if its
/// generation and its texts of `STATUS` and `TOKENS` are the same. It also does if nothing was held, and its `STATUS`
/// up to the first comma is neither `NORMAL` nor `LEAVING`. Both entries are of one owner. Then the ring stays
/// (`laws::ring_stays`). It reads no token and takes no memory, so it answers `false` of other texts that claim the
/// same.
pub fn keeps_claims(held: Option<&Entry>, entry: &Entry) -> bool
    ensures { result ≡ spec.keeps_claims (option_copied held.entry) entry.now }
{
    match held {
        None => !is_member(entry),
        Some(held) => {
            entry.generation() == held.generation()
                && same_text(entry, held, STATUS_KEY)
                && same_text(entry, held, TOKENS_KEY)
        }
    }
}

// The tokens that an endpoint claims.
fn claimed_tokens(alloc: Global, entry: &Entry) -> Result<Vec<Token>, AllocError>
    ensures { IfOk result (λ tokens. tokens.items ≡ claimed_tokens entry.now.states) }
{
    if !is_member(entry) {
        return Ok(Vec::new(alloc));
    }
    match tokens_in(alloc, text_at(entry, TOKENS_KEY))? {
        Some(tokens) => Ok(tokens),
        None => Ok(Vec::new(alloc)),
    }
}

// Adds the claims of one endpoint.
fn add_claims(
    alloc: Global,
    claims: &mut Vec<Claim>,
    owner: Endpoint,
    entry: &Entry,
) -> Result<(), AllocError>
    ensures { OnOk result (claims.new.items ≡ claims.old.items ++ claims_of (owner, entry.now)) }
{
    let tokens = claimed_tokens(alloc, entry)?;
    for token in &tokens {
        claims.push(Claim {
            token: *token,
            endpoint: owner,
            generation: entry.generation(),
        })?;
    }
    Ok(())
}

/// The claims of one endpoint, sorted.
pub(crate) fn claims_by(
    alloc: Global,
    owner: Endpoint,
    entry: &Entry,
) -> Result<Vec<Claim>, AllocError>
    ensures permutation { IfOk result (λ v. IsPermutation (claims_of (owner, entry.now)) v.items) }
    ensures sorted { IfOk result (λ v. IsSorted rank v.items) }
{
    let mut fresh = Vec::new(alloc);
    add_claims(alloc, &mut fresh, owner, entry)?;
    Ok(sort_claims(fresh))
}

// Tests whether one claim comes before another: by its token, or for one token by beating it.
fn goes_before(one: &Claim, other: &Claim) -> bool
    ensures { result ≡ spec.goes_before one.now other.now }
{
    if one.token != other.token {
        return one.token < other.token;
    }
    other.generation < one.generation
        || (other.generation == one.generation && one.endpoint < other.endpoint)
}

// Adds the sorted claims that come before a claim, and returns the others.
fn add_before<'a>(
    made: &mut Vec<Claim>,
    rest: &'a [Claim],
    claim: &Claim,
) -> Result<&'a [Claim], AllocError>
    ensures added { OnOk result (made.new.items ≡ made.old.items ++ before claim.now rest.now) }
    ensures left { IfOk result (λ r. r.now ≡ behind claim.now rest.now) }
{
    let mut left = rest;
    while let Some((first, others)) = left.split_first() {
        if !goes_before(first, claim) {
            return Ok(left);
        }
        made.push(*first)?;
        left = others;
    }
    Ok(left)
}

// Tests whether an endpoint is one of owners that rise, by halving.
fn is_one_of(owners: &[Endpoint], endpoint: Endpoint) -> bool
    requires { Rises owners.now }
    ensures { result ≡ is_among owners.now endpoint }
{
    owners.binary_search(&endpoint).is_ok()
}

/// Sorted claims without those of some owners, and with others that are sorted, in one walk over both.
pub(crate) fn merged(
    alloc: Global,
    claims: &[Claim],
    owners: &[Endpoint],
    fresh: &[Claim],
) -> Result<Vec<Claim>, AllocError>
    requires { Rises owners.now }
    ensures { IfOk result (λ v. v.items ≡ merge (without owners.now claims.now) fresh.now) }
{
    let mut made = Vec::with_capacity(alloc, claims.len() + fresh.len())?;
    let mut rest = fresh;
    for claim in claims {
        if !is_one_of(owners, claim.endpoint) {
            rest = add_before(&mut made, rest, claim)?;
            made.push(*claim)?;
        }
    }
    made.extend_from_slice(rest)?;
    Ok(made)
}

// The claims of the owners of rows.
fn all_claims(alloc: Global, rows: &[Row<Entry>]) -> Result<Vec<Claim>, AllocError>
    ensures { IfOk result (λ all. all.items ≡ flat_map claims_of rows.now) }
{
    let mut all = Vec::new(alloc);
    for row in rows {
        add_claims(alloc, &mut all, row.endpoint(), row.value())?;
    }
    Ok(all)
}

/// The claims of the owners of rows, sorted.
pub(crate) fn claims_of_rows(alloc: Global, rows: &[Row<Entry>]) -> Result<Vec<Claim>, AllocError>
    ensures permutation { IfOk result (λ v. IsPermutation (flat_map claims_of rows.now) v.items) }
    ensures sorted { IfOk result (λ v. IsSorted rank v.items) }
{
    let all = all_claims(alloc, rows)?;
    Ok(sort_claims(all))
}

/// The owners of rows.
pub(crate) fn owners_of(alloc: Global, rows: &[Row<Entry>]) -> Result<Vec<Endpoint>, AllocError>
    ensures { IfOk result (λ v. v.items ≡ keys_of rows.now) }
{
    let mut owners = Vec::with_capacity(alloc, rows.len())?;
    for row in rows {
        owners.push(row.endpoint())?;
    }
    Ok(owners)
}

// The same claims, sorted by their tokens, and those of one token with the winner first.
fn sort_claims(mut claims: Vec<Claim>) -> Vec<Claim>
    ensures permutation { IsPermutation claims.items result.items }
    ensures sorted { IsSorted rank result.items }
{
    claims.sort_unstable_by_key(|claim| {
        (claim.token, Reverse(claim.generation.get()), claim.endpoint)
    });
    claims
}
