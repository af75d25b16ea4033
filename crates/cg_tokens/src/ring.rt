//! The ring of tokens, and replicas on it.

ghost use Rattle.std.specs.Prelude.{◌≡◌, ◌≤◌, IfOk, OnOk, None, filter, nat_lt, nat_le, length, take, drop, option_copied};
ghost use Rattle.std.specs.List.Sorted.{IsSorted};
ghost use Rattle.std.specs.FinMap as map;
ghost use Rattle.cg_types.specs.Rising.{Rises};
ghost use Rattle.cg_types.specs.Rows.{keys_of};
ghost use Rattle.cg_table.specs.Values.{Entries};
ghost use Rattle.cg_tokens.specs.Claims.{first_claims, rank};
ghost use Rattle.cg_tokens.specs.Moving.{listed, IsRingOf, IsRingWith, AreMoved};
ghost use Rattle.cg_tokens.specs.Ring.{replicas, firsts_until, with_one, endpoints};

use crate::claims::{Claim, claims_by, claims_of_rows, keeps_claims, merged, owners_of};
use crate::token::Token;
use cg_entry::Entry;
use cg_table::Table;
use cg_types::{Endpoint, Row};
use std::alloc::{AllocError, Global};
use std::marker::Model;
use std::ops::Deref;
use std::sync::Arc;

// The sorted claims of a ring, and its positions: the first claim of each token.
#[derive(Drop)]
struct Listed {
    claims: Vec<Claim>,
    positions: Vec<(Token, Endpoint)>,
}

impl Model for Listed {
    ghost use Rattle.std.specs.FinMap as map;
    ghost use Rattle.cg_tokens.specs.Values.{RingValue, ring_code};
    ghost use Rattle.cg_tokens.specs.Moving.{IsListed};

    ghost Value = { RingValue };

    ghost coded = { ring_code };

    ghost view = { λ l. record { claims = l.claims.items; positions = map.from_sorted l.positions.items } };

    ghost invariant = { λ l. IsListed l.claims.items l.positions.items };
}

/// A ring: the tokens that are claimed in a table, each with the endpoint that has it, and all claims behind them. It
/// holds nothing for a token that nobody claims. Copies share both lists.
#[derive(Drop)]
pub struct Ring {
    listed: Arc<Listed, Global>,
}

/// A contract sees the sorted claims, and the positions as a finite map from tokens to endpoints.
impl Model for Ring {
    ghost use Rattle.std.specs.Arc.{arc_value};
    ghost use Rattle.cg_tokens.specs.Values.{RingValue, ring_code};

    ghost Value = { RingValue };

    ghost coded = { ring_code };

    ghost view = { λ r. arc_value r.listed };
}

// The first claim of each token, if the claims are in the order of their tokens.
fn heads(alloc: Global, claims: &[Claim]) -> Result<Vec<(Token, Endpoint)>, AllocError>
    ensures { IfOk result (λ positions. positions.items ≡ first_claims None claims.now) }
{
    let mut positions = Vec::with_capacity(alloc, claims.len())?;
    let mut last: Option<Token> = None;
    for claim in claims {
        if last != Some(claim.token) {
            positions.push((claim.token, claim.endpoint))?;
            last = Some(claim.token);
        }
    }
    Ok(positions)
}

// The place at which the tokens from `token` on begin.
fn place_of(positions: &[(Token, Endpoint)], token: Token) -> usize
    requires { Rises (keys_of positions.now) }
    ensures within { result ≤ length positions.now }
    ensures before { take result positions.now ≡ filter (λ p. nat_lt p.0 token) positions.now }
    ensures from { drop result positions.now ≡ filter (λ p. nat_le token p.0) positions.now }
{
    positions.partition_point(|(position, _)| *position < token)
}

// Takes an endpoint, if it was not taken before.
fn take_one(taken: &mut Vec<Endpoint>, endpoint: Endpoint) -> Result<(), AllocError>
    ensures { OnOk result (taken.new.items ≡ with_one taken.old.items endpoint) }
{
    if !taken.contains(&endpoint) {
        taken.push(endpoint)?;
    }
    Ok(())
}

// Takes the endpoints that were not taken before, until there are `rf`.
fn take_endpoints(
    taken: &mut Vec<Endpoint>,
    positions: &[(Token, Endpoint)],
    rf: usize,
) -> Result<(), AllocError>
    ensures { OnOk result (taken.new.items ≡ firsts_until rf taken.old.items (endpoints positions.now)) }
{
    for (_, endpoint) in positions {
        if taken.len() >= rf {
            return Ok(());
        }
        take_one(taken, *endpoint)?;
    }
    Ok(())
}

impl Listed {
    // Lists sorted claims, and the first claim of each token.
    fn of_claims(alloc: Global, claims: Vec<Claim>) -> Result<Listed, AllocError>
        requires { IsSorted rank claims.items }
        ensures { IfOk result (λ l. l ≡ listed claims.items) }
    {
        let positions = heads(alloc, &claims)?;
        Ok(Listed { claims, positions })
    }

    fn claims(&self) -> &[Claim]
        ensures value { result.now ≡ self.now.claims }
        ensures sorted { IsSorted rank result.now }
        ensures won { self.now ≡ listed self.now.claims }
    {
        &self.claims
    }

    fn positions(&self) -> &[(Token, Endpoint)]
        ensures value { result.now ≡ map.entries self.now.positions }
        ensures rise { Rises (keys_of result.now) }
    {
        &self.positions
    }
}

impl Ring {
    // A ring of sorted claims, which it shares with nobody yet.
    fn of_claims(alloc: Global, claims: Vec<Claim>) -> Result<Ring, AllocError>
        requires { IsSorted rank claims.items }
        ensures { IfOk result (λ r. r ≡ listed claims.items) }
    {
        let listed = Listed::of_claims(alloc, claims)?;
        Ok(Ring {
            listed: Arc::new(alloc, listed)?,
        })
    }

    // All claims, sorted.
    fn claims(&self) -> &[Claim]
        ensures value { result.now ≡ self.now.claims }
        ensures sorted { IsSorted rank result.now }
        ensures won { self.now ≡ listed self.now.claims }
    {
        self.listed.deref().claims()
    }

    /// Builds the ring of a table. An endpoint claims the tokens of its state `TOKENS` if that can be read, and it is a
    /// member. It is one if the word before the first comma of its state `STATUS` is `NORMAL` or `LEAVING`. A token
    /// that several claim belongs to the greatest generation, and then to the least endpoint.
    pub fn of_table(alloc: Global, table: &Table) -> Result<Ring, AllocError>
        ensures { IfOk result (λ r. IsRingOf table.now.entries r) }
    {
        let claims = claims_of_rows(alloc, table.owners())?;
        Ring::of_claims(alloc, claims)
    }

    /// Returns the ring after an owner has another entry. The ring is that of a table that holds `old` of the owner, or
    /// nothing; the answer is that of the table with `new` in its place. It reads the tokens of `new` alone, and
    /// merges them with the claims that stay, without a sort of all. If `keeps_claims` it shares the ring. `AllocError`
    /// if a list finds no memory.
    pub fn moved(
        &self,
        alloc: Global,
        owner: Endpoint,
        old: Option<&Entry>,
        new: &Entry,
    ) -> Result<Ring, AllocError>
        requires { (entries : Entries) × IsRingWith entries owner (option_copied old) self.now }
        ensures { IfOk result (λ r. (entries : Entries) → IsRingWith entries owner (option_copied old.entry) self.now
            → IsRingOf (map.insert entries owner new.now) r) }
    {
        if keeps_claims(old, new) {
            return self.copy();
        }
        let fresh = claims_by(alloc, owner, new)?;
        let claims = merged(alloc, self.claims(), &[owner], &fresh)?;
        Ring::of_claims(alloc, claims)
    }

    /// Returns the ring after some owners have other entries, as `moved` does for one: the rows rise, and all other
    /// owners claim the same as before. It reads the tokens of the rows alone, and merges them with the claims that
    /// stay, once for all rows. If there are no rows it shares the ring, and takes no memory. `AllocError` if a list finds no memory.
    pub fn moved_each(&self, alloc: Global, rows: &[Row<Entry>]) -> Result<Ring, AllocError>
        requires rise { Rises (keys_of rows.now) }
        requires ring { (entries : Entries) × IsRingOf entries self.now }
        ensures { IfOk result (λ r. (before after : Entries) → IsRingOf before self.now → AreMoved rows.now before after
            → IsRingOf after r) }
    {
        let claims = self.claims();
        if rows.is_empty() {
            return self.copy();
        }
        let owners = owners_of(alloc, rows)?;
        let fresh = claims_of_rows(alloc, rows)?;
        let claims = merged(alloc, claims, &owners, &fresh)?;
        Ring::of_claims(alloc, claims)
    }

    /// The tokens with their endpoints, rising by token.
    pub fn positions(&self) -> &[(Token, Endpoint)]
        ensures value { result.now ≡ map.entries self.now.positions }
        ensures rise { Rises (keys_of result.now) }
    {
        self.listed.deref().positions()
    }

    /// Returns the endpoints that keep the keys of this token, at most `rf` of them. They are those from the first
    /// token of the ring at or after it, clockwise, each endpoint at its first token. The call takes memory once, for
    /// `rf` endpoints, or for one a token if there are fewer tokens.
    pub fn replicas(
        &self,
        alloc: Global,
        token: Token,
        rf: usize,
    ) -> Result<Vec<Endpoint>, AllocError>
        ensures { IfOk result (λ es. es.items ≡ replicas (map.entries self.now.positions) token rf) }
    {
        let positions = self.positions();
        let (before, from) = positions.split_at(place_of(positions, token));
        let mut taken = Vec::with_capacity(alloc, rf.min(positions.len()))?;
        take_endpoints(&mut taken, from, rf)?;
        take_endpoints(&mut taken, before, rf)?;
        Ok(taken)
    }

    /// The same ring, which shares its lists. It takes no memory; `AllocError` could come only if a count of owners is
    /// full.
    pub fn copy(&self) -> Result<Ring, AllocError>
        ensures { IfOk result (λ r. r ≡ self.now) }
    {
        Ok(Ring {
            listed: Arc::try_clone(&self.listed)?,
        })
    }
}
