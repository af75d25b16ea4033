//! Vectors of rings: claims of endpoints, their ring, and the replicas of a token.

ghost use Rattle.std.specs.Prelude.{◌<◌, IfSome, length};

use crate::words::{add_word, number_in, place_of, words_in};
use cg_entry::{Delta, Entry, State};
use cg_table::Table;
use cg_tokens::{Ring, Token, read_tokens};
use cg_types::{Endpoint, Fault, Generation, STATUS_KEY, StateKey, StateText, TOKENS_KEY, Version};
use std::alloc::Global;

// The last endpoint there is, which claims nothing here: a table has an endpoint of its own.
const OWN: ([u8; 4], u16) = ([255, 255, 255, 255], 65535);

// A table that holds only a node which claims nothing.
fn empty_table(alloc: Global) -> Result<Table, Fault> {
    let (address, port) = OWN;
    let Some(own) = Endpoint::new(address, port) else {
        return Err(Fault::BadText);
    };
    let Some(generation) = Generation::new(1) else {
        return Err(Fault::BadText);
    };
    let entry = Entry::start(alloc, generation);
    Ok(Table::new(alloc, own, entry)?)
}

// A state at the first version.
fn state(alloc: Global, key: u8, text: &str) -> Result<State, Fault> {
    let Some(key) = StateKey::new(key) else {
        return Err(Fault::BadText);
    };
    let text = Some(StateText::new(alloc, text)?);
    let version = Version::first();
    Ok(State { key, version, text })
}

// The states of a status and a text of tokens.
fn states(alloc: Global, status: &str, tokens: &str) -> Result<Vec<State>, Fault> {
    let mut states = Vec::with_capacity(alloc, 2)?;
    states.push(state(alloc, STATUS_KEY, status)?)?;
    states.push(state(alloc, TOKENS_KEY, tokens)?)?;
    Ok(states)
}

// The delta that an endpoint of this generation sends of itself.
fn delta(alloc: Global, generation: &str, status: &str, tokens: &str) -> Result<Delta, Fault> {
    let Some(generation) = Generation::from_bytes(generation.as_bytes()) else {
        return Err(Fault::BadText);
    };
    let states = states(alloc, status, tokens)?;
    match Delta::new(generation, 0, Version::first(), states) {
        Some(delta) => Ok(delta),
        None => Err(Fault::BadText),
    }
}

// The table with one endpoint more, of the four words of a claim.
fn with_claim(alloc: Global, table: Table, claim: &[&str]) -> Result<Table, Fault> {
    if claim.len() != 4 {
        return Err(Fault::BadText);
    }
    let endpoint = Endpoint::read(claim[0])?;
    let delta = delta(alloc, claim[1], claim[2], claim[3])?;
    let (table, _) = table.put_delta(alloc, endpoint, &delta)?;
    Ok(table)
}

// The ring of these claims, four words an endpoint.
fn ring_of(alloc: Global, claims: &[&str]) -> Result<Ring, Fault> {
    let mut table = empty_table(alloc)?;
    for claim in claims.chunks(4) {
        table = with_claim(alloc, table, claim)?;
    }
    Ok(Ring::of_table(alloc, &table)?)
}

// The tokens of a ring with their endpoints.
fn positions(alloc: Global, ring: &Ring) -> Result<String, Fault> {
    let mut text = String::new(alloc);
    for (token, endpoint) in ring.positions() {
        let words = format!(in alloc; "{token} {endpoint}")?;
        add_word(&mut text, words.as_str())?;
    }
    Ok(text)
}

// Reads the token in a text.
fn token_in(alloc: Global, text: &str) -> Result<Token, Fault> {
    let tokens = read_tokens(alloc, text)?;
    match tokens.first() {
        Some(token) => Ok(*token),
        None => Err(Fault::BadText),
    }
}

// The replicas of a token, at most `rf` of them.
fn replicas(alloc: Global, ring: &Ring, token: &str, rf: &str) -> Result<String, Fault> {
    let token = token_in(alloc, token)?;
    let rf = number_in(rf, u64::MAX)?;
    let mut text = String::new(alloc);
    for endpoint in &ring.replicas(alloc, token, rf as usize)? {
        let word = format!(in alloc; "{endpoint}")?;
        add_word(&mut text, word.as_str())?;
    }
    Ok(text)
}

// Answers a question about a ring: `ring`, or `replicas`, a token and a number.
fn answer(alloc: Global, ring: &Ring, asked: &[&str]) -> Result<String, Fault> {
    if asked.len() == 1 {
        return positions(alloc, ring);
    }
    if asked.len() != 3 {
        return Err(Fault::BadText);
    }
    replicas(alloc, ring, asked[1], asked[2])
}

// Finds the place at which the words of the question begin.
fn question_place(words: &[&str]) -> Option<usize>
    ensures { IfSome result (λ place. place < length words.now) }
{
    match place_of(words, "ring") {
        Some(place) => Some(place),
        None => place_of(words, "replicas"),
    }
}

/// Answers a question about a ring; `none` if the answer is empty.
pub fn ring_text(alloc: Global, given: &str) -> Result<String, Fault> {
    let words = words_in(alloc, given)?;
    let Some(place) = question_place(&words) else {
        return Err(Fault::BadText);
    };
    let ring = ring_of(alloc, &words[..place])?;
    let mut text = answer(alloc, &ring, &words[place..])?;
    if text.is_empty() {
        text.push_str("none")?;
    }
    Ok(text)
}
