//! Windows in chunks of several endpoints each, so that a message costs one block of memory for many of them.

ghost use Rattle.std.specs.Prelude.{◌≡◌, ◌++◌, ◌≤◌, ◌<◌, [], IfOk, OnOk, length, option_copied};
ghost use Rattle.std.specs.List.{AllWithin, HoldsAt, filter_map};
ghost use Rattle.std.specs.Ordering.{nat_cmp};
ghost use Rattle.std.specs.FinMap as map;
ghost use Rattle.std.specs.FinMap.Entries.{find};
ghost use Rattle.cg_types.specs.Rising.{Rises};
ghost use Rattle.cg_types.specs.Rows.{keys_of};
ghost use Rattle.cg_types.specs.Map.{put_each};
ghost use Rattle.cg_messages.specs.Members.{endpoints_of_outcomes};
ghost use Rattle.cg_silence.specs.Windows.{AllJudge, arrival, shown_in};
ghost use Rattle.cg_silence.specs.Walking.{last_key, ends_before, flat, walk_heard, ArePart};

use crate::outcomes::any_taken;
use crate::rows::{Held, hear_rows, last_endpoint, window_of};
use crate::shared::SharedWindow;
use crate::silence::Silence;
use cg_messages::Outcome;
use cg_types::Endpoint;
use std::alloc::{AllocError, Global};
use std::marker::Model;
use std::ops::Deref;
use std::sync::Arc;

/// At most so many windows are put into one chunk.
const CHUNK_LIMIT: usize = 32;

/// A list of more windows is cut into chunks of so many.
const PIECE: usize = 16;

// Windows of endpoints that rise, in one list, which several sets of windows can share.
#[derive(Drop)]
struct Chunk {
    rows: Arc<Vec<Held>, Global>,
}

/// A contract sees the endpoints and their windows.
impl Model for Chunk {
    ghost use Rattle.std.specs.Prelude.{ℕ, List};
    ghost use Rattle.std.specs.Arc.{arc_value};
    ghost use Rattle.cg_silence.specs.Values.{WindowValue};

    ghost Value = { List (ℕ × WindowValue) };

    ghost view = { λ c. (arc_value c.rows).items };
}

impl Chunk {
    // Makes a chunk of these windows.
    fn new(alloc: Global, rows: Vec<Held>) -> Result<Chunk, AllocError>
        ensures { IfOk result (λ c. c ≡ rows.items) }
    {
        Ok(Chunk {
            rows: Arc::new(alloc, rows)?,
        })
    }

    // The windows with their endpoints.
    fn rows(&self) -> &[Held]
        ensures { result.now ≡ self.now }
    {
        self.rows.deref()
    }

    // The same chunk. It copies no window and takes no memory; `AllocError` could come only if the count of owners is
    // full.
    fn share(&self) -> Result<Chunk, AllocError>
        ensures { IfOk result (λ c. c ≡ self.now) }
    {
        Ok(Chunk {
            rows: Arc::try_clone(&self.rows)?,
        })
    }
}

/// Windows of endpoints, in chunks. Those that are made from one another share the chunks that did not change.
#[derive(Drop)]
pub(crate) struct Chunks {
    chunks: Vec<Chunk>,
}

/// A contract sees a finite map from endpoints to what it sees of their windows.
impl Model for Chunks {
    ghost use Rattle.std.specs.Ordering.{nat_cmp};
    ghost use Rattle.std.specs.FinMap as map;
    ghost use Rattle.cg_types.specs.Rising.{Rises};
    ghost use Rattle.cg_types.specs.Rows.{keys_of};
    ghost use Rattle.cg_silence.specs.Values.{WindowValue};
    ghost use Rattle.cg_silence.specs.Walking.{flat, chunks_code};

    ghost Value = { map.FinMap nat_cmp WindowValue };

    ghost coded = { chunks_code };

    ghost view = { λ c. map.from_sorted (flat c.chunks.items) };

    ghost invariant = { λ c. Rises (keys_of (flat c.chunks.items)) };
}

// Tests whether all windows are of endpoints before this one, by the last.
fn end_before(rows: &[Held], endpoint: Endpoint) -> bool
    ensures { result ≡ ends_before endpoint rows.now }
{
    match last_endpoint(rows) {
        None => true,
        Some(last) => last < endpoint,
    }
}

// The window of an endpoint, if there is one. It is in the first chunk that does not end before the endpoint.
fn find_in(chunks: &[Chunk], endpoint: Endpoint) -> Option<&SharedWindow>
    requires { Rises (keys_of (flat chunks.now)) }
    ensures { option_copied result ≡ find nat_cmp endpoint (flat chunks.now) }
{
    for chunk in chunks {
        if !end_before(chunk.rows(), endpoint) {
            return window_of(chunk.rows(), endpoint);
        }
    }
    None
}

// How many of the outcomes are about endpoints up to this one.
fn count_up_to(outcomes: &[Outcome], last: Endpoint) -> usize
    ensures few { result ≤ length outcomes.now }
    ensures within { AllWithin (λ o. o.endpoint ≤ last) outcomes.now 0 result }
    ensures behind { result < length outcomes.now → HoldsAt (λ o. last < o.endpoint) outcomes.now result }
{
    for at in 0..outcomes.len() {
        if last < outcomes[at].endpoint {
            return at;
        }
    }
    outcomes.len()
}

// The outcomes about endpoints up to the last one of these windows, and those about later ones.
fn part<'a>(rows: &[Held], outcomes: &'a [Outcome]) -> (&'a [Outcome], &'a [Outcome])
    requires { Rises (endpoints_of_outcomes outcomes.now) }
    ensures { ArePart (last_key rows.now) outcomes.now result.0.now result.1.now }
{
    let count = match last_endpoint(rows) {
        None => 0,
        Some(last) => count_up_to(outcomes, last),
    };
    (&outcomes[..count], &outcomes[count..])
}

// Adds these windows in chunks.
fn push_chunks(alloc: Global, made: &mut Vec<Chunk>, rows: Vec<Held>) -> Result<(), AllocError>
    ensures { OnOk result (flat made.new.items ≡ flat made.old.items ++ rows.items) }
{
    if rows.len() <= CHUNK_LIMIT {
        made.push(Chunk::new(alloc, rows)?)?;
        return Ok(());
    }
    let mut piece = Vec::with_capacity(alloc, PIECE)?;
    for row in rows {
        if piece.len() < PIECE {
            piece.push(row)?;
            continue;
        }
        let whole = Chunk::new(alloc, piece)?;
        made.push(whole)?;
        piece = Vec::with_capacity(alloc, PIECE)?;
        piece.push(row)?;
    }
    made.push(Chunk::new(alloc, piece)?)?;
    Ok(())
}

// Adds what outcomes make of a chunk: the chunk as it is if none of them is an arrival.
fn hear_chunk(
    alloc: Global,
    silence: Silence,
    made: &mut Vec<Chunk>,
    chunk: &Chunk,
    outcomes: &[Outcome],
    now: u64,
) -> Result<(), AllocError>
    requires { Rises (keys_of chunk.now) }
    ensures { OnOk result (flat made.new.items ≡ flat made.old.items ++ walk_heard silence now outcomes.now chunk.now) }
{
    if !any_taken(outcomes) {
        made.push(chunk.share()?)?;
        return Ok(());
    }
    let rows = hear_rows(alloc, silence, chunk.rows(), outcomes, now)?;
    push_chunks(alloc, made, rows)
}

// The chunks after the outcomes. The last chunk takes all outcomes that are left.
fn hear_chunks(
    alloc: Global,
    silence: Silence,
    chunks: &[Chunk],
    outcomes: &[Outcome],
    now: u64,
) -> Result<Vec<Chunk>, AllocError>
    requires rows { Rises (keys_of (flat chunks.now)) }
    requires outcomes { Rises (endpoints_of_outcomes outcomes.now) }
    requires some { 0 < length chunks.now }
    ensures { IfOk result (λ made. flat made.items ≡ walk_heard silence now outcomes.now (flat chunks.now)) }
{
    let mut made = Vec::with_capacity(alloc, chunks.len() + 1)?;
    let last = chunks.len() - 1;
    let mut rest = outcomes;
    for at in 0..last {
        let chunk = &chunks[at];
        let (mine, later) = part(chunk.rows(), rest);
        hear_chunk(alloc, silence, &mut made, chunk, mine, now)?;
        rest = later;
    }
    hear_chunk(alloc, silence, &mut made, &chunks[last], rest, now)?;
    Ok(made)
}

// The chunks of windows that were not heard before the outcomes.
fn hear_first(
    alloc: Global,
    silence: Silence,
    outcomes: &[Outcome],
    now: u64,
) -> Result<Vec<Chunk>, AllocError>
    ensures { IfOk result (λ made. flat made.items ≡ walk_heard silence now outcomes.now []) }
{
    let none = Vec::new(alloc);
    let rows = hear_rows(alloc, silence, &none, outcomes, now)?;
    let mut made = Vec::new(alloc);
    push_chunks(alloc, &mut made, rows)?;
    Ok(made)
}

// The chunks after the outcomes of a message.
fn hear_all(
    alloc: Global,
    silence: Silence,
    chunks: &[Chunk],
    outcomes: &[Outcome],
    now: u64,
) -> Result<Vec<Chunk>, AllocError>
    requires rows { Rises (keys_of (flat chunks.now)) }
    requires outcomes { Rises (endpoints_of_outcomes outcomes.now) }
    ensures { IfOk result (λ made. flat made.items ≡ walk_heard silence now outcomes.now (flat chunks.now)) }
{
    if chunks.is_empty() {
        return hear_first(alloc, silence, outcomes, now);
    }
    hear_chunks(alloc, silence, chunks, outcomes, now)
}

impl Chunks {
    /// No windows. It takes no memory.
    pub(crate) fn none(alloc: Global) -> Chunks
        ensures { result ≡ map.empty }
    {
        Chunks {
            chunks: Vec::new(alloc),
        }
    }

    /// The window of an endpoint, if there is one.
    pub(crate) fn get(&self, endpoint: Endpoint) -> Option<&SharedWindow>
        ensures { option_copied result ≡ map.get self.now endpoint }
    {
        find_in(&self.chunks, endpoint)
    }

    /// The windows after the outcomes of a message: each delta that was taken is an arrival. They share the chunks with
    /// no arrival.
    pub(crate) fn heard(
        &self,
        alloc: Global,
        silence: Silence,
        outcomes: &[Outcome],
        now: u64,
    ) -> Result<Chunks, AllocError>
        requires judge { AllJudge silence self.now }
        requires outcomes { Rises (endpoints_of_outcomes outcomes.now) }
        ensures { IfOk result (λ c. c ≡ put_each
            (filter_map (arrival (record { silence = silence; shown = shown_in self.now }) now) outcomes.now)
            self.now) }
    {
        Ok(Chunks {
            chunks: hear_all(alloc, silence, &self.chunks, outcomes, now)?,
        })
    }
}
