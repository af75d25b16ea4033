//! Windows with their endpoints, which lie beside one another.

ghost use Rattle.std.specs.Prelude.{◌≡◌, ◌++◌, ◌∷◌, [], ◌≤◌, ◌<◌, IsTrue, IfOk, IfErr, OnOk, ℕ, length, Some, option_copied};
ghost use Rattle.std.specs.List.{AllWithin, HoldsAt};
ghost use Rattle.std.specs.Ordering.{nat_cmp};
ghost use Rattle.std.specs.FinMap.Entries.{find};
ghost use Rattle.cg_types.specs.Rising.{Rises};
ghost use Rattle.cg_types.specs.Rows.{keys_of, before, after, IsRowAt, IsGapAt};
ghost use Rattle.cg_silence.specs.Walking.{last_key, heard_from, walk_heard};

use crate::outcomes::was_taken;
use crate::shared::SharedWindow;
use crate::silence::Silence;
use cg_messages::Outcome;
use cg_types::Endpoint;
use std::alloc::{AllocError, Global};
use std::marker::Model;

/// The window of an endpoint.
#[derive(Drop)]
pub(crate) struct Held {
    endpoint: Endpoint,
    window: SharedWindow,
}

/// A contract sees the endpoint, and what it sees of the window.
impl Model for Held {
    ghost use Rattle.std.specs.Prelude.{ℕ};
    ghost use Rattle.cg_silence.specs.Values.{WindowValue};

    ghost Value = { ℕ × WindowValue };

    ghost view = { λ h. (h.endpoint, h.window) };
}

impl Held {
    // The same window of the same endpoint, which shares its gaps.
    fn copy(&self) -> Result<Held, AllocError>
        ensures { IfOk result (λ h. h ≡ self.now) }
    {
        Ok(Held {
            endpoint: self.endpoint,
            window: self.window.copy()?,
        })
    }

    // The endpoint of the window.
    fn endpoint(&self) -> Endpoint
        ensures { result ≡ self.now.0 }
    {
        self.endpoint
    }

    // The window.
    fn window(&self) -> &SharedWindow
        ensures { result.now ≡ self.now.1 }
    {
        &self.window
    }
}

/// The last endpoint, if there is one.
pub(crate) fn last_endpoint(rows: &[Held]) -> Option<Endpoint>
    ensures { result ≡ last_key rows.now }
{
    let count = rows.len();
    if count == 0 {
        return None;
    }
    Some(rows[count - 1].endpoint())
}

// Tests whether the endpoint's window is the first one.
fn is_first(rows: &[Held], endpoint: Endpoint) -> bool
    ensures { IsTrue result → IsRowAt rows.now endpoint 0 }
{
    !rows.is_empty() && rows[0].endpoint() == endpoint
}

// The place of the endpoint's window, or the place where it would go, by halving.
fn halve(rows: &[Held], endpoint: Endpoint) -> Result<usize, usize>
    requires { Rises (keys_of rows.now) }
    ensures found { IfOk result (λ at. IsRowAt rows.now endpoint at) }
    ensures absent { IfErr result (λ at. IsGapAt rows.now endpoint at) }
{
    rows.binary_search_by_key(&endpoint, |row| row.endpoint())
}

// The place of the endpoint's window, or the place where it would go. It looks at the first one before it halves: in a
// walk, most are found there.
fn search(rows: &[Held], endpoint: Endpoint) -> Result<usize, usize>
    requires { Rises (keys_of rows.now) }
    ensures found { IfOk result (λ at. IsRowAt rows.now endpoint at) }
    ensures absent { IfErr result (λ at. IsGapAt rows.now endpoint at) }
{
    if is_first(rows, endpoint) {
        return Ok(0);
    }
    halve(rows, endpoint)
}

/// The window of an endpoint, if there is one.
pub(crate) fn window_of(rows: &[Held], endpoint: Endpoint) -> Option<&SharedWindow>
    requires { Rises (keys_of rows.now) }
    ensures { option_copied result ≡ find nat_cmp endpoint rows.now }
{
    match halve(rows, endpoint) {
        Ok(at) => Some(rows[at].window()),
        Err(_) => None,
    }
}

// The windows of the endpoints before an endpoint, its own if there is one, and those of the endpoints after it.
fn around(rows: &[Held], endpoint: Endpoint) -> (&[Held], Option<&SharedWindow>, &[Held])
    requires { Rises (keys_of rows.now) }
    ensures before { result.0.now ≡ before endpoint rows.now }
    ensures held { option_copied result.1 ≡ find nat_cmp endpoint rows.now }
    ensures after { result.2.now ≡ after endpoint rows.now }
{
    match search(rows, endpoint) {
        Ok(at) => (&rows[..at], Some(rows[at].window()), &rows[at + 1..]),
        Err(at) => (&rows[..at], None, &rows[at..]),
    }
}

// Adds copies of windows, which share their gaps. In a walk there are mostly none, and a call would cost more.
#[inline(always)]
fn copy_all(made: &mut Vec<Held>, rows: &[Held]) -> Result<(), AllocError>
    ensures { OnOk result (made.new.items ≡ made.old.items ++ rows.now) }
{
    for row in rows {
        made.push(row.copy()?)?;
    }
    Ok(())
}

// The window that an arrival finds: a copy of the one held, or a new one.
fn found_window(
    alloc: Global,
    silence: Silence,
    held: Option<&SharedWindow>,
) -> Result<SharedWindow, AllocError>
    ensures { IfOk result (λ w. (now : ℕ) → heard_from silence now (Some w) ≡ heard_from silence now (option_copied held.entry)) }
{
    match held {
        Some(window) => window.copy(),
        None => SharedWindow::new(alloc, silence),
    }
}

// Adds the window of an endpoint after one more arrival. It is moved to its place before the arrival, and once.
fn push_heard(
    alloc: Global,
    silence: Silence,
    made: &mut Vec<Held>,
    endpoint: Endpoint,
    held: Option<&SharedWindow>,
    now: u64,
) -> Result<(), AllocError>
    ensures { OnOk result (made.new.items
        ≡ made.old.items ++ (endpoint, heard_from silence now (option_copied held.entry)) ∷ []) }
{
    let window = found_window(alloc, silence, held)?;
    made.push(Held { endpoint, window })?;
    let last = made.len() - 1;
    made[last].window.arrived(alloc, now)
}

/// The windows after the outcomes, in one walk over both: each delta that was taken is an arrival. It takes memory for
/// the list, and for what an arrival makes of a window.
pub(crate) fn hear_rows(
    alloc: Global,
    silence: Silence,
    rows: &[Held],
    outcomes: &[Outcome],
    now: u64,
) -> Result<Vec<Held>, AllocError>
    requires { Rises (keys_of rows.now) }
    ensures { IfOk result (λ made. made.items ≡ walk_heard silence now outcomes.now rows.now) }
{
    let mut made = Vec::with_capacity(alloc, rows.len().max(outcomes.len()))?;
    let mut rest = rows;
    for outcome in outcomes {
        if !was_taken(outcome) {
            continue;
        }
        let (before, held, after) = around(rest, outcome.endpoint);
        copy_all(&mut made, before)?;
        push_heard(alloc, silence, &mut made, outcome.endpoint, held, now)?;
        rest = after;
    }
    copy_all(&mut made, rest)?;
    Ok(made)
}
