//! The last gaps between the arrivals of an endpoint.

ghost use Rattle.std.specs.Prelude.{◌≡◌, ◌+◌, ◌*◌, ◌<◌, ◌≤◌, ◌^◌, ℕ, List, [], ◌∷◌, ◌++◌, length, sum, IfOk, Some};
ghost use Rattle.circular_buffer.specs.Buffer.{buffer, keep_last};
ghost use Rattle.cg_silence.specs.Silence as spec;
ghost use Rattle.cg_silence.specs.Silence.{Shows, after_arrival, verdict};

use crate::limits::THRESHOLD_UNIT;
use crate::silence::Silence;
use crate::verdict::Verdict;
use circular_buffer::HeapCircularBuffer;
use std::alloc::{AllocError, Global};
use std::marker::Model;

/// A window: the last recorded gaps between the arrivals of one endpoint, and its last arrival. Times are milliseconds
/// of one clock. A gap takes 4 bytes, and their sum is kept beside them.
#[derive(Drop)]
pub struct Window {
    silence: Silence,
    gaps: HeapCircularBuffer<u32>,
    total: u64,
    last: Option<u64>,
}

/// A contract sees the settings, and the gaps and last arrival that the window shows.
impl Model for Window {
    ghost use Rattle.cg_silence.specs.Values.{WindowValue, IsWindow};

    ghost Value = { WindowValue };

    ghost view = { λ w. record { silence = w.silence; shown = record { gaps = w.gaps.items; last = w.last } } };

    ghost invariant = { λ w. IsWindow w.silence w.gaps.items w.gaps.capacity w.total };
}

// The gap that an arrival at `now` makes after the last one.
pub(crate) fn gap(silence: Silence, last: Option<u64>, now: u64) -> u64
    ensures { result ≡ spec.gap silence last now }
{
    match last {
        None => u64::from(silence.initial_gap()),
        Some(last) => now.saturating_sub(last).max(1),
    }
}

// The last arrival after one at `now`.
pub(crate) fn latest(last: Option<u64>, now: u64) -> u64
    ensures { result ≡ spec.latest last now }
{
    match last {
        None => now,
        Some(last) => last.max(now),
    }
}

// Adds a gap, in place of the oldest if there is no room, and returns the sum of the gaps kept.
fn replace_oldest(gaps: &mut HeapCircularBuffer<u32>, total: u64, gap: u32) -> u64
    requires total { total ≡ sum gaps.old.items }
    requires room { 0 < gaps.old.capacity }
    requires within { length gaps.old.items ≤ gaps.old.capacity }
    requires fits { total + gap < 2 ^ 64 }
    ensures items { gaps.new ≡ buffer (keep_last gaps.old.capacity (gaps.old.items ++ gap ∷ [])) gaps.old.capacity }
    ensures total { result ≡ sum gaps.new.items }
{
    let more = total + u64::from(gap);
    match gaps.push_back(gap) {
        Some(oldest) => more - u64::from(oldest),
        None => more,
    }
}

// Tests whether a time without an arrival is over the threshold.
fn is_over(threshold: u32, elapsed: u64, count: usize, total: u64) -> bool
    requires few { count < 2 ^ 32 }
    ensures { result ≡ spec.is_over threshold elapsed count total }
{
    let weight = count as u64 * u64::from(THRESHOLD_UNIT);
    let waited = elapsed as u128 * weight as u128;
    let allowed = threshold as u128 * total as u128;
    waited > allowed
}

// The verdict at `now` on an endpoint of which `count` gaps are kept, with this sum.
pub(crate) fn judged(
    threshold: u32,
    last: Option<u64>,
    count: usize,
    total: u64,
    now: u64,
) -> Verdict
    requires few { count < 2 ^ 32 }
    ensures { result ≡ spec.judged threshold last count total now }
{
    let Some(last) = last else {
        return Verdict::Unheard;
    };
    if is_over(threshold, now.saturating_sub(last), count, total) {
        Verdict::Silent
    } else {
        Verdict::Alive
    }
}

impl Window {
    /// Makes the window of an endpoint that was not heard yet. It takes all the memory that the window will ever need.
    pub fn new(alloc: Global, silence: Silence) -> Result<Window, AllocError>
        ensures settings { IfOk result (λ w. w.silence ≡ silence) }
        ensures shows { IfOk result (λ w. Shows w []) }
    {
        Ok(Window {
            silence,
            gaps: HeapCircularBuffer::with_capacity(alloc, silence.window())?,
            total: 0,
            last: None,
        })
    }

    /// Records an arrival of the endpoint at `now`, in milliseconds. A time before the last arrival counts as no
    /// elapsed time. It takes no memory.
    pub fn arrived(&mut self, now: u64)
        ensures step { self.new ≡ record self.old { shown = after_arrival self.old.silence (Some self.old.shown) now } }
        // If the window showed some arrivals, it now shows them and this one.
        ensures every { (arrivals : List ℕ) → Shows self.old arrivals → Shows self.new (arrivals ++ now ∷ []) }
    {
        let gap = gap(self.silence, self.last, now);
        if gap <= u64::from(self.silence.max_gap()) {
            self.keep_gap(gap as u32);
        }
        self.last = Some(latest(self.last, now));
    }

    // Adds a gap, in place of the oldest if there is no room.
    fn keep_gap(&mut self, gap: u32)
        requires { gap ≤ self.old.silence.max_gap }
        ensures { self.new ≡ record self.old {
          shown = record self.old.shown {
            gaps = keep_last self.old.silence.window (self.old.shown.gaps ++ gap ∷ []);
          };
        } }
    {
        self.total = replace_oldest(&mut self.gaps, self.total, gap);
    }

    /// Returns the verdict at `now`, in milliseconds. A time before the last arrival counts as no elapsed time. It
    /// takes no memory.
    pub fn verdict(&self, now: u64) -> Verdict
        ensures { result ≡ verdict self.now.silence self.now.shown now }
    {
        judged(
            self.silence.threshold(),
            self.last,
            self.gaps.len(),
            self.total,
            now,
        )
    }

    /// The same window.
    pub fn copy(&self, alloc: Global) -> Result<Window, AllocError>
        ensures { IfOk result (λ w. w ≡ self.now) }
    {
        let mut gaps = HeapCircularBuffer::with_capacity(alloc, self.gaps.capacity())?;
        let (front, back) = self.gaps.as_slices();
        gaps.extend_from_slice(front);
        gaps.extend_from_slice(back);
        Ok(Window {
            silence: self.silence,
            gaps,
            total: self.total,
            last: self.last,
        })
    }
}
