//! A window whose copies share most of its gaps.

ghost use Rattle.std.specs.Prelude.{◌≡◌, ◌-◌, ◌*◌, ◌≤◌, ◌^◌, ℕ, List, [], ◌∷◌, ◌++◌, length, take, sum, IfOk, OnOk, OnErr, Some};
ghost use Rattle.circular_buffer.specs.Buffer.{keep_last};
ghost use Rattle.cg_silence.specs.Silence.{Shows, after_arrival, verdict};

use crate::limits::WINDOW_LIMIT;
use crate::past::Past;
use crate::silence::Silence;
use crate::tail::Tail;
use crate::verdict::Verdict;
use crate::window::{gap, judged, latest};
use std::alloc::{AllocError, Global};
use std::marker::Model;
use std::ops::Deref;
use std::sync::Arc;

/// A window whose copies share all gaps but the last few. So a copy and an arrival cost as little for a window of 1,000
/// gaps as for a short one, but for one arrival in as many as are not shared, which puts these behind the shared ones.
#[derive(Drop)]
pub struct SharedWindow {
    past: Arc<Past, Global>,
    total: u64,
    last: Option<u64>,
    tail: Tail,
}

/// A contract sees what it sees of a `Window`.
impl Model for SharedWindow {
    ghost use Rattle.std.specs.Prelude.{◌++◌};
    ghost use Rattle.std.specs.Arc.{arc_value};
    ghost use Rattle.circular_buffer.specs.Buffer.{keep_last};
    ghost use Rattle.cg_silence.specs.Values.{WindowValue, IsSharedWindow};

    ghost Value = { WindowValue };

    ghost view = { λ w. record {
      silence = (arc_value w.past).silence;
      shown = record {
        gaps = keep_last (arc_value w.past).silence.window ((arc_value w.past).gaps ++ w.tail);
        last = w.last;
      };
    } };

    ghost invariant = { λ w. IsSharedWindow (arc_value w.past).silence (arc_value w.past).gaps w.tail w.total };
}

// The sum of a few gaps.
fn sum_of(gaps: &[u32]) -> u64
    requires { length gaps.now ≤ WINDOW_LIMIT }
    ensures sum { result ≡ sum gaps.now }
    ensures small { result ≤ WINDOW_LIMIT * 2 ^ 32 }
{
    let mut total = 0u64;
    for gap in gaps {
        total += u64::from(*gap);
    }
    total
}

// The sum of a list's first gaps, and how many of `count` are left for the next list.
fn sum_first(gaps: &[u32], count: usize) -> (u64, usize)
    requires { length gaps.now ≤ WINDOW_LIMIT }
    ensures sum { result.0 ≡ sum (take count gaps.now) }
    ensures left { result.1 ≡ count - length gaps.now }
    ensures small { result.0 ≤ WINDOW_LIMIT * 2 ^ 32 }
{
    let first = count.min(gaps.len());
    (sum_of(&gaps[..first]), count - first)
}

// The sum of the first gaps of three lists, one behind another.
fn sum_of_three(long: &[u32], recent: &[u32], tail: &[u32], count: usize) -> u64
    requires long { length long.now ≤ WINDOW_LIMIT }
    requires recent { length recent.now ≤ WINDOW_LIMIT }
    requires tail { length tail.now ≤ WINDOW_LIMIT }
    ensures { result ≡ sum (take count (long.now ++ recent.now ++ tail.now)) }
{
    let (of_long, count) = sum_first(long, count);
    let (of_recent, count) = sum_first(recent, count);
    let (of_tail, _) = sum_first(tail, count);
    of_long + of_recent + of_tail
}

impl SharedWindow {
    /// Makes the window of an endpoint that was not heard yet.
    pub fn new(alloc: Global, silence: Silence) -> Result<SharedWindow, AllocError>
        ensures settings { IfOk result (λ w. w.silence ≡ silence) }
        ensures shows { IfOk result (λ w. Shows w []) }
    {
        Ok(SharedWindow {
            past: Arc::new(alloc, Past::new(alloc, silence))?,
            total: 0,
            last: None,
            tail: Tail::none(),
        })
    }

    /// The same window, which shares the same gaps. It takes no memory; `AllocError` could come only if a count of
    /// owners is full.
    pub fn copy(&self) -> Result<SharedWindow, AllocError>
        ensures { IfOk result (λ w. w ≡ self.now) }
    {
        Ok(SharedWindow {
            past: Arc::try_clone(&self.past)?,
            total: self.total,
            last: self.last,
            tail: self.tail.copy(),
        })
    }

    /// Records an arrival of the endpoint at `now`, in milliseconds. A time before the last arrival counts as no
    /// elapsed time. Only where the window's own gaps are put behind the shared ones does it take memory; if there is
    /// none, the window is unchanged.
    pub fn arrived(&mut self, alloc: Global, now: u64) -> Result<(), AllocError>
        ensures step { OnOk result (self.new ≡ record self.old {
          shown = after_arrival self.old.silence (Some self.old.shown) now;
        }) }
        // If the window showed some arrivals, it now shows them and this one.
        ensures every { OnOk result ((arrivals : List ℕ) → Shows self.old arrivals
            → Shows self.new (arrivals ++ now ∷ [])) }
        ensures err { OnErr result (self.new ≡ self.old) }
    {
        let silence = self.past.deref().silence();
        let gap = gap(silence, self.last, now);
        if gap <= u64::from(silence.max_gap()) {
            self.keep_gap(alloc, gap as u32)?;
        }
        self.last = Some(latest(self.last, now));
        Ok(())
    }

    // Adds a gap behind the others.
    fn keep_gap(&mut self, alloc: Global, gap: u32) -> Result<(), AllocError>
        requires { gap ≤ self.old.silence.max_gap }
        ensures ok { OnOk result (self.new ≡ record self.old {
          shown = record self.old.shown {
            gaps = keep_last self.old.silence.window (self.old.shown.gaps ++ gap ∷ []);
          };
        }) }
        ensures err { OnErr result (self.new ≡ self.old) }
    {
        if self.tail.is_full() {
            return self.keep_behind_joined(alloc, gap);
        }
        self.tail.push(gap);
        self.total += u64::from(gap);
        Ok(())
    }

    // Adds a gap behind the others, once the tail is behind the shared ones.
    fn keep_behind_joined(&mut self, alloc: Global, gap: u32) -> Result<(), AllocError>
        requires { gap ≤ self.old.silence.max_gap }
        ensures ok { OnOk result (self.new ≡ record self.old {
          shown = record self.old.shown {
            gaps = keep_last self.old.silence.window (self.old.shown.gaps ++ gap ∷ []);
          };
        }) }
        ensures err { OnErr result (self.new ≡ self.old) }
    {
        let (_, kept) = self.kept();
        let past = self.past.deref().with(alloc, self.tail.as_slice())?;
        let mut tail = Tail::none();
        tail.push(gap);
        self.past = Arc::new(alloc, past)?;
        self.tail = tail;
        self.total = kept + u64::from(gap);
        Ok(())
    }

    // The number of the gaps that the window shows, and their sum.
    fn kept(&self) -> (usize, u64)
        ensures count { result.0 ≡ length self.now.shown.gaps }
        ensures few { result.0 ≤ WINDOW_LIMIT }
        ensures total { result.1 ≡ sum self.now.shown.gaps }
    {
        let past = self.past.deref();
        let (long, recent) = past.as_slices();
        let tail = self.tail.as_slice();
        let count = long.len() + recent.len() + tail.len();
        let left = count.saturating_sub(past.silence().window());
        (
            count - left,
            self.total - sum_of_three(long, recent, tail, left),
        )
    }

    /// The greatest of the arrivals, in milliseconds; `None` before the first.
    pub fn last_arrival(&self) -> Option<u64>
        ensures { result ≡ self.now.shown.last }
    {
        self.last
    }

    /// Returns the verdict at `now`, in milliseconds. A time before the last arrival counts as no elapsed time. It
    /// takes no memory.
    pub fn verdict(&self, now: u64) -> Verdict
        ensures { result ≡ verdict self.now.silence self.now.shown now }
    {
        let (count, total) = self.kept();
        let silence = self.past.deref().silence();
        judged(silence.threshold(), self.last, count, total, now)
    }
}
