//! The gaps that copies of a window share.

ghost use Rattle.std.specs.Prelude.{◌≡◌, ◌++◌, ◌≤◌, [], length, IfOk};
ghost use Rattle.circular_buffer.specs.Buffer.{keep_last};
ghost use Rattle.cg_silence.specs.Values.{long_gaps};

use crate::silence::Silence;
use crate::tail::{RECENT_ROOM, TAIL_ROOM};
use std::alloc::{AllocError, Global};
use std::marker::Model;
use std::ops::Deref;
use std::sync::Arc;

// No gaps take no memory.
type Long = Option<Arc<Vec<u32>, Global>>;

/// The settings, and all gaps but the last few, which windows share that were made from one another. The recent gaps
/// stand behind a long list, which is copied only when they fill their room.
#[derive(Drop)]
pub(crate) struct Past {
    silence: Silence,
    long: Long,
    recent: Vec<u32>,
}

/// A contract sees the settings, and the gaps of both lists that a window keeps.
impl Model for Past {
    ghost use Rattle.std.specs.Prelude.{◌++◌};
    ghost use Rattle.circular_buffer.specs.Buffer.{keep_last};
    ghost use Rattle.cg_silence.specs.Values.{PastValue, IsPast, long_gaps};

    ghost Value = { PastValue };

    ghost view = { λ p. record {
      silence = p.silence;
      gaps = keep_last p.silence.window (long_gaps p.long ++ p.recent.items);
    } };

    ghost invariant = { λ p. IsPast p.silence.window (long_gaps p.long) p.recent.items };
}

// The last gaps of two lists, at most so many, in one list with room for as many: so a node's memory does not grow while
// its windows fill.
fn joined(alloc: Global, first: &[u32], second: &[u32], most: usize) -> Result<Vec<u32>, AllocError>
    ensures { IfOk result (λ v. v.items ≡ keep_last most (first.now ++ second.now)) }
{
    let from = (first.len() + second.len()).saturating_sub(most);
    let skipped = from.min(first.len());
    let mut gaps = Vec::with_capacity(alloc, most)?;
    gaps.extend_from_slice(&first[skipped..])?;
    gaps.extend_from_slice(&second[from - skipped..])?;
    Ok(gaps)
}

fn gaps_of(long: &Long) -> &[u32]
    ensures { result.now ≡ long_gaps long.now }
{
    match long {
        Some(gaps) => gaps.deref(),
        None => &[],
    }
}

fn shared(long: &Long) -> Result<Long, AllocError>
    ensures { IfOk result (λ l. long_gaps l ≡ long_gaps long.now) }
{
    match long {
        Some(gaps) => Ok(Some(Arc::try_clone(gaps)?)),
        None => Ok(None),
    }
}

impl Past {
    /// No gaps, with these settings. It takes no memory.
    pub(crate) fn new(alloc: Global, silence: Silence) -> Past
        ensures settings { result.silence ≡ silence }
        ensures none { result.gaps ≡ [] }
    {
        Past {
            silence,
            long: None,
            recent: Vec::new(alloc),
        }
    }

    /// The settings.
    pub(crate) fn silence(&self) -> Silence
        ensures { result ≡ self.now.silence }
    {
        self.silence
    }

    /// The gaps that a window keeps, in two lists.
    pub(crate) fn as_slices(&self) -> (&[u32], &[u32])
        ensures { result.0.now ++ result.1.now ≡ self.now.gaps }
    {
        let long = gaps_of(&self.long);
        let from = (long.len() + self.recent.len()).saturating_sub(self.silence.window());
        (&long[from..], &self.recent)
    }

    /// These gaps with a tail behind them. The first tail makes the long list; a later one goes behind the recent gaps.
    pub(crate) fn with(&self, alloc: Global, tail: &[u32]) -> Result<Past, AllocError>
        requires { length tail.now ≤ TAIL_ROOM }
        ensures { IfOk result (λ p. p ≡ record self.now {
          gaps = keep_last self.now.silence.window (self.now.gaps ++ tail.now);
        }) }
    {
        let silence = self.silence;
        let window = silence.window();
        let long = gaps_of(&self.long);
        let recent = joined(alloc, &self.recent, tail, window.min(RECENT_ROOM))?;
        if long.is_empty() || recent.len() + TAIL_ROOM > RECENT_ROOM {
            return Ok(Past {
                silence,
                long: Some(Arc::new(alloc, joined(alloc, long, &recent, window)?)?),
                recent: Vec::new(alloc),
            });
        }
        Ok(Past {
            silence,
            long: shared(&self.long)?,
            recent,
        })
    }
}
