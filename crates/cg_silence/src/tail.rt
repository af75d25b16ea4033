//! The last few gaps of a window, without memory of their own.

ghost use Rattle.std.specs.Prelude.{◌≡◌, ◌<◌, ◌≤◌, ◌++◌, [], ◌∷◌, length, MatchBool};

use std::marker::Model;

/// The most gaps in a tail.
pub(crate) const TAIL_ROOM: usize = 16;

/// The room of the gaps between the long list and the tail. They are copied once for each full tail, and the long list
/// only once for each 128 gaps.
pub(crate) const RECENT_ROOM: usize = 128;

// At most `TAIL_ROOM` gaps, the oldest first.
#[derive(Drop)]
pub(crate) struct Tail {
    slots: [u32; TAIL_ROOM],
    count: usize,
}

impl Model for Tail {
    ghost use Rattle.std.specs.Prelude.{List, ℕ, take, ◌≤◌};
    ghost use Rattle.cg_silence.specs.declared.tail.TheConstants.{TAIL_ROOM};

    ghost Value = { List ℕ };

    ghost view = { λ t. take t.count t.slots };

    ghost invariant = { λ t. t.count ≤ TAIL_ROOM };
}

impl Tail {
    pub(crate) fn none() -> Tail
        ensures { result ≡ [] }
    {
        Tail {
            slots: [0; TAIL_ROOM],
            count: 0,
        }
    }

    pub(crate) fn as_slice(&self) -> &[u32]
        ensures value { result.now ≡ self.now }
        ensures few { length result.now ≤ TAIL_ROOM }
    {
        &self.slots[..self.count]
    }

    pub(crate) fn is_full(&self) -> bool
        ensures { MatchBool result (length self.now ≡ TAIL_ROOM) (length self.now < TAIL_ROOM) }
    {
        self.count == TAIL_ROOM
    }

    pub(crate) fn copy(&self) -> Tail
        ensures { result ≡ self.now }
    {
        Tail {
            slots: self.slots,
            count: self.count,
        }
    }

    pub(crate) fn push(&mut self, gap: u32)
        requires { length self.old < TAIL_ROOM }
        ensures { self.new ≡ self.old ++ gap ∷ [] }
    {
        self.slots[self.count] = gap;
        self.count += 1;
    }
}
