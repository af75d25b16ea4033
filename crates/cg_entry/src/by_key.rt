//! The states of a delta, or of an entry's block, in the order of their keys, borrowed.

ghost use Rattle.std.specs.Prelude.{◌≡◌, ◌<◌, ◌≤◌, Some, length, slice_get};
ghost use Rattle.std.specs.List.{AllByRecursion};
ghost use Rattle.cg_entry.specs.State.{pair, pairs};
ghost use Rattle.cg_entry.specs.Block.{picked};

use crate::state::State;
use std::marker::Model;

// The first places, in a vector whose order is that of the keys.
const FIRST: &[u8; 16] = b"\x00\x01\x02\x03\x04\x05\x06\x07\x08\x09\x0a\x0b\x0c\x0d\x0e\x0f";

/// The states of a delta, or of an entry's block, borrowed in the order of their keys.
#[derive(Drop)]
pub struct ByKey<'a> {
    items: &'a [State],
    places: &'a [u8],
}

/// A contract sees the keys with their texts and versions.
impl<'a> Model for ByKey<'a> {
    ghost use Rattle.std.specs.Prelude.{ℕ, List, ◌<◌, length};
    ghost use Rattle.std.specs.List.{AllByRecursion};
    ghost use Rattle.std.specs.Coded.{coded_list, coded×, coded_ℕ};
    ghost use Rattle.cg_entry.specs.Versioned.{Versioned, versioned_code};
    ghost use Rattle.cg_entry.specs.State.{pairs};
    ghost use Rattle.cg_entry.specs.Block.{picked};

    ghost Value = { List (ℕ × Versioned) };

    ghost coded = { coded_list (coded× coded_ℕ versioned_code) };

    ghost view = { λ b. pairs (picked b.items.now b.places.now) };

    ghost invariant = { λ b. AllByRecursion (λ p. p < length b.items.now) b.places.now };
}

impl<'a> ByKey<'a> {
    // The states at places, in the order of the places.
    pub(crate) fn picked(items: &'a [State], places: &'a [u8]) -> ByKey<'a>
        requires { AllByRecursion (λ p. p < length items.now) places.now }
        ensures { result ≡ pairs (picked items.now places.now) }
    {
        ByKey { items, places }
    }

    // States in the order of their keys.
    pub(crate) fn listed(items: &'a [State]) -> ByKey<'a>
        requires { length items.now ≤ 16 }
        ensures { result ≡ pairs items.now }
    {
        ByKey::picked(items, &FIRST[..items.len()])
    }

    /// The number of states.
    pub fn len(&self) -> usize
        ensures { result ≡ length self.now }
    {
        self.places.len()
    }

    /// The state with this number in the order of the keys, from 0.
    pub fn at(&self, number: usize) -> &'a State
        requires { number < length self.now }
        ensures { slice_get self.now number ≡ Some (pair result.now) }
    {
        &self.items[self.places[number] as usize]
    }
}
