//! The states of an entry, and a delta of them, borrowed.

ghost use Rattle.std.specs.Prelude.{◌≡◌, ◌↔◌, ◌<◌, ◌^◌, ◌++◌, ◌∷◌, IsTrue, IfOk, OnOk, Some, length, map, nat_lt, slice_get, option_copied};
ghost use Rattle.std.specs.List.{filter, flat_map};
ghost use Rattle.cg_entry.specs.Entry.{newest, part_above};
ghost use Rattle.cg_entry.specs.State.{pair};
ghost use Rattle.cg_entry.specs.Removals.{removed_under};
ghost use Rattle.cg_entry.specs.Section as section_spec;
ghost use Rattle.cg_types.specs.Numbers.{IsVersionHeld};

use crate::by_key::ByKey;
use crate::delta::Delta;
use crate::entry::Entry;
use crate::removals::Removals;
use crate::spelled::put_state;
use crate::state::{State, copy_of};
use cg_types::{Endpoint, Shows, StateKey, StateText, Version};
use std::alloc::{AllocError, Global};
use std::marker::Model;

/// The states of an entry, borrowed in the order of their keys.
#[derive(Drop)]
pub struct BorrowedStates<'a> {
    states: ByKey<'a>,
    removals: &'a Removals,
}

/// A contract sees the keys with their texts and versions.
impl<'a> Model for BorrowedStates<'a> {
    ghost use Rattle.std.specs.Prelude.{ℕ, List, map};
    ghost use Rattle.std.specs.Coded.{coded_list, coded×, coded_ℕ};
    ghost use Rattle.cg_entry.specs.Versioned.{Versioned, versioned_code};
    ghost use Rattle.cg_entry.specs.Removals.{removed_under};

    ghost Value = { List (ℕ × Versioned) };

    ghost coded = { coded_list (coded× coded_ℕ versioned_code) };

    ghost view = { λ l. map (removed_under l.removals.now) l.states };
}

fn is_same_text(ours: Option<&StateText>, theirs: Option<&StateText>) -> bool
    ensures { IsTrue result ↔ (option_copied ours.entry ≡ option_copied theirs.entry) }
{
    match (ours, theirs) {
        (Some(ours), Some(theirs)) => ours == theirs,
        (None, None) => true,
        _ => false,
    }
}

impl<'a> BorrowedStates<'a> {
    // The states of a block under the removals.
    pub(crate) fn under(states: ByKey<'a>, removals: &'a Removals) -> BorrowedStates<'a>
        ensures { result ≡ map (removed_under removals.now) states.entry }
    {
        BorrowedStates { states, removals }
    }

    /// The number of states.
    pub fn len(&self) -> usize
        ensures { result ≡ length self.now }
    {
        self.states.len()
    }

    /// The key, text and version of the state with this number in the order of the keys, from 0. A tombstone has no text.
    pub fn at(&self, number: usize) -> (StateKey, Option<&'a StateText>, Version)
        requires { number < length self.now }
        ensures { slice_get self.now number
            ≡ Some (result.0, record { text = option_copied result.1; version = result.2 }) }
    {
        let state = self.states.at(number);
        match self.removals.get(state.key) {
            Some(version) => (state.key, None, version),
            None => (state.key, state.text.as_ref(), state.version),
        }
    }

    // The state with this number, which shares the text.
    pub(crate) fn copy_at(&self, number: usize) -> Result<State, AllocError>
        requires { number < length self.now }
        ensures { IfOk result (λ s. slice_get self.now number ≡ Some (pair s)) }
    {
        let (key, text, version) = self.at(number);
        let text = copy_of(text)?;
        Ok(State { key, version, text })
    }

    // Tests whether both lend the same state under a number.
    fn is_same_at(&self, other: &BorrowedStates<'_>, number: usize) -> bool
        requires ours { number < length self.now }
        requires theirs { number < length other.now }
        ensures { IsTrue result ↔ (slice_get self.now number ≡ slice_get other.now number) }
    {
        let (key, text, version) = self.at(number);
        let (other_key, other_text, other_version) = other.at(number);
        key == other_key && version == other_version && is_same_text(text, other_text)
    }

    // Tests whether both lend the same states.
    pub(crate) fn are_same(&self, other: &BorrowedStates<'_>) -> bool
        ensures { IsTrue result ↔ (self.now ≡ other.now) }
    {
        if self.len() != other.len() {
            return false;
        }
        for number in 0..self.len() {
            if !self.is_same_at(other, number) {
                return false;
            }
        }
        true
    }

    // The number of those that are newer than a version.
    pub(crate) fn newer_count(&self, above: u32) -> usize
        ensures { result ≡ length (filter (λ s. nat_lt above s.1.version) self.now) }
    {
        let mut count = 0;
        for number in 0..self.len() {
            let (_key, _text, version) = self.at(number);
            if above < version.get() {
                count += 1;
            }
        }
        count
    }

    // Spells those that are newer than a version.
    pub(crate) fn put_newer(&self, out: &mut Vec<u8>, above: u32) -> Result<(), AllocError>
        ensures { OnOk result (out.new.items
            ≡ out.old.items ++ flat_map section_spec.state (filter (λ s. nat_lt above s.1.version) self.now)) }
    {
        for number in 0..self.len() {
            let (key, text, version) = self.at(number);
            if above < version.get() {
                put_state(out, key, text, version)?;
            }
        }
        Ok(())
    }
}

/// The part of an entry above a version, where the entry keeps it: a delta that takes no memory.
#[derive(Drop)]
pub struct BorrowedDelta<'a> {
    entry: &'a Entry,
    above: u32,
}

/// A contract sees the delta.
impl<'a> Model for BorrowedDelta<'a> {
    ghost use Rattle.std.specs.Prelude.{◌<◌};
    ghost use Rattle.cg_types.specs.Numbers.{IsVersionHeld};
    ghost use Rattle.cg_entry.specs.Values.{DeltaValue, delta_code};
    ghost use Rattle.cg_entry.specs.Entry.{newest, part_above};

    ghost Value = { DeltaValue };

    ghost coded = { delta_code };

    ghost view = { λ d. part_above d.above d.entry.now };

    ghost invariant = { λ d. IsVersionHeld d.above × (d.above < newest d.entry.now) };
}

impl Shows for BorrowedDelta<'_> {
    ghost use Rattle.cg_entry.specs.Contents.{IsDeltaOfEntry};

    ghost Shown = { IsDeltaOfEntry };

    #[inline(always)]
    fn show(&self) {
        self.entry.show();
    }
}

impl<'a> BorrowedDelta<'a> {
    // The part of an entry above a version that is less than its newest.
    pub(crate) fn of(entry: &'a Entry, above: u32) -> BorrowedDelta<'a>
        requires range { IsVersionHeld above }
        requires newer { above < newest entry.now }
        ensures { result ≡ part_above above entry.now }
    {
        BorrowedDelta { entry, above }
    }

    /// The same delta, which shares what `Entry::above` says. It is refused as that is.
    pub fn to_owned(&self, alloc: Global) -> Result<Delta, AllocError>
        ensures { IfOk result (λ d. d ≡ self.now) }
    {
        self.entry.part_above(alloc, self.above)
    }

    /// Appends what spells the delta about an owner in a frame: the owner, the generation, both versions, the number of
    /// states, and the states in the order of their keys. After `AllocError` a part of it may be there.
    pub fn put(&self, owner: Endpoint, out: &mut Vec<u8>) -> Result<(), AllocError>
        ensures { OnOk result (out.new.items ≡ out.old.items ++ section_spec.delta_about owner self.now) }
    {
        self.entry.put_above(owner, self.above, out)
    }
}
