//! A finite map from keys to texts with their versions, kept in the order of the keys.

ghost use Rattle.std.specs.Prelude.{◌≡◌, ◌<◌, ◌^◌, ◌==◌, true, IfOk, IfSome, Some, find, length, option_copied, slice_get};
ghost use Rattle.std.specs.FinMap as map;
ghost use Rattle.std.specs.Option.{option_map};
ghost use Rattle.std.specs.List.{AllByRecursion};
ghost use Rattle.std.specs.List.Sorted.{IsNonDecreasingBy};
ghost use Rattle.cg_entry.specs.Contents.{IsState, AreStates};
ghost use Rattle.cg_entry.specs.Entry as entry_spec;
ghost use Rattle.cg_entry.specs.Entry.{greatest, overlay};
ghost use Rattle.cg_entry.specs.State as state_spec;
ghost use Rattle.cg_entry.specs.State.{KeysRise, pair, pairs, listed_bytes, value_at_key};
ghost use Rattle.cg_entry.specs.Versioned as versioned_spec;
ghost use Rattle.cg_entry.specs.Block.{put_all};

use crate::block::Block;
use crate::by_key::ByKey;
use crate::state::State;
use cg_types::{Shows, StateKey, Version};
use std::alloc::{AllocError, Global};
use std::marker::Model;

#[derive(Debug, Drop)]
pub(crate) struct States {
    items: Vec<State>,
    // The number of bytes of the texts, so that the length of a spelling costs no walk.
    text_bytes: usize,
}

impl Model for States {
    ghost use Rattle.std.specs.Ordering.{nat_cmp};
    ghost use Rattle.std.specs.FinMap as map;
    ghost use Rattle.cg_entry.specs.Versioned.{Versioned, states_code};

    ghost Value = { map.FinMap nat_cmp Versioned };

    ghost coded = { states_code };

    ghost use Rattle.cg_entry.specs.State.{pairs, IsStateList};

    ghost view = { λ s. map.from_sorted (pairs s.items.items) };

    ghost invariant = { λ s. IsStateList s.items.items s.text_bytes };
}

impl Shows for States {
    ghost use Rattle.cg_entry.specs.Contents.{AreStates};

    ghost Shown = { AreStates };

    #[inline(always)]
    fn show(&self) {
        self.as_slice();
    }
}

// Tests whether the keys rise strictly.
pub(crate) fn keys_rise(items: &[State]) -> bool
    ensures { result ≡ state_spec.keys_rise items.now }
{
    items.is_sorted_by(|state, next| state.key < next.key)
}

// Tests whether the versions do not fall.
pub(crate) fn versions_rise(items: &[State]) -> bool
    ensures { result ≡ true → IsNonDecreasingBy (λ s. s.version) items.now }
{
    items.is_sorted_by(|state, next| state.version <= next.version)
}

// The state of a key, if there is one.
fn state_of(items: &[State], key: StateKey) -> Option<&State>
    ensures value { option_copied result ≡ find (λ s. s.key == key) items.now }
    ensures key { IfSome result (λ s. s.now.key ≡ key) }
{
    items.iter().find(|state| state.key == key)
}

fn show_states(items: &[State])
    ensures { AllByRecursion IsState (pairs items.now) }
{
    for state in items {
        state.show();
    }
}

fn text_size(state: &State) -> usize
    ensures { result ≡ entry_spec.text_size state.now.text }
{
    match &state.text {
        Some(text) => text.as_str().len(),
        None => 0,
    }
}

fn size_of_texts(items: &[State]) -> usize
    requires { listed_bytes items.now < 2 ^ 32 }
    ensures { result ≡ listed_bytes items.now }
{
    let mut bytes = 0;
    for state in items {
        bytes += text_size(state);
    }
    bytes
}

impl States {
    pub(crate) fn empty(alloc: Global) -> States
        ensures { result ≡ map.empty }
    {
        States {
            items: Vec::new(alloc),
            text_bytes: 0,
        }
    }

    // There are no more states than keys, so that their texts have few bytes.
    fn of(items: Vec<State>) -> States
        requires rise { KeysRise items.items }
        requires valid { AllByRecursion IsState (pairs items.items) }
        ensures { result ≡ map.from_sorted (pairs items.items) }
    {
        let text_bytes = size_of_texts(&items);
        States { items, text_bytes }
    }

    // Each state is read, which shows that it is in range.
    pub(crate) fn from_rising(items: Vec<State>) -> States
        requires { KeysRise items.items }
        ensures { result ≡ map.from_sorted (pairs items.items) }
    {
        show_states(&items);
        States::of(items)
    }

    // The greatest of the heartbeat and the versions of the states.
    pub(crate) fn greatest(&self, heartbeat: Version) -> Version
        ensures { result ≡ greatest heartbeat self.now }
    {
        let mut most = heartbeat;
        for state in &self.items {
            most = most.max(state.version);
        }
        most
    }

    // The number of states.
    pub(crate) fn len(&self) -> usize
        ensures { result ≡ map.len self.now }
    {
        self.items.as_slice().len()
    }

    // The number of bytes of the texts.
    pub(crate) fn text_bytes(&self) -> usize
        ensures { result ≡ entry_spec.text_bytes self.now }
    {
        self.text_bytes
    }

    // The state of a key, if there is one.
    pub(crate) fn get(&self, key: StateKey) -> Option<&State>
        ensures value { option_map value_at_key (option_copied result) ≡ map.get self.now key }
        ensures key { IfSome result (λ s. s.now.key ≡ key) }
    {
        state_of(&self.items, key)
    }

    // A list of one state.
    pub(crate) fn one(alloc: Global, state: State) -> Result<States, AllocError>
        ensures { IfOk result (λ s. s ≡ map.insert map.empty state.key (value_at_key state)) }
    {
        let mut items = Vec::with_capacity(alloc, 1)?;
        items.push(state)?;
        Ok(States::from_rising(items))
    }

    // The same states in a block.
    pub(crate) fn block(&self, alloc: Global) -> Result<Block, AllocError>
        ensures { IfOk result (λ b. b ≡ self.now) }
    {
        Block::of(alloc, &self.items)
    }

    // The same states in a block. If their versions do not fall, the list is its vector; else they are copied.
    pub(crate) fn into_block(self, alloc: Global) -> Result<Block, AllocError>
        ensures { IfOk result (λ b. b ≡ self) }
    {
        if versions_rise(&self.items) {
            return Ok(Block::in_order(self.items, self.text_bytes));
        }
        self.block(alloc)
    }

    // The states in the order of the keys, as a block lends them.
    pub(crate) fn by_key(&self) -> ByKey<'_>
        ensures { result ≡ map.entries self.now }
    {
        ByKey::listed(&self.items)
    }

    // The states, in the order of the keys.
    pub(crate) fn as_slice(&self) -> &[State]
        ensures value { pairs result.now ≡ map.entries self.now }
        ensures rise { KeysRise result.now }
        ensures valid { AreStates self.now }
        ensures laid { (old : versioned_spec.States) → put_all result.now old ≡ overlay old self.now }
    {
        &self.items
    }
}
