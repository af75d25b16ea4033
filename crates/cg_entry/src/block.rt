//! Blocks of states: a vector that rises by version, then key, and the places by key.

ghost use Rattle.std.specs.Prelude.{IsTrue, ◌≡◌, ◌<◌, ◌≤◌, ◌^◌, ◌+◌, IfOk, IfErr, IfSome, IsOk, OnOk, OnErr, length, nat_lt, option_copied, remove, true, false, slice_get, Some, Ok, ◌++◌, ◌∷◌, []};
ghost use Rattle.std.specs.FinMap as map;
ghost use Rattle.std.specs.FinMap.Entries as entries_spec;
ghost use Rattle.std.specs.Option.{option_map};
ghost use Rattle.std.specs.Arc.{arc_value};
ghost use Rattle.std.specs.Ordering.{nat_cmp};
ghost use Rattle.std.specs.List.{AllByRecursion, AllWithin, flat_map};
ghost use Rattle.std.specs.List.Sorted.{IsNonDecreasingBy};
ghost use Rattle.cg_entry.specs.Contents.{AreStates, IsState};
ghost use Rattle.cg_entry.specs.Entry as entry_spec;
ghost use Rattle.cg_entry.specs.Entry.{greatest, newer_than, overlay};
ghost use Rattle.cg_entry.specs.State.{IsStateList, KeysRise, pair, pairs, value_at_key};
ghost use Rattle.cg_entry.specs.Versioned.{States};
ghost use Rattle.cg_entry.specs.Block.{bytes_at, picked, put_all, state_at};
ghost use Rattle.cg_entry.specs.Newer.{newer_states};
ghost use Rattle.cg_entry.specs.Part.{IsPart};
ghost use Rattle.cg_entry.specs.Section.{StandsIn};
ghost use Rattle.cg_entry.specs.Section.{state as spelled_state};
ghost use Rattle.cg_entry.specs.declared.block.Newer.TheVariants.{Nothing};
ghost use Rattle.cg_types.specs.Rows.{IsGapAt, IsRowAt};

use crate::by_key::ByKey;
use crate::part::Part;
use crate::places::Places;
use crate::state::State;
use crate::states::versions_rise;
use cg_types::{STATE_LIMIT, Shows, StateKey, StateText, Version};
use std::alloc::{AllocError, Global};
use std::marker::Model;
use std::sync::Arc;

// A finite map from keys to texts with their versions.
#[derive(Debug, Drop)]
pub(crate) struct Block {
    items: Vec<State>,
    places: Places,
    text_bytes: usize,
}

// The states of a block that are newer than a version: none, each, or those in a block of their own.
#[derive(Debug, Drop)]
pub(crate) enum Newer {
    Nothing,
    Each,
    Part(Block),
}

impl Model for Block {
    ghost use Rattle.std.specs.Ordering.{nat_cmp};
    ghost use Rattle.std.specs.FinMap as map;
    ghost use Rattle.cg_entry.specs.Versioned.{Versioned, states_code};

    ghost Value = { map.FinMap nat_cmp Versioned };

    ghost coded = { states_code };

    ghost use Rattle.cg_entry.specs.State.{pairs};
    ghost use Rattle.cg_entry.specs.Block.{picked, IsBlock};

    ghost view = { λ b. map.from_sorted (pairs (picked b.items.items b.places)) };

    ghost invariant = { λ b. IsBlock b.items.items b.places b.text_bytes };
}

impl Shows for Block {
    ghost use Rattle.cg_entry.specs.Contents.{AreStates};

    ghost Shown = { AreStates };

    #[inline(always)]
    fn show(&self) {
        self.places.as_slice();
    }
}

// The first place whose state is newer than `above`. The ends are looked at before it is halved: mostly no state is
// newer, or each, or the last.
fn first_above(items: &[State], above: u32) -> usize
    requires { IsNonDecreasingBy (λ s. s.version) items.now }
    ensures within { result ≤ length items.now }
    ensures older { AllWithin (λ s. nat_lt above s.version ≡ false) items.now 0 result }
    ensures newer { AllWithin (λ s. nat_lt above s.version ≡ true) items.now result (length items.now) }
{
    let count = items.len();
    if count == 0 {
        return 0;
    }
    if items[count - 1].version.get() <= above {
        return count;
    }
    if above < items[0].version.get() {
        return 0;
    }
    if count > 1 && items[count - 2].version.get() <= above {
        return count - 1;
    }
    items.partition_point(|state| state.version.get() <= above)
}

// The key at a place; 0 at none.
fn key_at(items: &[State], place: u8) -> u8
    ensures { result ≡ (state_at items.now place).key }
{
    match items.get(place as usize) {
        Some(state) => state.key.get(),
        None => 0,
    }
}

// Tests whether a key has this number among the places.
fn has_number(items: &[State], places: &[u8], key: StateKey, number: usize) -> bool
    ensures { IsTrue result → IsRowAt (pairs (picked items.now places.now)) key number }
{
    number < places.len() && key_at(items, places[number]) == key.get()
}

// The number of a key among the places, by halving over them; else the number where its place belongs.
fn halve(items: &[State], places: &[u8], key: StateKey) -> Result<usize, usize>
    requires { KeysRise (picked items.now places.now) }
    ensures found { IfOk result (λ n. IsRowAt (pairs (picked items.now places.now)) key n) }
    ensures absent { IfErr result (λ n. IsGapAt (pairs (picked items.now places.now)) key n) }
{
    places.binary_search_by_key(&key.get(), |place| key_at(items, *place))
}

// The number of a key among the places; else the number where its place belongs. It looks at the number that the key has
// if no lesser key is missing before it halves.
fn number_of(items: &[State], places: &[u8], key: StateKey) -> Result<usize, usize>
    requires { KeysRise (picked items.now places.now) }
    ensures found { IfOk result (λ n. IsRowAt (pairs (picked items.now places.now)) key n) }
    ensures absent { IfErr result (λ n. IsGapAt (pairs (picked items.now places.now)) key n) }
{
    let number = usize::from(key.get()) - 1;
    if has_number(items, places, key, number) {
        return Ok(number);
    }
    halve(items, places, key)
}

// The state of a key.
fn find<'a>(items: &'a [State], places: &[u8], key: StateKey) -> Option<&'a State>
    requires rise { KeysRise (picked items.now places.now) }
    requires within { AllByRecursion (λ p. p < length items.now) places.now }
    ensures value { option_map value_at_key (option_copied result)
        ≡ entries_spec.find nat_cmp key (pairs (picked items.now places.now)) }
    ensures key { IfSome result (λ s. s.now.key ≡ key) }
{
    match number_of(items, places, key) {
        Ok(at) => Some(&items[places[at] as usize]),
        Err(_) => None,
    }
}

fn text_size(state: &State) -> usize
    ensures { result ≡ entry_spec.text_size state.now.text }
{
    match &state.text {
        Some(text) => text.as_str().len(),
        None => 0,
    }
}

// The number of bytes of the text at a place; 0 at none.
fn size_at(items: &[State], place: u8) -> usize
    ensures { result ≡ entry_spec.text_size (state_at items.now place).text }
{
    match items.get(place as usize) {
        Some(state) => text_size(state),
        None => 0,
    }
}

// The number of bytes of the texts at places.
fn size_of(items: &[State], places: &[u8]) -> usize
    requires { bytes_at items.now places.now < 2 ^ 32 }
    ensures { result ≡ bytes_at items.now places.now }
{
    let mut bytes = 0;
    for place in places {
        bytes += size_at(items, *place);
    }
    bytes
}

// The number of states to make room for.
fn room_for(count: usize, more: usize) -> usize {
    count.saturating_add(more).min(usize::from(STATE_LIMIT))
}

// Pushes a copy of each state.
fn push_copies(copies: &mut Vec<State>, items: &[State]) -> Result<(), AllocError>
    ensures { OnOk result (copies.new.items ≡ copies.old.items ++ items.now) }
{
    for state in items {
        copies.push(state.copy()?)?;
    }
    Ok(())
}

// Copies of states, in a vector with room for more.
fn copies(alloc: Global, items: &[State], more: usize) -> Result<Vec<State>, AllocError>
    ensures { IfOk result (λ v. v.items ≡ items.now) }
{
    let mut copies = Vec::with_capacity(alloc, room_for(items.len(), more))?;
    push_copies(&mut copies, items)?;
    Ok(copies)
}

// Copies of all states but the one at a place, in a vector with room for more.
fn other_copies(
    alloc: Global,
    items: &[State],
    at: usize,
    more: usize,
) -> Result<Vec<State>, AllocError>
    requires { at < length items.now }
    ensures { IfOk result (λ v. v.items ≡ remove items.now at) }
{
    let mut copies = Vec::with_capacity(alloc, room_for(items.len() - 1, more))?;
    push_copies(&mut copies, &items[..at])?;
    push_copies(&mut copies, &items[at + 1..])?;
    Ok(copies)
}

// Puts a part of a section in the place of a state's text, which stands there behind the head at `at`, and returns the
// length of the state in it.
fn share(state: &mut State, section: &Arc<Vec<u8>, Global>, at: usize) -> Result<usize, AllocError>
    requires stands { IfSome state.old.text (λ t. StandsIn (arc_value section.now).items (at + 7) t) }
    requires short { at < 2 ^ 31 }
    ensures same { state.new ≡ state.old }
    ensures size { IfOk result (λ n. n ≡ 7 + entry_spec.text_size state.old.text) }
{
    let Some(text) = &state.text else {
        return Ok(7);
    };
    let size = text.as_str().len();
    let part = StateText::of_part(section, (at + 7) as u32, size as u16)?;
    state.text = Some(part);
    Ok(7 + size)
}

// Makes the texts of states, at places, parts of what spells them in the order of the places.
fn gather(
    items: &mut Vec<State>,
    places: &[u8],
    section: &Arc<Vec<u8>, Global>,
) -> Result<(), AllocError>
    requires within { AllByRecursion (λ p. p < length items.old.items) places.now }
    requires spelled { (arc_value section.now).items ≡ flat_map spelled_state (pairs (picked items.old.items places.now)) }
    requires short { length (arc_value section.now).items < 2 ^ 31 }
    ensures { items.new.items ≡ items.old.items }
{
    let mut at = 0;
    for place in places {
        at += share(&mut items[*place as usize], section, at)?;
    }
    Ok(())
}

impl Block {
    pub(crate) fn empty(alloc: Global) -> Block
        ensures { result ≡ map.empty }
    {
        Block {
            items: Vec::new(alloc),
            places: Places::none(),
            text_bytes: 0,
        }
    }

    // Adds a state whose key comes after all.
    pub(crate) fn push(&mut self, state: State) -> Result<(), AllocError>
        requires { AllByRecursion (λ e. e.0 < state.key) (map.entries self.old) }
        ensures ok { OnOk result (self.new ≡ map.insert self.old state.key (value_at_key state)) }
        ensures err { OnErr result (self.new ≡ self.old) }
    {
        state.show();
        let size = text_size(&state);
        let count = self.items.as_slice().len();
        let at = first_above(&self.items, state.version.get());
        self.items.insert(at, state)?;
        self.places.make_room(at as u8, count as u8);
        self.places.push(at as u8);
        self.text_bytes += size;
        Ok(())
    }

    // A copy with room for more states.
    pub(crate) fn copy(&self, alloc: Global, more: usize) -> Result<Block, AllocError>
        ensures { IfOk result (λ b. b ≡ self.now) }
    {
        Ok(Block {
            items: copies(alloc, &self.items, more)?,
            places: self.places.copy(),
            text_bytes: self.text_bytes,
        })
    }

    // The states, in the order of the versions. Put one after the other, they are laid over others.
    pub(crate) fn as_slice(&self) -> &[State]
        ensures { (old : States) → put_all result.now old ≡ overlay old self.now }
    {
        &self.items
    }

    // Tests whether each state is older than a version.
    pub(crate) fn is_older(&self, version: Version) -> bool
        ensures { result ≡ true → AllByRecursion (λ e. e.1.version < version) (map.entries self.now) }
    {
        let items = self.items.as_slice();
        if items.is_empty() {
            return true;
        }
        items[items.len() - 1].version < version
    }

    // Adds a state at the vector's end, with this number among the keys.
    fn add(self, number: usize, state: State) -> Result<Block, AllocError>
        requires newest { AllByRecursion (λ e. e.1.version < state.version) (map.entries self) }
        requires gap { IsGapAt (map.entries self) state.key number }
        ensures { IfOk result (λ b. b ≡ map.insert self state.key (value_at_key state)) }
    {
        state.show();
        let size = text_size(&state);
        let last = self.items.as_slice().len();
        let mut items = self.items;
        items.push(state)?;
        Ok(Block {
            items,
            places: self.places.with(number, last as u8),
            text_bytes: self.text_bytes + size,
        })
    }

    // Puts a state at the vector's end, in place of the one that has this number among the keys.
    fn replace(self, number: usize, state: State) -> Result<Block, AllocError>
        requires newest { AllByRecursion (λ e. e.1.version < state.version) (map.entries self) }
        requires row { IsRowAt (map.entries self) state.key number }
        ensures { IfOk result (λ b. b ≡ map.insert self state.key (value_at_key state)) }
    {
        state.show();
        let size = text_size(&state);
        let last = self.items.as_slice().len() - 1;
        let at = self.places.as_slice()[number];
        let mut items = self.items;
        let old = items.remove(at as usize);
        items.push(state)?;
        Ok(Block {
            items,
            places: self.places.moved(number, at, last as u8),
            text_bytes: self.text_bytes - text_size(&old) + size,
        })
    }

    // Puts a state that is newer than each, in place of one with its key.
    pub(crate) fn put_newest(self, state: State) -> Result<Block, AllocError>
        requires { AllByRecursion (λ e. e.1.version < state.version) (map.entries self) }
        ensures { IfOk result (λ b. b ≡ map.insert self state.key (value_at_key state)) }
    {
        match number_of(&self.items, self.places.as_slice(), state.key) {
            Ok(number) => self.replace(number, state),
            Err(number) => self.add(number, state),
        }
    }

    // A copy with a state that is newer than each, with room for more. The state that has this number among the keys
    // is replaced: it is not copied.
    fn with_other(
        &self,
        alloc: Global,
        number: usize,
        state: State,
        more: usize,
    ) -> Result<Block, AllocError>
        requires newest { AllByRecursion (λ e. e.1.version < state.version) (map.entries self.now) }
        requires row { IsRowAt (map.entries self.now) state.key number }
        ensures { IfOk result (λ b. b ≡ map.insert self.now state.key (value_at_key state)) }
    {
        state.show();
        let size = text_size(&state);
        let last = self.items.as_slice().len() - 1;
        let at = self.places.as_slice()[number];
        let old = size_at(&self.items, at);
        let mut items = other_copies(alloc, &self.items, at as usize, more)?;
        items.push(state)?;
        Ok(Block {
            items,
            places: self.places.moved(number, at, last as u8),
            text_bytes: self.text_bytes - old + size,
        })
    }

    // A copy with a state that is newer than each, in place of one with its key, with room for more.
    pub(crate) fn with_newest(
        &self,
        alloc: Global,
        state: State,
        more: usize,
    ) -> Result<Block, AllocError>
        requires { AllByRecursion (λ e. e.1.version < state.version) (map.entries self.now) }
        ensures { IfOk result (λ b. b ≡ map.insert self.now state.key (value_at_key state)) }
    {
        match number_of(&self.items, self.places.as_slice(), state.key) {
            Ok(number) => self.with_other(alloc, number, state, more),
            Err(number) => self.copy(alloc, more)?.add(number, state),
        }
    }

    // A test before states are copied: the first of `newer` is newer than all, and their versions do not fall.
    fn is_before(&self, newer: &[State]) -> bool
        ensures some { result ≡ true → 0 < length newer.now }
        ensures older { result ≡ true
            → AllByRecursion (λ e. e.1.version < (state_at newer.now 0).version) (map.entries self.now) }
    {
        !newer.is_empty() && self.is_older(newer[0].version) && versions_rise(newer)
    }

    // A copy with each of `newer` put. `None` if one is not newer than all before it.
    pub(crate) fn with_all(
        &self,
        alloc: Global,
        newer: &[State],
    ) -> Result<Option<Block>, AllocError>
        ensures { IfOk result (λ o. IfSome o (λ b. b ≡ put_all newer.now self.now)) }
    {
        if !self.is_before(newer) {
            return Ok(None);
        }
        let mut block = self.with_newest(alloc, newer[0].copy()?, newer.len())?;
        for state in &newer[1..] {
            if !block.is_older(state.version) {
                return Ok(None);
            }
            block = block.put_newest(state.copy()?)?;
        }
        Ok(Some(block))
    }

    // The same block, whose texts are parts of what spells it.
    pub(crate) fn gathered(self, section: &Arc<Vec<u8>, Global>) -> Result<Block, AllocError>
        requires { (arc_value section.now).items ≡ flat_map spelled_state (map.entries self) }
        ensures { IfOk result (λ b. b ≡ self) }
    {
        let mut items = self.items;
        gather(&mut items, self.places.as_slice(), section)?;
        Ok(Block {
            items,
            places: self.places,
            text_bytes: self.text_bytes,
        })
    }

    // The number of states.
    pub(crate) fn len(&self) -> usize
        ensures { result ≡ map.len self.now }
    {
        self.places.as_slice().len()
    }

    // The state of a key, if there is one.
    pub(crate) fn get(&self, key: StateKey) -> Option<&State>
        ensures value { option_map value_at_key (option_copied result) ≡ map.get self.now key }
        ensures key { IfSome result (λ s. s.now.key ≡ key) }
    {
        find(&self.items, self.places.as_slice(), key)
    }

    // The states in the order of the keys.
    pub(crate) fn by_key(&self) -> ByKey<'_>
        ensures { result ≡ map.entries self.now }
    {
        ByKey::picked(&self.items, self.places.as_slice())
    }

    // The states with a version greater than `above`: the vector's end, in the order of the keys by the places that
    // are left.
    pub(crate) fn newer_than(&self, alloc: Global, above: u32) -> Result<Block, AllocError>
        ensures { IfOk result (λ b. b ≡ newer_than above self.now) }
    {
        let from = first_above(&self.items, above);
        let items = copies(alloc, &self.items[from..], 0)?;
        let places = self.places.lowered(from as u8);
        let text_bytes = size_of(&items, places.as_slice());
        Ok(Block {
            items,
            places,
            text_bytes,
        })
    }

    // Which part of the states is newer than a version, by the vector's end. The section, if it is kept, spells all.
    pub(crate) fn newer_part<'a>(&'a self, above: u32, section: Option<&'a [u8]>) -> Part<'a>
        requires { IfSome section (λ s. s.now ≡ flat_map spelled_state (map.entries self.now)) }
        ensures { IsPart above self.now result }
    {
        let items = self.items.as_slice();
        let from = first_above(items, above);
        if from == items.len() {
            return Part::Nothing;
        }
        if from == 0 {
            return match section {
                Some(section) => Part::Each(section),
                None => Part::Some,
            };
        }
        if from + 1 == items.len() {
            return Part::Last(&items[from]);
        }
        Part::Some
    }

    // A block of one state.
    fn one(alloc: Global, state: &State) -> Result<Block, AllocError>
        ensures { IfOk result (λ b. b ≡ map.from_sorted (pair state.now ∷ [])) }
    {
        state.show();
        let mut items = Vec::with_capacity(alloc, 1)?;
        items.push(state.copy()?)?;
        Ok(Block::in_order(items, text_size(state)))
    }

    // The states with a version greater than `above`, which mostly are none, all or the last alone. If none is, it
    // takes no memory.
    pub(crate) fn newer(&self, alloc: Global, above: u32) -> Result<Newer, AllocError>
        ensures value { IfOk result (λ n. newer_states n self.now ≡ newer_than above self.now) }
        ensures none { newer_than above self.now ≡ map.empty → result ≡ Ok Nothing }
    {
        let items = self.items.as_slice();
        let from = first_above(items, above);
        if from == items.len() {
            return Ok(Newer::Nothing);
        }
        if from == 0 {
            return Ok(Newer::Each);
        }
        if from + 1 == items.len() {
            return Ok(Newer::Part(Block::one(alloc, &items[from])?));
        }
        Ok(Newer::Part(self.newer_than(alloc, above)?))
    }

    // A block without states, with room for this number.
    pub(crate) fn with_room(alloc: Global, room: usize) -> Result<Block, AllocError>
        ensures { IfOk result (λ b. b ≡ map.empty) }
    {
        Ok(Block {
            items: Vec::with_capacity(alloc, room)?,
            places: Places::none(),
            text_bytes: 0,
        })
    }

    // States whose versions do not fall as their keys rise, in the vector that they are in.
    pub(crate) fn in_order(items: Vec<State>, text_bytes: usize) -> Block
        requires listed { IsStateList items.items text_bytes }
        requires versions { IsNonDecreasingBy (λ s. s.version) items.items }
        ensures { result ≡ map.from_sorted (pairs items.items) }
    {
        let count = items.as_slice().len();
        Block {
            items,
            places: Places::first(count as u8),
            text_bytes,
        }
    }

    // Copies of the states of a list, which rises by key.
    pub(crate) fn of(alloc: Global, items: &[State]) -> Result<Block, AllocError>
        requires { KeysRise items.now }
        ensures { IfOk result (λ b. b ≡ map.from_sorted (pairs items.now)) }
    {
        let mut block = Block::with_room(alloc, items.len())?;
        for state in items {
            block.push(state.copy()?)?;
        }
        Ok(block)
    }

    // The number of bytes of the texts.
    pub(crate) fn text_bytes(&self) -> usize
        ensures { result ≡ entry_spec.text_bytes self.now }
    {
        self.text_bytes
    }

    // The greatest of the heartbeat and the versions of the states; of those the last is the greatest.
    pub(crate) fn greatest(&self, heartbeat: Version) -> Version
        ensures { result ≡ greatest heartbeat self.now }
    {
        let items = self.items.as_slice();
        if items.is_empty() {
            return heartbeat;
        }
        heartbeat.max(items[items.len() - 1].version)
    }
}
