//! Entries: all that is held of one endpoint.

ghost use Rattle.std.specs.Prelude.{◌≡◌, ◌<◌, ◌↔◌, ◌++◌, true, IsTrue, IfOk, IfErr, OnOk, OnErr, IsOk, Some, None, Ok, option_copied, is_some, length};
ghost use Rattle.std.specs.FinMap as map;
ghost use Rattle.std.specs.Option.{option_map};
ghost use Rattle.cg_types.specs.Answer.{Answers, AnswersExactly};
ghost use Rattle.cg_types.specs.Numbers.{IsVersionHeld};
ghost use Rattle.cg_version.specs.Version.{next_version};
ghost use Rattle.cg_entry.specs.Contents.{IsEntry};
ghost use Rattle.cg_entry.specs.Entry as spec;
ghost use Rattle.cg_entry.specs.Entry.{greatest, newest, newer_than, overlay, delta_above, part_above, starting_entry, entry_after_beat, with_state, text_standing, removal_of};
ghost use Rattle.cg_entry.specs.Part.{IsPart};
ghost use Rattle.cg_entry.specs.Section as section_spec;
ghost use Rattle.cg_entry.specs.State.{value_at_key};
ghost use Rattle.cg_entry.specs.Taking.{whole_entry, taken_or_gap, advanced_entry, absorption, is_taken, meeting, IsTakenEntry, IfTaken};

use crate::block::Block;
use crate::borrowed::{BorrowedDelta, BorrowedStates};
use crate::delta::Delta;
use crate::held::Held;
use crate::part::Part;
use crate::removals::Removals;
use crate::spelled::{Head, put_head, put_state};
use crate::standing::Standing;
use crate::state::State;
use cg_types::{Endpoint, Fault, Generation, Shows, StateKey, StateText, Version};
use cg_version::Versions;
use std::alloc::{AllocError, Global};
use std::marker::Model;

/// An entry: a generation, a heartbeat version and the states of one endpoint (Apache Cassandra's `EndpointState`). One
/// generator of versions serves the heartbeat and the states.
#[derive(Debug, Drop)]
pub struct Entry {
    states: Standing,
    generation: Generation,
    heartbeat: Version,
    // The greatest version of all, so that a digest costs no walk over the states.
    newest: Version,
    // The removals since the block of states was made, beside it.
    removals: Removals,
}

// Whoever takes a delta moves an entry a few times.
const _: () = prove!(size_of::<Entry>() <= 96);

impl Model for Entry {
    ghost use Rattle.cg_entry.specs.Values.{EntryValue, entry_code};
    ghost use Rattle.cg_entry.specs.Removals.{with_tombstones};

    ghost Value = { EntryValue };

    ghost coded = { entry_code };

    ghost view = { λ e. record {
      generation = e.generation;
      heartbeat = e.heartbeat;
      states = with_tombstones e.removals e.states;
    } };

    ghost use Rattle.std.specs.Prelude.{◌≡◌};
    ghost use Rattle.cg_entry.specs.Entry.{greatest};

    ghost invariant = { λ e. e.newest ≡ greatest e.heartbeat (with_tombstones e.removals e.states) };
}

impl Shows for Entry {
    ghost use Rattle.cg_entry.specs.Contents.{IsEntry};

    ghost Shown = { IsEntry };

    #[inline(always)]
    fn show(&self) {
        self.generation.show();
        self.heartbeat.show();
        self.states.show();
        self.removals.show();
    }
}

/// The outcome of a delta: the entry that it led to, or why it was not taken. `Old` brings nothing new; at a `Gap` the
/// holder lacks something below it.
#[derive(Debug, Drop)]
pub enum Absorbed {
    Taken(Entry),
    Old,
    Gap,
}

// The outcome of a delta if nothing of its generation is held: it is taken if it is whole.
fn whole(alloc: Global, delta: &Delta) -> Result<Absorbed, AllocError>
    ensures value { IfOk result (λ a. a ≡ taken_or_gap (whole_entry delta.now)) }
    ensures refused { IfErr result (λ _. is_taken (taken_or_gap (whole_entry delta.now)) ≡ true) }
{
    match Entry::of_delta(alloc, delta)? {
        Some(entry) => Ok(Absorbed::Taken(entry)),
        None => Ok(Absorbed::Gap),
    }
}

/// Meets a delta with what is held of its endpoint, if anything is, and returns the outcome. Texts are shared. The
/// block of states is the entry's if the delta brings no state and the entry has no removal beside its block. It is the
/// delta's if the delta brings each key that the entry has. `AllocError` only if the delta is to be taken and a new block
/// finds no memory.
pub fn meet(alloc: Global, held: Option<&Entry>, delta: &Delta) -> Result<Absorbed, AllocError>
    ensures value { IfOk result (λ a. a ≡ meeting (option_copied held.entry) delta.now) }
    ensures each { IfOk result (λ a. IfTaken a (IsTakenEntry (option_copied held.entry) delta.now)) }
    ensures refused { IfErr result (λ _. is_taken (meeting (option_copied held.entry) delta.now) ≡ true) }
{
    let Some(entry) = held else {
        return whole(alloc, delta);
    };
    if delta.generation() < entry.generation {
        return Ok(Absorbed::Old);
    }
    if entry.generation < delta.generation() {
        return whole(alloc, delta);
    }
    let brought = delta.newest();
    if brought <= entry.newest() {
        return Ok(Absorbed::Old);
    }
    if entry.newest().get() < delta.above() {
        return Ok(Absorbed::Gap);
    }
    Ok(Absorbed::Taken(entry.advance(alloc, delta, brought)?))
}

impl Entry {
    /// The entry of an endpoint that starts. `alloc` is kept for what is held later.
    pub fn start(alloc: Global, generation: Generation) -> Entry
        ensures { result ≡ starting_entry generation }
    {
        Entry::of_parts(generation, Version::first(), Standing::none(alloc))
    }

    fn of_parts(generation: Generation, heartbeat: Version, states: Standing) -> Entry
        ensures { result ≡ record { generation = generation; heartbeat = heartbeat; states = states } }
    {
        let newest = states.greatest(heartbeat);
        Entry {
            states,
            generation,
            heartbeat,
            newest,
            removals: Removals::none(),
        }
    }

    /// The entry that a whole delta carries; `None` if the delta is above a version. It has the delta's block of
    /// states, as a copy of the delta has; `AllocError` if a whole delta's block finds no memory.
    pub fn of_delta(alloc: Global, delta: &Delta) -> Result<Option<Entry>, AllocError>
        ensures value { IfOk result (λ e. e ≡ whole_entry delta.now) }
        ensures none { whole_entry delta.now ≡ None → result ≡ Ok None }
    {
        if delta.above() != 0 {
            return Ok(None);
        }
        let states = delta.held().standing(alloc)?;
        Ok(Some(Entry::of_parts(delta.generation(), delta.heartbeat(), states)))
    }

    /// Sets the heartbeat version to the next version. `VersionsSpent` if there is none; the entry and the versions
    /// then stay unchanged. No other refusal comes.
    pub fn beat(&mut self, versions: &mut Versions) -> Result<Version, Fault>
        requires { versions.old ≡ newest self.old }
        ensures version { AnswersExactly (λ v. v) (next_version (newest self.old)) result }
        ensures ok { OnOk result (self.new ≡ entry_after_beat self.old) }
        ensures given { IfOk result (λ v. versions.new ≡ v) }
        ensures stands { versions.new ≡ newest self.new }
        ensures err { OnErr result (self.new ≡ self.old) }
        ensures kept { OnErr result (versions.new ≡ versions.old) }
    {
        let version = versions.next()?;
        self.heartbeat = version;
        self.newest = version;
        Ok(version)
    }

    /// Gives a key a text with the next version. `VersionsSpent` if there is none, in whose place `OutOfMemory` never
    /// comes; else at most `OutOfMemory`. After a refusal the entry and the versions are unchanged.
    pub fn set(
        &mut self,
        versions: &mut Versions,
        key: StateKey,
        text: StateText,
    ) -> Result<Version, Fault>
        requires { versions.old ≡ newest self.old }
        ensures version { Answers (λ v. v) (next_version (newest self.old)) result }
        ensures ok { OnOk result (self.new ≡ with_state key (Some text) self.old) }
        ensures given { IfOk result (λ v. versions.new ≡ v) }
        ensures stands { versions.new ≡ newest self.new }
        ensures err { OnErr result (self.new ≡ self.old) }
        ensures kept { OnErr result (versions.new ≡ versions.old) }
    {
        let mut after = *versions;
        let version = after.next()?;
        let text = Some(text);
        let states = self.with(State { key, version, text })?;
        self.states = states;
        self.removals = Removals::none();
        self.newest = version;
        *versions = after;
        Ok(version)
    }

    /// Removes the text of a key: it puts a tombstone in its place, with the next version. `NoSuchKey` if the key has no
    /// text, else `VersionsSpent` if there is no next version; the entry and the versions then stay unchanged. No other
    /// refusal comes: it takes no memory.
    pub fn remove(&mut self, versions: &mut Versions, key: StateKey) -> Result<Version, Fault>
        requires { versions.old ≡ newest self.old }
        ensures version { AnswersExactly (λ v. v) (removal_of key self.old) result }
        ensures ok { OnOk result (self.new ≡ with_state key None self.old) }
        ensures given { IfOk result (λ v. versions.new ≡ v) }
        ensures stands { versions.new ≡ newest self.new }
        ensures err { OnErr result (self.new ≡ self.old) }
        ensures kept { OnErr result (versions.new ≡ versions.old) }
    {
        if !self.has_text(key) {
            return Err(Fault::NoSuchKey);
        }
        let version = versions.next()?;
        self.removals.put(key, version);
        self.newest = version;
        Ok(version)
    }

    /// The text of a key and the version that set it; `None` if it was never set, or was removed since.
    pub fn get(&self, key: StateKey) -> Option<(&StateText, Version)>
        ensures value { option_map (λ s. record { text = Some s.0.now; version = s.1 }) result
            ≡ text_standing (map.get self.now.states key) }
        ensures text { is_some result ≡ spec.has_text key self.now }
    {
        match self.state(key) {
            Some((Some(text), version)) => Some((text, version)),
            _ => None,
        }
    }

    fn has_text(&self, key: StateKey) -> bool
        ensures { result ≡ spec.has_text key self.now }
    {
        self.get(key).is_some()
    }

    /// The text of a key and the version that set it, if it was ever set. A tombstone has no text, and its version is that
    /// of the removal.
    pub fn state(&self, key: StateKey) -> Option<(Option<&StateText>, Version)>
        ensures { option_map (λ s. record { text = option_copied s.0; version = s.1 }) result
            ≡ map.get self.now.states key }
    {
        let Some(state) = self.states.get(key) else {
            return None;
        };
        match self.removals.get(key) {
            Some(version) => Some((None, version)),
            None => Some((state.text.as_ref(), state.version)),
        }
    }

    /// The number of states. The contract also states that the entry is in range.
    pub fn count(&self) -> usize
        ensures value { result ≡ length (map.entries self.now.states) }
        ensures valid { IsEntry self.now }
    {
        self.show();
        self.states.len()
    }

    /// The states, in the order of their keys.
    pub fn by_key(&self) -> BorrowedStates<'_>
        ensures { result ≡ map.entries self.now.states }
    {
        BorrowedStates::under(self.states.by_key(), &self.removals)
    }

    // A block of the states newer than a version, the removals among them. Without such a state it takes no memory.
    fn newer_block(&self, alloc: Global, above: u32) -> Result<Block, AllocError>
        ensures value { IfOk result (λ b. b ≡ newer_than above self.now.states) }
        ensures bare { newer_than above self.now.states ≡ map.empty → IsOk result }
    {
        let states = self.by_key();
        let mut block = Block::empty(alloc);
        for number in 0..states.len() {
            let (_key, _text, version) = states.at(number);
            if above < version.get() {
                block.push(states.copy_at(number)?)?;
            }
        }
        Ok(block)
    }

    // The states newer than a version.
    fn newer(&self, alloc: Global, above: u32) -> Result<Held, AllocError>
        ensures value { IfOk result (λ h. h ≡ newer_than above self.now.states) }
        ensures bare { newer_than above self.now.states ≡ map.empty → IsOk result }
    {
        if self.removals.is_none() {
            return self.states.newer_than(alloc, above);
        }
        Held::of_any(alloc, self.newer_block(alloc, above)?)
    }

    // All states, the removals among them, in a block of their own.
    fn settled(&self, alloc: Global) -> Result<Standing, AllocError>
        ensures { IfOk result (λ s. s ≡ self.now.states) }
    {
        self.show();
        let block = self.newer_block(alloc, 0)?;
        Standing::of(alloc, block)
    }

    // The states with another one put, in place of one with its key, in a block of their own. Their texts are copied into one buffer,
    // so that no older one is kept for one of them.
    fn with(&self, state: State) -> Result<Standing, AllocError>
        ensures { IfOk result (λ s. s ≡ map.insert self.now.states state.key (value_at_key state)) }
    {
        let alloc = self.states.allocator();
        if self.removals.is_none() {
            return Standing::spelled(alloc, self.states.with(alloc, state)?);
        }
        Standing::spelled(alloc, self.settled(alloc)?.with(alloc, state)?)
    }

    // The states with those of a delta over them.
    fn overlaid(&self, alloc: Global, newer: &Held) -> Result<Standing, AllocError>
        ensures { IfOk result (λ s. s ≡ overlay self.now.states newer.now) }
    {
        if self.removals.is_none() {
            return self.states.overlay(alloc, newer);
        }
        self.settled(alloc)?.overlay(alloc, newer)
    }

    fn has_same_states(&self, other: &Entry) -> bool
        ensures { IsTrue result ↔ (self.now.states ≡ other.now.states) }
    {
        self.by_key().are_same(&other.by_key())
    }

    // The entry with a delta of its generation, which brings a version newer than all of the entry's.
    fn advance(&self, alloc: Global, delta: &Delta, brought: Version) -> Result<Entry, AllocError>
        requires newest { brought ≡ greatest delta.now.heartbeat delta.now.states }
        requires newer { newest self.now < brought }
        ensures { IfOk result (λ e. e ≡ advanced_entry self.now delta.now) }
    {
        let states = self.overlaid(alloc, delta.held())?;
        Ok(Entry {
            states,
            generation: self.generation,
            heartbeat: delta.heartbeat(),
            newest: brought,
            removals: Removals::none(),
        })
    }

    /// Meets a delta about this endpoint with the entry, which stays unchanged, and returns the outcome. It shares and
    /// refuses as `meet` does.
    pub fn absorb(&self, alloc: Global, delta: &Delta) -> Result<Absorbed, AllocError>
        ensures value { IfOk result (λ a. a ≡ absorption self.now delta.now) }
        ensures each { IfOk result (λ a. IfTaken a (IsTakenEntry (Some self.now) delta.now)) }
        ensures refused { IfErr result (λ _. is_taken (absorption self.now delta.now) ≡ true) }
    {
        meet(alloc, Some(self), delta)
    }

    /// The entry's generation: the number of the endpoint's start that it belongs to.
    pub fn generation(&self) -> Generation
        ensures { result ≡ self.now.generation }
    {
        self.generation
    }

    /// The version of the last beat, or of the start.
    pub fn heartbeat(&self) -> Version
        ensures { result ≡ self.now.heartbeat }
    {
        self.heartbeat
    }

    /// The greatest version in the entry.
    pub fn newest(&self) -> Version
        ensures { result ≡ newest self.now }
    {
        self.newest
    }

    /// Tests whether both are the same entry: in generation, heartbeat version and states.
    pub fn is_same(&self, other: &Entry) -> bool
        ensures { IsTrue result ↔ (self.now ≡ other.now) }
    {
        other.generation == self.generation
            && self.heartbeat == other.heartbeat
            && self.has_same_states(other)
    }

    /// Tests whether the entry is later than another of this endpoint: of a greater generation, or of the same one with
    /// a greater newest version.
    pub fn is_later(&self, other: &Entry) -> bool
        ensures { result ≡ spec.is_later self.now other.now }
    {
        other.generation < self.generation
            || (self.generation == other.generation && other.newest() < self.newest())
    }

    /// Returns the delta that a holder of this generation at version `above` lacks; 0 represents a holder of nothing.
    /// `None` if it lacks nothing. If it lacks all states, and no removal is beside their block, the delta shares that;
    /// else `AllocError` if a block of newer states finds no memory.
    pub fn above(&self, alloc: Global, above: u32) -> Result<Option<Delta>, AllocError>
        ensures value { IfOk result (λ d. d ≡ delta_above above self.now) }
        ensures none { delta_above above self.now ≡ None → result ≡ Ok None }
        // Without a newer state it takes no memory.
        ensures bare { newer_than above self.now.states ≡ map.empty → IsOk result }
    {
        if self.newest().get() <= above {
            return Ok(None);
        }
        Ok(Some(self.part_above(alloc, above)?))
    }

    // The part of the entry above a version that is less than its newest.
    pub(crate) fn part_above(&self, alloc: Global, above: u32) -> Result<Delta, AllocError>
        requires range { IsVersionHeld above }
        requires newer { above < newest self.now }
        ensures value { IfOk result (λ d. d ≡ part_above above self.now) }
        ensures bare { newer_than above self.now.states ≡ map.empty → IsOk result }
    {
        let states = self.newer(alloc, above)?;
        Ok(Delta::of_parts(self.generation, above, self.heartbeat, states))
    }

    /// The same delta as `above` returns, where the entry keeps it: it takes no memory.
    pub fn borrowed_above(&self, above: u32) -> Option<BorrowedDelta<'_>>
        ensures { result ≡ delta_above above self.now }
    {
        if self.newest().get() <= above {
            return None;
        }
        Some(BorrowedDelta::of(self, above))
    }

    // Which part of the states is newer than a version.
    fn newer_part(&self, above: u32) -> Part<'_>
        ensures { IsPart above self.now.states result }
    {
        if self.removals.is_none() {
            return self.states.newer_part(above);
        }
        Part::Some
    }

    // Spells the states that are newer than a version, one by one, behind the head of their delta.
    fn put_some(&self, out: &mut Vec<u8>, head: Head) -> Result<(), AllocError>
        ensures { OnOk result (out.new.items ≡ out.old.items ++ section_spec.delta_headed head (newer_than head.above self.now.states)) }
    {
        self.show();
        let above = head.above;
        let states = self.by_key();
        put_head(out, head, states.newer_count(above))?;
        states.put_newer(out, above)?;
        Ok(())
    }

    // Spells the part of the entry above a version, as a delta about an owner.
    pub(crate) fn put_above(
        &self,
        owner: Endpoint,
        above: u32,
        out: &mut Vec<u8>,
    ) -> Result<(), AllocError>
        ensures { OnOk result (out.new.items ≡ out.old.items ++ section_spec.delta_about owner (part_above above self.now)) }
    {
        let head = Head {
            endpoint: owner,
            generation: self.generation,
            above,
            heartbeat: self.heartbeat,
        };
        match self.newer_part(above) {
            Part::Nothing => put_head(out, head, 0)?,
            Part::Each(section) => {
                put_head(out, head, self.count())?;
                out.extend_from_slice(section)?;
            }
            Part::Last(state) => {
                put_head(out, head, 1)?;
                put_state(out, state.key, state.text.as_ref(), state.version)?;
            }
            Part::Some => self.put_some(out, head)?,
        }
        Ok(())
    }

    /// The same entry, which shares its block of states. It is refused as `StateText::copy` is.
    pub fn copy(&self, alloc: Global) -> Result<Entry, AllocError>
        ensures { IfOk result (λ e. e ≡ self.now) }
    {
        Ok(Entry {
            states: self.states.copy(alloc)?,
            generation: self.generation,
            heartbeat: self.heartbeat,
            newest: self.newest,
            removals: self.removals.copy(),
        })
    }
}
