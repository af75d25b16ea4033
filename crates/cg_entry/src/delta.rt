//! Deltas: the part of an entry that a message carries.

ghost use Rattle.std.specs.Prelude.{◌≡◌, ◌↔◌, ◌++◌, IsTrue, IfSome, IfOk, IsOk, OnOk, is_some, nat_lt, [], Some, slice_get, length, ◌<◌};
ghost use Rattle.std.specs.Arc.{arc_value};
ghost use Rattle.std.specs.List.{flat_map};
ghost use Rattle.std.specs.FinMap as map;
ghost use Rattle.cg_types.specs.Numbers.{IsVersionHeld};
ghost use Rattle.cg_entry.specs.State as spec;
ghost use Rattle.cg_entry.specs.State.{pair, delta_of_parts, makes_delta, delta_from};
ghost use Rattle.cg_entry.specs.Contents.{IsDeltaOfEntry};
ghost use Rattle.cg_entry.specs.Entry.{greatest, text_bytes, IsDelta};
ghost use Rattle.cg_entry.specs.Section as section_spec;

use crate::by_key::ByKey;
use crate::held::Held;
use crate::spelled::{Head, put_head};
use crate::state::State;
use crate::states::{States, keys_rise};
use cg_types::{Cause, Endpoint, Generation, Shows, Version};
use std::alloc::{AllocError, Global};
use std::marker::Model;
use std::sync::Arc;

/// The part of an entry above a version: its generation, its heartbeat version, and the states with a greater version.
/// It is whole if that version is 0.
#[derive(Debug, Drop)]
pub struct Delta {
    generation: Generation,
    above: u32,
    heartbeat: Version,
    states: Held,
}

impl Model for Delta {
    ghost use Rattle.cg_types.specs.Numbers.{IsVersionHeld};
    ghost use Rattle.cg_entry.specs.Values.{DeltaValue, delta_code};
    ghost use Rattle.cg_entry.specs.Entry.{IsDelta};

    ghost Value = { DeltaValue };

    ghost coded = { delta_code };

    ghost view = { λ d.
        record { generation = d.generation; above = d.above; heartbeat = d.heartbeat; states = d.states } };

    ghost invariant = { λ d. IsVersionHeld d.above × IsDelta d.above d.heartbeat d.states };
}

impl Shows for Delta {
    ghost use Rattle.cg_entry.specs.Contents.{IsDeltaOfEntry};

    ghost Shown = { IsDeltaOfEntry };

    #[inline(always)]
    fn show(&self) {
        self.generation.show();
        self.heartbeat.show();
        self.states.show();
    }
}

fn all_newer(above: u32, items: &[State]) -> bool
    ensures { result ≡ spec.all_newer above items.now }
{
    items.iter().all(|state| state.version.get() > above)
}

impl Delta {
    /// Makes a delta of its parts. `None` unless the keys rise strictly, each state's version is greater than `above`,
    /// and a state is there or the heartbeat is newer than `above`.
    pub fn new(
        generation: Generation,
        above: u32,
        heartbeat: Version,
        states: Vec<State>,
    ) -> Option<Delta>
        ensures when { is_some result ≡ makes_delta above heartbeat states.items }
        ensures value { IfSome result (λ d. d ≡ delta_of_parts generation above heartbeat states.items) }
    {
        Delta::try_new(generation, above, heartbeat, states).ok()
    }

    /// Makes a delta, as `new` does, or returns what is wrong with its parts. That is `Version` if a state is not newer
    /// than `above`, else `Order` if the keys do not rise strictly. Else it is `Empty` if neither a state nor the
    /// heartbeat is newer than `above`.
    pub fn try_new(
        generation: Generation,
        above: u32,
        heartbeat: Version,
        states: Vec<State>,
    ) -> Result<Delta, Cause>
        ensures { result ≡ delta_from generation above heartbeat states.items }
    {
        if !all_newer(above, &states) {
            return Err(Cause::Version);
        }
        if !keys_rise(&states) {
            return Err(Cause::Order);
        }
        let states = States::from_rising(states);
        if states.greatest(heartbeat).get() <= above {
            return Err(Cause::Empty);
        }
        Ok(Delta::of_parts(generation, above, heartbeat, Held::own(states)))
    }

    /// Makes a delta without states. `None` unless the heartbeat version is greater than `above`. `alloc` is kept for
    /// what is made of it later.
    pub fn bare(
        alloc: Global,
        generation: Generation,
        above: u32,
        heartbeat: Version,
    ) -> Option<Delta>
        ensures when { is_some result ≡ nat_lt above heartbeat }
        ensures value { IfSome result (λ d. d ≡ delta_of_parts generation above heartbeat []) }
    {
        if heartbeat.get() <= above {
            return None;
        }
        Some(Delta::of_parts(generation, above, heartbeat, Held::none(alloc)))
    }

    pub(crate) fn of_parts(
        generation: Generation,
        above: u32,
        heartbeat: Version,
        states: Held,
    ) -> Delta
        requires range { IsVersionHeld above }
        requires valid { IsDelta above heartbeat states }
        ensures { result ≡ record { generation = generation; above = above; heartbeat = heartbeat; states = states } }
    {
        Delta {
            generation,
            above,
            heartbeat,
            states,
        }
    }

    /// The generation of the entry that the delta is a part of.
    pub fn generation(&self) -> Generation
        ensures { result ≡ self.now.generation }
    {
        self.generation
    }

    /// The version that its receiver has to hold already, or 0 if it carries the whole entry.
    pub fn above(&self) -> u32
        ensures value { result ≡ self.now.above }
        ensures range { IsVersionHeld result }
        ensures valid { IsDelta self.now.above self.now.heartbeat self.now.states }
    {
        self.above
    }

    /// The heartbeat version of the delta's entry.
    pub fn heartbeat(&self) -> Version
        ensures { result ≡ self.now.heartbeat }
    {
        self.heartbeat
    }

    /// The greatest version that the delta carries.
    pub fn newest(&self) -> Version
        ensures { result ≡ greatest self.now.heartbeat self.now.states }
    {
        self.states.greatest(self.heartbeat)
    }

    /// The same delta, whose block of states its copies, and the entries that take it, will share. Without states it
    /// takes no memory; `AllocError` if a block finds none.
    pub fn shared(self, alloc: Global) -> Result<Delta, AllocError>
        ensures value { IfOk result (λ d. d ≡ self) }
        ensures bare { self.states ≡ map.empty → IsOk result }
    {
        let states = self.states.shared(alloc)?;
        Ok(Delta::of_parts(self.generation, self.above, self.heartbeat, states))
    }

    /// The same delta, as `shared` makes it, of whose states it is known what spells them: its block keeps that. If the
    /// texts are parts of it, no more is kept.
    pub fn shared_in(
        self,
        alloc: Global,
        section: Arc<Vec<u8>, Global>,
    ) -> Result<Delta, AllocError>
        requires { (arc_value section).items ≡ flat_map section_spec.state (map.entries self.states) }
        ensures { IfOk result (λ d. d ≡ self) }
    {
        let states = self.states.shared_in(alloc, section)?;
        Ok(Delta::of_parts(self.generation, self.above, self.heartbeat, states))
    }

    /// Appends what spells the delta about an owner in a frame: the owner, the generation, both versions, the number of
    /// states, and the states in the order of their keys. After `AllocError` a part of it may be there.
    pub fn put(&self, owner: Endpoint, out: &mut Vec<u8>) -> Result<(), AllocError>
        ensures { OnOk result (out.new.items ≡ out.old.items ++ section_spec.delta_about owner self.now) }
    {
        let head = Head {
            endpoint: owner,
            generation: self.generation,
            above: self.above,
            heartbeat: self.heartbeat,
        };
        put_head(out, head, self.count())?;
        self.states.put_states(out)
    }

    /// The number of bytes of its states' texts, which their list keeps.
    pub fn text_bytes(&self) -> usize
        ensures { result ≡ text_bytes self.now.states }
    {
        self.states.text_bytes()
    }

    pub(crate) fn held(&self) -> &Held
        ensures { result.now ≡ self.now.states }
    {
        &self.states
    }

    /// The number of states. The contract also states that the delta is in range.
    pub fn count(&self) -> usize
        ensures value { result ≡ length (map.entries self.now.states) }
        ensures valid { IsDeltaOfEntry self.now }
    {
        self.show();
        self.states.len()
    }

    /// The states, in the order of their keys.
    pub fn by_key(&self) -> ByKey<'_>
        ensures { result ≡ map.entries self.now.states }
    {
        self.states.by_key()
    }

    /// Tests whether both are the same delta: in generation, the version that it is above, heartbeat version and
    /// states.
    pub fn is_same(&self, other: &Delta) -> bool
        ensures { IsTrue result ↔ (self.now ≡ other.now) }
    {
        other.generation == self.generation
            && self.above == other.above
            && self.heartbeat == other.heartbeat
            && self.states.is_same(&other.states)
    }

    /// The same delta, which shares the block of states or at least their texts. A list that was given to `new` or
    /// `try_new` is not shared. Then the copy shares the texts alone, and `AllocError` comes if a new list finds no
    /// memory.
    pub fn copy(&self, alloc: Global) -> Result<Delta, AllocError>
        ensures { IfOk result (λ d. d ≡ self.now) }
    {
        Ok(Delta {
            generation: self.generation,
            above: self.above,
            heartbeat: self.heartbeat,
            states: self.states.copy(alloc)?,
        })
    }
}
