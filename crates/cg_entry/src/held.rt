//! The states of a delta: in a block that copies share, or in the list that a delta was made of.

ghost use Rattle.std.specs.Prelude.{◌≡◌, ◌↔◌, ◌++◌, IsTrue, IfOk, IfSome, IsOk, OnOk, option_copied};
ghost use Rattle.std.specs.List.{flat_map};
ghost use Rattle.std.specs.FinMap as map;
ghost use Rattle.cg_entry.specs.Entry as entry_spec;
ghost use Rattle.cg_entry.specs.Entry.{greatest, overlay};
ghost use Rattle.cg_entry.specs.State.{value_at_key};
ghost use Rattle.cg_entry.specs.Block.{put_all};
ghost use Rattle.cg_entry.specs.Section as section_spec;
ghost use Rattle.cg_entry.specs.Versioned as versioned_spec;
ghost use Rattle.cg_entry.specs.Contents.{AreStates};
ghost use Rattle.std.specs.Option.{option_map};
ghost use Rattle.std.specs.Arc.{arc_value};

use crate::block::Block;
use crate::by_key::ByKey;
use crate::spelled::{Spelled, put_states};
use crate::standing::Standing;
use crate::state::State;
use crate::states::States;
use cg_types::{Shows, StateKey, Version};
use std::alloc::{AllocError, Global};
use std::marker::Model;
use std::ops::Deref;
use std::sync::Arc;

// A list that nothing has shared yet is its holder's own; if it is empty, it takes no memory.
#[derive(Debug, Drop)]
enum Kept {
    Own(States),
    Shared(Arc<Spelled, Global>),
}

#[derive(Debug, Drop)]
pub(crate) struct Held {
    kept: Kept,
}

impl Model for Held {
    ghost use Rattle.std.specs.Ordering.{nat_cmp};
    ghost use Rattle.std.specs.FinMap as map;
    ghost use Rattle.cg_entry.specs.Versioned.{Versioned, states_code};
    ghost use Rattle.cg_entry.specs.Held.{held_states};

    ghost Value = { map.FinMap nat_cmp Versioned };

    ghost coded = { states_code };

    ghost view = { λ h. held_states h.kept };
}

impl Shows for Held {
    ghost use Rattle.cg_entry.specs.Contents.{AreStates};

    ghost Shown = { AreStates };

    #[inline(always)]
    fn show(&self) {
        match &self.kept {
            Kept::Own(states) => states.show(),
            Kept::Shared(block) => block.deref().block().show(),
        }
    }
}

fn is_same_state(ours: &State, theirs: &State) -> bool
    ensures { IsTrue result ↔ (ours.now ≡ theirs.now) }
{
    ours == theirs
}

impl Held {
    pub(crate) fn own(states: States) -> Held
        ensures { result ≡ states }
    {
        Held {
            kept: Kept::Own(states),
        }
    }

    pub(crate) fn none(alloc: Global) -> Held
        ensures { result ≡ map.empty }
    {
        Held::own(States::empty(alloc))
    }

    // The states of a block, which is shared.
    pub(crate) fn sharing(block: Arc<Spelled, Global>) -> Held
        ensures { result ≡ arc_value block }
    {
        Held {
            kept: Kept::Shared(block),
        }
    }

    pub(crate) fn of(alloc: Global, block: Block) -> Result<Held, AllocError>
        ensures { IfOk result (λ h. h ≡ block) }
    {
        Ok(Held::sharing(Arc::new(alloc, Spelled::plain(block))?))
    }

    // The same, but a block without states takes no memory.
    pub(crate) fn of_any(alloc: Global, block: Block) -> Result<Held, AllocError>
        ensures value { IfOk result (λ h. h ≡ block) }
        ensures bare { block ≡ map.empty → IsOk result }
    {
        if block.len() == 0 {
            return Ok(Held::none(alloc));
        }
        Held::of(alloc, block)
    }

    // The number of states.
    pub(crate) fn len(&self) -> usize
        ensures { result ≡ map.len self.now }
    {
        match &self.kept {
            Kept::Own(states) => states.len(),
            Kept::Shared(block) => block.deref().block().len(),
        }
    }

    // The states in the order of the keys.
    pub(crate) fn by_key(&self) -> ByKey<'_>
        ensures { result ≡ map.entries self.now }
    {
        match &self.kept {
            Kept::Own(states) => states.by_key(),
            Kept::Shared(block) => block.deref().block().by_key(),
        }
    }

    // The state of a key, if there is one.
    pub(crate) fn get(&self, key: StateKey) -> Option<&State>
        ensures value { option_map value_at_key (option_copied result) ≡ map.get self.now key }
        ensures key { IfSome result (λ s. s.now.key ≡ key) }
    {
        match &self.kept {
            Kept::Own(states) => states.get(key),
            Kept::Shared(block) => block.deref().block().get(key),
        }
    }

    // The greatest of the heartbeat and the versions of the states.
    pub(crate) fn greatest(&self, heartbeat: Version) -> Version
        ensures { result ≡ greatest heartbeat self.now }
    {
        match &self.kept {
            Kept::Own(states) => states.greatest(heartbeat),
            Kept::Shared(block) => block.deref().block().greatest(heartbeat),
        }
    }

    // The number of bytes of the texts.
    pub(crate) fn text_bytes(&self) -> usize
        ensures { result ≡ entry_spec.text_bytes self.now }
    {
        match &self.kept {
            Kept::Own(states) => states.text_bytes(),
            Kept::Shared(block) => block.deref().block().text_bytes(),
        }
    }

    // Tests whether there is no state.
    pub(crate) fn is_empty(&self) -> bool
        ensures { IsTrue result ↔ (self.now ≡ map.empty) }
    {
        self.len() == 0
    }

    // Tests whether both hold the same states.
    pub(crate) fn is_same(&self, other: &Held) -> bool
        ensures { IsTrue result ↔ (self.now ≡ other.now) }
    {
        if self.len() != other.len() {
            return false;
        }
        let (ours, theirs) = (self.by_key(), other.by_key());
        for place in 0..ours.len() {
            if !is_same_state(ours.at(place), theirs.at(place)) {
                return false;
            }
        }
        true
    }

    // The same states as those of an entry: the block is shared if there is one, and a list is copied into a block. One
    // that is empty takes no memory.
    pub(crate) fn standing(&self, alloc: Global) -> Result<Standing, AllocError>
        ensures { IfOk result (λ s. s ≡ self.now) }
    {
        if self.is_empty() {
            return Ok(Standing::none(alloc));
        }
        match &self.kept {
            Kept::Own(states) => Standing::spelled(alloc, states.block(alloc)?),
            Kept::Shared(block) => Ok(Standing::sharing(alloc, Arc::try_clone(block)?)),
        }
    }

    // Shares the block if there is one; an own list that is empty takes no memory.
    pub(crate) fn copy(&self, alloc: Global) -> Result<Held, AllocError>
        ensures { IfOk result (λ h. h ≡ self.now) }
    {
        Ok(self.standing(alloc)?.into_held())
    }

    // The same states in a block that copies share; one that is empty takes no memory.
    pub(crate) fn shared(self, alloc: Global) -> Result<Held, AllocError>
        ensures value { IfOk result (λ h. h ≡ self) }
        ensures bare { self ≡ map.empty → IsOk result }
    {
        if self.is_empty() {
            return Ok(self);
        }
        match self.kept {
            Kept::Own(states) => {
                let block = Spelled::of(alloc, states.into_block(alloc)?)?;
                Ok(Held::sharing(Arc::new(alloc, block)?))
            }
            Kept::Shared(block) => Ok(Held::sharing(block)),
        }
    }

    // The states, in the order that they are kept in. Put one after the other, they are laid over others.
    pub(crate) fn as_slice(&self) -> &[State]
        ensures { (old : versioned_spec.States) → put_all result.now old ≡ overlay old self.now }
    {
        match &self.kept {
            Kept::Own(states) => states.as_slice(),
            Kept::Shared(block) => block.deref().block().as_slice(),
        }
    }

    // The same states in a block that copies share, beside what is known to spell them. One that is empty takes no
    // memory.
    pub(crate) fn shared_in(
        self,
        alloc: Global,
        section: Arc<Vec<u8>, Global>,
    ) -> Result<Held, AllocError>
        requires { (arc_value section).items ≡ flat_map section_spec.state (map.entries self) }
        ensures { IfOk result (λ h. h ≡ self) }
    {
        if self.is_empty() {
            return Ok(self);
        }
        match self.kept {
            Kept::Own(states) => {
                let block = Spelled::beside(states.into_block(alloc)?, section);
                Ok(Held::sharing(Arc::new(alloc, block)?))
            }
            Kept::Shared(block) => Ok(Held::sharing(block)),
        }
    }

    // Spells the states, in the order of the keys: those of a block at once.
    pub(crate) fn put_states(&self, out: &mut Vec<u8>) -> Result<(), AllocError>
        ensures { OnOk result (out.new.items ≡ out.old.items ++ flat_map section_spec.state (map.entries self.now)) }
    {
        match &self.kept {
            Kept::Own(states) => put_states(out, &states.by_key()),
            Kept::Shared(block) => block.deref().put(out),
        }
    }
}
