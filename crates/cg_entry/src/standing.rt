//! The states of an entry: none, or a block that copies share.

ghost use Rattle.std.specs.Prelude.{◌≡◌, IsTrue, IfOk, IfSome, IsOk, option_copied};
ghost use Rattle.std.specs.FinMap as map;
ghost use Rattle.std.specs.Option.{option_map};
ghost use Rattle.std.specs.Arc.{arc_value};
ghost use Rattle.cg_entry.specs.Contents.{AreStates};
ghost use Rattle.cg_entry.specs.Entry.{greatest, newer_than, overlay};
ghost use Rattle.cg_entry.specs.Part.{IsPart};
ghost use Rattle.cg_entry.specs.State.{value_at_key};

use crate::block::{Block, Newer};
use crate::by_key::ByKey;
use crate::held::Held;
use crate::part::Part;
use crate::spelled::Spelled;
use crate::state::State;
use crate::states::States;
use cg_types::{STATE_LIMIT, Shows, StateKey, Version};
use std::alloc::{AllocError, Global};
use std::marker::Model;
use std::ops::Deref;
use std::sync::Arc;

// An entry never has a list of its own, so that its states take the room of one pointer. No state takes no memory.
#[derive(Debug, Drop)]
enum Kept {
    Bare,
    Shared(Arc<Spelled, Global>),
}

#[derive(Debug, Drop)]
pub(crate) struct Standing {
    kept: Kept,
    alloc: Global,
}

impl Model for Standing {
    ghost use Rattle.std.specs.Ordering.{nat_cmp};
    ghost use Rattle.std.specs.FinMap as map;
    ghost use Rattle.cg_entry.specs.Versioned.{Versioned, states_code};
    ghost use Rattle.cg_entry.specs.Standing.{standing_states};

    ghost Value = { map.FinMap nat_cmp Versioned };

    ghost coded = { states_code };

    ghost view = { λ s. standing_states s.kept };
}

impl Shows for Standing {
    ghost use Rattle.cg_entry.specs.Contents.{AreStates};

    ghost Shown = { AreStates };

    #[inline(always)]
    fn show(&self) {
        match &self.kept {
            Kept::Bare => {}
            Kept::Shared(block) => block.deref().block().show(),
        }
    }
}

fn newer_of_block(
    alloc: Global,
    block: &Arc<Spelled, Global>,
    above: u32,
) -> Result<Held, AllocError>
    ensures value { IfOk result (λ h. h ≡ newer_than above (arc_value block.now)) }
    ensures bare { newer_than above (arc_value block.now) ≡ map.empty → IsOk result }
{
    match block.deref().block().newer(alloc, above)? {
        Newer::Nothing => Ok(Held::none(alloc)),
        Newer::Each => Ok(Held::sharing(Arc::try_clone(block)?)),
        Newer::Part(newer) => Held::of(alloc, newer),
    }
}

impl Standing {
    // `alloc` is kept for what is set later.
    pub(crate) fn none(alloc: Global) -> Standing
        ensures { result ≡ map.empty }
    {
        Standing {
            kept: Kept::Bare,
            alloc,
        }
    }

    // The states of a block, which is shared.
    pub(crate) fn sharing(alloc: Global, block: Arc<Spelled, Global>) -> Standing
        ensures { result ≡ arc_value block }
    {
        Standing {
            kept: Kept::Shared(block),
            alloc,
        }
    }

    pub(crate) fn of(alloc: Global, block: Block) -> Result<Standing, AllocError>
        ensures { IfOk result (λ s. s ≡ block) }
    {
        Ok(Standing::sharing(alloc, Arc::new(alloc, Spelled::plain(block))?))
    }

    // The same, whose texts become parts of a section.
    pub(crate) fn spelled(alloc: Global, block: Block) -> Result<Standing, AllocError>
        ensures { IfOk result (λ s. s ≡ block) }
    {
        Ok(Standing::sharing(alloc, Arc::new(alloc, Spelled::of(alloc, block)?)?))
    }

    pub(crate) fn allocator(&self) -> Global {
        self.alloc
    }

    // The number of states.
    pub(crate) fn len(&self) -> usize
        ensures { result ≡ map.len self.now }
    {
        match &self.kept {
            Kept::Bare => 0,
            Kept::Shared(block) => block.deref().block().len(),
        }
    }

    // The states in the order of the keys.
    pub(crate) fn by_key(&self) -> ByKey<'_>
        ensures { result ≡ map.entries self.now }
    {
        match &self.kept {
            Kept::Bare => ByKey::listed(&[]),
            Kept::Shared(block) => block.deref().block().by_key(),
        }
    }

    // The state of a key, if there is one.
    pub(crate) fn get(&self, key: StateKey) -> Option<&State>
        ensures value { option_map value_at_key (option_copied result) ≡ map.get self.now key }
        ensures key { IfSome result (λ s. s.now.key ≡ key) }
    {
        match &self.kept {
            Kept::Bare => None,
            Kept::Shared(block) => block.deref().block().get(key),
        }
    }

    // The greatest of the heartbeat and the versions of the states.
    pub(crate) fn greatest(&self, heartbeat: Version) -> Version
        ensures { result ≡ greatest heartbeat self.now }
    {
        match &self.kept {
            Kept::Bare => heartbeat,
            Kept::Shared(block) => block.deref().block().greatest(heartbeat),
        }
    }

    // Shares the block if there is one.
    pub(crate) fn copy(&self, alloc: Global) -> Result<Standing, AllocError>
        ensures { IfOk result (λ s. s ≡ self.now) }
    {
        match &self.kept {
            Kept::Bare => Ok(Standing::none(alloc)),
            Kept::Shared(block) => Ok(Standing::sharing(alloc, Arc::try_clone(block)?)),
        }
    }

    // The same as the states of a delta.
    pub(crate) fn into_held(self) -> Held
        ensures { result ≡ self }
    {
        match self.kept {
            Kept::Bare => Held::none(self.alloc),
            Kept::Shared(block) => Held::sharing(block),
        }
    }

    // The state of a key in `newer`, or else in these.
    fn shown<'a>(&'a self, newer: &'a Held, key: StateKey) -> Option<&'a State>
        ensures value { option_map value_at_key (option_copied result) ≡ map.get (overlay self.now newer.now) key }
        ensures key { IfSome result (λ s. s.now.key ≡ key) }
    {
        match newer.get(key) {
            Some(state) => Some(state),
            None => self.get(key),
        }
    }

    // A new block of `newer`, and at every other key of these, by a walk over the keys: for states in any order.
    fn laid_under(&self, alloc: Global, newer: &Held) -> Result<Block, AllocError>
        ensures { IfOk result (λ b. b ≡ overlay self.now newer.now) }
    {
        self.show();
        newer.show();
        let mut block = Block::with_room(
            alloc,
            self.len()
                .saturating_add(newer.len())
                .min(usize::from(STATE_LIMIT)),
        )?;
        for number in 0..17 {
            match StateKey::new(number) {
                Some(key) => match self.shown(newer, key) {
                    Some(state) => block.push(state.copy()?)?,
                    None => {}
                },
                None => {}
            }
        }
        Ok(block)
    }

    // A block of these with a state put: copied, if the state is newer than each.
    pub(crate) fn with(&self, alloc: Global, state: State) -> Result<Block, AllocError>
        ensures { IfOk result (λ b. b ≡ map.insert self.now state.key (value_at_key state)) }
    {
        match &self.kept {
            Kept::Bare => return Block::with_room(alloc, 1)?.put_newest(state),
            Kept::Shared(block) => {
                if block.deref().block().is_older(state.version) {
                    return block.deref().block().with_newest(alloc, state, 1);
                }
            }
        }
        let one = Held::own(States::one(alloc, state)?);
        self.laid_under(alloc, &one)
    }

    // A copied block of these with each of `newer` put. `None` if one is not newer than all before it, or if there is
    // no block.
    fn with_all(&self, alloc: Global, newer: &Held) -> Result<Option<Block>, AllocError>
        ensures { IfOk result (λ o. IfSome o (λ b. b ≡ overlay self.now newer.now)) }
    {
        match &self.kept {
            Kept::Bare => Ok(None),
            Kept::Shared(block) => block.deref().block().with_all(alloc, newer.as_slice()),
        }
    }

    // Tests whether all texts lie in one buffer, that of the section.
    fn keeps_section(&self) -> bool {
        match &self.kept {
            Kept::Bare => true,
            Kept::Shared(block) => block.deref().keeps_section(),
        }
    }

    // A block that follows these. It gets a section if these keep none, so every second overlay copies all texts into one buffer.
    fn followed_by(&self, alloc: Global, block: Block) -> Result<Standing, AllocError>
        ensures { IfOk result (λ s. s ≡ block) }
    {
        if self.keeps_section() {
            return Standing::of(alloc, block);
        }
        Standing::spelled(alloc, block)
    }

    // The same in a new block. If it can, it copies these and puts what is newer.
    fn laid(&self, alloc: Global, newer: &Held) -> Result<Standing, AllocError>
        ensures { IfOk result (λ s. s ≡ overlay self.now newer.now) }
    {
        let block = match self.with_all(alloc, newer)? {
            Some(block) => block,
            None => self.laid_under(alloc, newer)?,
        };
        self.followed_by(alloc, block)
    }

    // The states with a version greater than `above`. If none is, it takes no memory; if each is, the block is shared.
    pub(crate) fn newer_than(&self, alloc: Global, above: u32) -> Result<Held, AllocError>
        ensures value { IfOk result (λ h. h ≡ newer_than above self.now) }
        ensures bare { newer_than above self.now ≡ map.empty → IsOk result }
    {
        match &self.kept {
            Kept::Bare => Ok(Held::none(alloc)),
            Kept::Shared(block) => newer_of_block(alloc, block, above),
        }
    }

    // Which part of the states is newer than a version.
    pub(crate) fn newer_part(&self, above: u32) -> Part<'_>
        ensures { IsPart above self.now result }
    {
        match &self.kept {
            Kept::Bare => Part::Nothing,
            Kept::Shared(block) => block.deref().newer_part(above),
        }
    }

    // Tests whether each key is in `newer`, so that none of these shows beside it.
    fn is_covered(&self, newer: &Held) -> bool
        ensures { IsTrue result → overlay self.now newer.now ≡ newer.now }
    {
        if newer.len() < self.len() {
            return false;
        }
        let states = self.by_key();
        for place in 0..states.len() {
            if newer.get(states.at(place).key).is_none() {
                return false;
            }
        }
        true
    }

    // The same for states of which there is one. It is not inlined, so that a delta without states pays nothing for it.
    #[inline(never)]
    fn overlay_some(&self, alloc: Global, newer: &Held) -> Result<Standing, AllocError>
        ensures { IfOk result (λ s. s ≡ overlay self.now newer.now) }
    {
        if self.is_covered(newer) {
            return newer.standing(alloc);
        }
        self.laid(alloc, newer)
    }

    // Those of `newer`, and at every other key these. If one block shows all of that, it is shared.
    pub(crate) fn overlay(&self, alloc: Global, newer: &Held) -> Result<Standing, AllocError>
        ensures { IfOk result (λ s. s ≡ overlay self.now newer.now) }
    {
        if newer.is_empty() {
            return self.copy(alloc);
        }
        self.overlay_some(alloc, newer)
    }
}
