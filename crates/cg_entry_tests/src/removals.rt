//! Removals: a tombstone takes a text's place, travels as a state, and gives way to a later set.

use cg_entry::{Absorbed, Delta, Entry};
use cg_testing::{bare_delta, delta, entry_at_start, expect_eq, key, state};
use cg_types::{Fault, StateKey, StateText, Version};
use cg_version::Versions;
use std::alloc::Global;
use std::test::Fail;

fn set(entry: &mut Entry, number: u8, text: StateText) -> Result<Version, Fault> {
    let mut versions = Versions::after(entry.newest());
    entry.set(&mut versions, key(number), text)
}

fn remove(entry: &mut Entry, number: u8) -> Result<Version, Fault> {
    let mut versions = Versions::after(entry.newest());
    entry.remove(&mut versions, key(number))
}

// Generation 9 sets key 2 to N (2) and key 1 to NORMAL (3).
fn with_two_keys(alloc: Global) -> Result<Entry, Fail> {
    let mut entry = entry_at_start(alloc, 9);
    set(&mut entry, 2, StateText::new(alloc, "N")?)?;
    set(&mut entry, 1, StateText::new(alloc, "NORMAL")?)?;
    Ok(entry)
}

// It removes key 1 (4).
fn with_key_1_removed(alloc: Global) -> Result<Entry, Fail> {
    let mut entry = with_two_keys(alloc)?;
    remove(&mut entry, 1)?;
    Ok(entry)
}

fn text_at(entry: &Entry, number: u8) -> Option<&str> {
    match entry.get(StateKey::new(number)?) {
        Some((text, _)) => Some(text.as_str()),
        None => None,
    }
}

// The version of a key, and a test that it has a text.
fn state_at(entry: &Entry, number: u8) -> Option<(u32, bool)> {
    match entry.state(StateKey::new(number)?) {
        Some((text, version)) => Some((version.get(), text.is_some())),
        None => None,
    }
}

#[test]
fn a_tombstone_takes_the_place_of_a_text(rt: HostRuntime) -> Result<(), Fail> {
    let entry = with_key_1_removed(rt.alloc())?;
    let texts = (
        text_at(&entry, 1).is_none(),
        text_at(&entry, 2) == Some("N"),
    );
    let states = (
        state_at(&entry, 1),
        state_at(&entry, 2),
        state_at(&entry, 3),
    );
    let shown = (entry.newest().get(), entry.count(), texts, states);
    let wanted = (
        4,
        2,
        (true, true),
        (Some((4, false)), Some((2, true)), None),
    );
    expect_eq!(shown, wanted)
}

// The fault of another removal, and a test that the entry is unchanged.
fn removed_again(alloc: Global, number: u8) -> Result<(Option<Fault>, bool), Fail> {
    let mut entry = with_key_1_removed(alloc)?;
    let fault = remove(&mut entry, number).err();
    let before = with_key_1_removed(alloc)?;
    Ok((fault, entry.is_same(&before)))
}

#[test]
fn only_a_text_is_removed(rt: HostRuntime) -> Result<(), Fail> {
    for number in [1, 3] {
        expect_eq!(
            removed_again(rt.alloc(), number)?,
            (Some(Fault::NoSuchKey), true)
        )?;
    }
    Ok(())
}

// The text and version of key 1 once it is set anew, and the version of key 2.
fn set_anew(alloc: Global) -> Result<(bool, Option<(u32, bool)>, Option<(u32, bool)>), Fail> {
    let mut entry = with_key_1_removed(alloc)?;
    set(&mut entry, 1, StateText::new(alloc, "LEFT")?)?;
    Ok((
        text_at(&entry, 1) == Some("LEFT"),
        state_at(&entry, 1),
        state_at(&entry, 2),
    ))
}

#[test]
fn a_later_set_takes_the_place_of_a_tombstone(rt: HostRuntime) -> Result<(), Fail> {
    expect_eq!(
        set_anew(rt.alloc())?,
        (true, Some((5, true)), Some((2, true)))
    )
}

// The number of states in a delta, key 1 of the entry that takes it, and a test that this is the owner's entry.
type Travelled = (usize, Option<(u32, bool)>, bool);

// The owner's delta above the version before the removal, at a holder of that version.
fn travelled(alloc: Global) -> Result<Option<Travelled>, Fail> {
    let owner = with_key_1_removed(alloc)?;
    let holder = with_two_keys(alloc)?;
    let Some(delta) = owner.above(alloc, holder.newest().get())? else {
        return Ok(None);
    };
    match holder.absorb(alloc, &delta)? {
        Absorbed::Taken(entry) => Ok(Some((
            delta.count(),
            state_at(&entry, 1),
            entry.is_same(&owner),
        ))),
        _ => Ok(None),
    }
}

#[test]
fn a_tombstone_travels_as_a_state(rt: HostRuntime) -> Result<(), Fail> {
    expect_eq!(travelled(rt.alloc())?, Some((1, Some((4, false)), true)))
}

// ---- removals beside the states of an entry

// The states of keys 1, 2 and 3: of each its version, and a test that it has a text.
type States = (
    Option<(u32, bool)>,
    Option<(u32, bool)>,
    Option<(u32, bool)>,
);

fn states_of(entry: &Entry) -> States {
    (state_at(entry, 1), state_at(entry, 2), state_at(entry, 3))
}

// The newest version, the number of states, and those of keys 1, 2 and 3.
fn numbers_of(entry: &Entry) -> (u32, usize, States) {
    (entry.newest().get(), entry.count(), states_of(entry))
}

fn set_another(alloc: Global) -> Result<(u32, usize, States), Fail> {
    let mut entry = with_key_1_removed(alloc)?;
    set(&mut entry, 3, StateText::new(alloc, "x")?)?;
    Ok(numbers_of(&entry))
}

#[test]
fn a_set_of_another_key_keeps_a_tombstone(rt: HostRuntime) -> Result<(), Fail> {
    let states = (Some((4, false)), Some((2, true)), Some((5, true)));
    expect_eq!(set_another(rt.alloc())?, (5, 3, states))
}

// Key 1 is removed (4), then key 2 (5).
fn with_both_removed(alloc: Global) -> Result<Entry, Fail> {
    let mut entry = with_key_1_removed(alloc)?;
    remove(&mut entry, 2)?;
    Ok(entry)
}

#[test]
fn two_texts_are_removed(rt: HostRuntime) -> Result<(), Fail> {
    let entry = with_both_removed(rt.alloc())?;
    let states = (Some((4, false)), Some((5, false)), None);
    expect_eq!(numbers_of(&entry), (5, 2, states))
}

// The number of states in an entry's delta above a version.
fn count_above(alloc: Global, entry: &Entry, version: u32) -> Result<Option<usize>, Fail> {
    match entry.above(alloc, version)? {
        Some(delta) => Ok(Some(delta.count())),
        None => Ok(None),
    }
}

fn both_above(alloc: Global, version: u32) -> Result<Option<usize>, Fail> {
    let entry = with_both_removed(alloc)?;
    count_above(alloc, &entry, version)
}

#[test]
fn tombstones_above_by_version(rt: HostRuntime) -> Result<(), Fail> {
    for (version, count) in [(0, Some(2)), (3, Some(2)), (4, Some(1)), (5, None)] {
        expect_eq!(both_above(rt.alloc(), version)?, count, "{version}")?;
    }
    Ok(())
}

// The whole delta of the owner, at a holder of nothing.
fn carried_whole(alloc: Global) -> Result<Option<Travelled>, Fail> {
    let owner = with_key_1_removed(alloc)?;
    let Some(delta) = owner.above(alloc, 0)? else {
        return Ok(None);
    };
    match Entry::of_delta(alloc, &delta)? {
        Some(entry) => Ok(Some((delta.count(), state_at(&entry, 1), entry.is_same(&owner)))),
        None => Ok(None),
    }
}

#[test]
fn a_whole_delta_carries_a_tombstone(rt: HostRuntime) -> Result<(), Fail> {
    expect_eq!(
        carried_whole(rt.alloc())?,
        Some((2, Some((4, false)), true))
    )
}

// What a delta of generation 9 makes of an entry whose key 1 was removed (4).
fn taken(alloc: Global, delta: &Delta) -> Result<Option<(u32, usize, States)>, Fail> {
    match with_key_1_removed(alloc)?.absorb(alloc, delta)? {
        Absorbed::Taken(entry) => Ok(Some(numbers_of(&entry))),
        Absorbed::Old | Absorbed::Gap => Ok(None),
    }
}

// The same of a delta above 4 with a key at a version.
fn taken_with(alloc: Global, number: u8, at: u32) -> Result<Option<(u32, usize, States)>, Fail> {
    let states = vec![in alloc; state(alloc, number, at, "x")?]?;
    taken(alloc, &delta((9, 4, 1), states)?)
}

// The same of a delta without states.
fn taken_bare(alloc: Global, above: u32, at: u32) -> Result<Option<(u32, usize, States)>, Fail> {
    taken(alloc, &bare_delta(alloc, (9, above, at))?)
}

#[test]
fn an_entry_with_a_removal_takes_deltas(rt: HostRuntime) -> Result<(), Fail> {
    let alloc = rt.alloc();
    let (removed, kept) = (Some((4, false)), Some((2, true)));
    let another = (removed, kept, Some((5, true)));
    expect_eq!(taken_with(alloc, 3, 5)?, Some((5, 3, another)))?;
    let anew = (Some((6, true)), kept, None);
    expect_eq!(taken_with(alloc, 1, 6)?, Some((6, 2, anew)))?;
    let beaten = (removed, kept, None);
    expect_eq!(taken_bare(alloc, 4, 5)?, Some((5, 2, beaten)))
}

// A tombstone's version is the newest: a delta up to it is old, and one above a later version leaves a gap.
#[test]
fn an_entry_is_as_new_as_its_removal(rt: HostRuntime) -> Result<(), Fail> {
    expect_eq!(taken_bare(rt.alloc(), 0, 4)?, None)?;
    expect_eq!(taken_bare(rt.alloc(), 5, 6)?, None)
}

// ---- all keys

// Generation 9 sets each key (2 to 17), then removes each (18 to 33).
fn with_all_removed(alloc: Global) -> Result<Entry, Fail> {
    let mut entry = entry_at_start(alloc, 9);
    for number in 1..17 {
        set(&mut entry, number, StateText::new(alloc, "x")?)?;
    }
    for number in 1..17 {
        remove(&mut entry, number)?;
    }
    Ok(entry)
}

// The number of tombstones, and of texts.
fn counts_of(entry: &Entry) -> (u32, u32) {
    let mut counts = (0u32, 0u32);
    for number in 1..17 {
        match state_at(entry, number) {
            Some((_, false)) => counts.0 = counts.0.saturating_add(1),
            Some((_, true)) => counts.1 = counts.1.saturating_add(1),
            None => {}
        }
    }
    counts
}

// The newest version, the numbers of tombstones and texts, and how many states are above version 17.
type Counted = (u32, (u32, u32), Option<usize>);

fn all_removed(alloc: Global) -> Result<Counted, Fail> {
    let entry = with_all_removed(alloc)?;
    let above = count_above(alloc, &entry, 17)?;
    Ok((entry.newest().get(), counts_of(&entry), above))
}

// The same once key 16 is set anew (34).
fn last_set_anew(alloc: Global) -> Result<Counted, Fail> {
    let mut entry = with_all_removed(alloc)?;
    set(&mut entry, 16, StateText::new(alloc, "x")?)?;
    let above = count_above(alloc, &entry, 17)?;
    Ok((entry.newest().get(), counts_of(&entry), above))
}

#[test]
fn each_key_is_removed(rt: HostRuntime) -> Result<(), Fail> {
    expect_eq!(all_removed(rt.alloc())?, (33, (16, 0), Some(16)))?;
    expect_eq!(last_set_anew(rt.alloc())?, (34, (15, 1), Some(16)))
}

// ---- versions spent

// Generation 9 with key 1 at 2, whose heartbeat has the last version.
fn spent_entry(alloc: Global) -> Result<Option<Entry>, Fail> {
    let states = vec![in alloc; state(alloc, 1, 2, "N")?]?;
    let whole = delta((9, 0, 2147483647), states)?;
    Ok(Entry::of_delta(alloc, &whole)?)
}

// The fault of a removal of a key, the last version then, and a test that the entry is unchanged.
fn removed_when_spent(
    alloc: Global,
    number: u8,
) -> Result<Option<(Option<Fault>, u32, bool)>, Fail> {
    let (Some(mut entry), Some(before)) = (spent_entry(alloc)?, spent_entry(alloc)?) else {
        return Ok(None);
    };
    let mut versions = Versions::after(entry.newest());
    let fault = entry.remove(&mut versions, key(number)).err();
    Ok(Some((fault, versions.last(), entry.is_same(&before))))
}

// That a key has no text is told before that no version is left.
#[test]
fn versions_are_spent(rt: HostRuntime) -> Result<(), Fail> {
    for (number, fault) in [(1, Fault::VersionsSpent), (2, Fault::NoSuchKey)] {
        expect_eq!(
            removed_when_spent(rt.alloc(), number)?,
            Some((Some(fault), 2147483647, true))
        )?;
    }
    Ok(())
}
