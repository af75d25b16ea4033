//! Entries and deltas: entries after starts, beats and sets, their parts above a version, and deltas that are taken or
//! not.

use cg_entry::{Absorbed, Delta, Entry, State, meet};
use cg_testing::{
    bare_delta, bare_entry, delta, entry_at_start, expect, expect_eq, generation, key, state,
    version,
};
use cg_types::{Cause, Fault, StateKey, StateText};
use cg_version::Versions;
use std::alloc::Global;
use std::test::Fail;

// ---- states and deltas

// The text of a state; none of a tombstone.
fn text_of(text: Option<&StateText>) -> Option<&str> {
    match text {
        Some(text) => Some(text.as_str()),
        None => None,
    }
}

fn parts_of_state(state: &State) -> (u8, u32, Option<&str>) {
    let text = text_of(state.text.as_ref());
    (state.key.get(), state.version.get(), text)
}

#[test]
fn a_state_is_copied(rt: HostRuntime) -> Result<(), Fail> {
    let copy = state(rt.alloc(), 2, 4, "N")?.copy()?;
    expect_eq!(parts_of_state(&copy), (2, 4, Some("N")))
}

fn one_state(alloc: Global, key: u8, at: u32) -> Result<Vec<State>, Fail> {
    Ok(vec![in alloc; state(alloc, key, at, "N")?]?)
}

// Two states, each with its key and its version.
fn two_states(alloc: Global, first: (u8, u32), second: (u8, u32)) -> Result<Vec<State>, Fail> {
    let mut states = one_state(alloc, first.0, first.1)?;
    states.push(state(alloc, second.0, second.1, "N")?)?;
    Ok(states)
}

// A delta of generation 9 with key 2 at 4.
fn delta_with_key_2(alloc: Global, above: u32, heartbeat: u32) -> Result<Delta, Fail> {
    delta((9, above, heartbeat), one_state(alloc, 2, 4)?)
}

// The generation, the version that it is above, the heartbeat version, the newest version, and the number of states.
type Parts = (u32, u32, u32, u32, usize);

fn parts_of(delta: &Delta) -> Parts {
    (
        delta.generation().get(),
        delta.above(),
        delta.heartbeat().get(),
        delta.newest().get(),
        delta.count(),
    )
}

#[test]
fn a_delta_has_its_parts(rt: HostRuntime) -> Result<(), Fail> {
    let states = two_states(rt.alloc(), (2, 4), (3, 6))?;
    let copy = delta((9, 2, 5), states)?.copy(rt.alloc())?;
    expect_eq!(parts_of(&copy), (9, 2, 5, 6, 2))
}

#[test]
fn a_shared_delta_is_the_same(rt: HostRuntime) -> Result<(), Fail> {
    let shared = delta_with_key_2(rt.alloc(), 2, 5)?.shared(rt.alloc())?;
    expect_eq!(parts_of(&shared), (9, 2, 5, 5, 1))
}

// The bytes of two texts, with a letter of one byte and one of two.
fn bytes_of_two_texts(alloc: Global) -> Result<usize, Fail> {
    let mut states = one_state(alloc, 2, 4)?;
    states.push(state(alloc, 3, 6, "é")?)?;
    let delta = delta((9, 2, 5), states)?;
    Ok(delta.text_bytes())
}

#[test]
fn texts_are_counted_in_bytes(rt: HostRuntime) -> Result<(), Fail> {
    expect_eq!(bytes_of_two_texts(rt.alloc())?, 3)
}

// Tests whether these states make a delta above version 2.
fn makes_a_delta(heartbeat: u32, states: Vec<State>) -> Result<bool, Fail> {
    Ok(Delta::new(generation(9), 2, version(heartbeat), states).is_some())
}

fn two_make_a_delta(alloc: Global, first: (u8, u32), second: (u8, u32)) -> Result<bool, Fail> {
    let states = two_states(alloc, first, second)?;
    makes_a_delta(1, states)
}

#[test]
fn states_of_a_delta_rise_and_are_newer(rt: HostRuntime) -> Result<(), Fail> {
    let alloc = rt.alloc();
    expect!(two_make_a_delta(alloc, (1, 4), (2, 3))?)?;
    expect!(!two_make_a_delta(alloc, (2, 4), (1, 3))?)?;
    expect!(!two_make_a_delta(alloc, (1, 4), (1, 3))?)?;
    expect!(!two_make_a_delta(alloc, (1, 4), (2, 2))?)
}

// The reason why these states make no delta above version 2, if they make none.
fn cause_of(states: Vec<State>) -> Option<Cause> {
    Delta::try_new(generation(9), 2, version(1), states).err()
}

fn cause_of_two(alloc: Global, first: (u8, u32), second: (u8, u32)) -> Result<Option<Cause>, Fail> {
    let states = two_states(alloc, first, second)?;
    Ok(cause_of(states))
}

#[test]
fn what_makes_no_delta_is_told(rt: HostRuntime) -> Result<(), Fail> {
    let alloc = rt.alloc();
    let none = cause_of_two(alloc, (1, 4), (2, 3))?;
    let order = cause_of_two(alloc, (2, 4), (1, 3))?;
    let version = cause_of_two(alloc, (2, 4), (1, 2))?;
    let empty = cause_of(Vec::new(alloc));
    expect_eq!(
        (none, order, version, empty),
        (
            None,
            Some(Cause::Order),
            Some(Cause::Version),
            Some(Cause::Empty)
        )
    )
}

#[test]
fn a_delta_with_no_state_has_a_later_heartbeat(rt: HostRuntime) -> Result<(), Fail> {
    for (heartbeat, made) in [(3, true), (2, false)] {
        expect_eq!(makes_a_delta(heartbeat, Vec::new(rt.alloc()))?, made)?;
    }
    Ok(())
}

// The parts of the delta without states at generation 9 above version 2.
fn parts_of_bare(alloc: Global, heartbeat: u32) -> Option<(u32, u32, u32, usize)> {
    let delta = Delta::bare(alloc, generation(9), 2, version(heartbeat))?;
    Some((
        delta.generation().get(),
        delta.above(),
        delta.heartbeat().get(),
        delta.count(),
    ))
}

#[test]
fn a_bare_delta_has_its_parts(rt: HostRuntime) -> Result<(), Fail> {
    expect_eq!(parts_of_bare(rt.alloc(), 3), Some((9, 2, 3, 0)))?;
    expect_eq!(parts_of_bare(rt.alloc(), 2), None)
}

// Tests whether a delta is the same as one with key 2 at 4.
fn is_same(alloc: Global, delta: &Delta) -> Result<bool, Fail> {
    let one = delta_with_key_2(alloc, 2, 5)?;
    Ok(delta.is_same(&one))
}

// Tests whether deltas at generation 9 above 2, with key 2 at this version and heartbeat 5, are the same as one at 4.
fn is_like_one_at_4(alloc: Global, at: u32) -> Result<bool, Fail> {
    let like = delta((9, 2, 5), one_state(alloc, 2, at)?)?;
    is_same(alloc, &like)
}

#[test]
fn deltas_are_compared(rt: HostRuntime) -> Result<(), Fail> {
    expect!(is_like_one_at_4(rt.alloc(), 4)?)?;
    expect!(!is_like_one_at_4(rt.alloc(), 5)?)
}

// ---- entries

// The generation, the heartbeat version and the newest version.
fn numbers_of(entry: &Entry) -> (u32, u32, u32) {
    (
        entry.generation().get(),
        entry.heartbeat().get(),
        entry.newest().get(),
    )
}

fn text_at(entry: &Entry, key: u8) -> Option<&str> {
    match entry.get(StateKey::new(key)?) {
        Some((text, _)) => Some(text.as_str()),
        None => None,
    }
}

fn version_at(entry: &Entry, key: u8) -> Option<u32> {
    match entry.get(StateKey::new(key)?) {
        Some((_, version)) => Some(version.get()),
        None => None,
    }
}

#[test]
fn an_entry_starts_at_version_1(rt: HostRuntime) -> Result<(), Fail> {
    let entry = entry_at_start(rt.alloc(), 9).copy(rt.alloc())?;
    expect_eq!(numbers_of(&entry), (9, 1, 1))
}

// Sets key 1, and beats.
fn set_and_beat(entry: &mut Entry, text: StateText) -> Result<(), Fault> {
    let mut versions = Versions::after(entry.newest());
    entry.set(&mut versions, key(1), text)?;
    entry.beat(&mut versions)?;
    Ok(())
}

// Generation 9 sets key 1 to NORMAL, and beats.
fn set_and_beaten(alloc: Global) -> Result<Entry, Fail> {
    let text = StateText::new(alloc, "NORMAL")?;
    let mut entry = entry_at_start(alloc, 9);
    set_and_beat(&mut entry, text)?;
    Ok(entry)
}

#[test]
fn a_set_and_a_beat(rt: HostRuntime) -> Result<(), Fail> {
    let entry = set_and_beaten(rt.alloc())?;
    let versions = (version_at(&entry, 1), version_at(&entry, 2));
    let shown = (numbers_of(&entry), text_at(&entry, 1), versions);
    expect_eq!(shown, ((9, 3, 3), Some("NORMAL"), (Some(2), None)))
}

// The key, version and text of the only state.
fn only_state(entry: &Entry) -> Option<(u8, u32, Option<&str>)> {
    let states = entry.by_key();
    if states.len() != 1 {
        return None;
    }
    let (key, text, version) = states.at(0);
    Some((key.get(), version.get(), text_of(text)))
}

#[test]
fn states_are_listed(rt: HostRuntime) -> Result<(), Fail> {
    let entry = set_and_beaten(rt.alloc())?;
    expect_eq!(only_state(&entry), Some((1, 2, Some("NORMAL"))))
}

// The parts of an entry's delta above a version.
fn above(alloc: Global, entry: &Entry, version: u32) -> Result<Option<Parts>, Fail> {
    match entry.above(alloc, version)? {
        Some(delta) => Ok(Some(parts_of(&delta))),
        None => Ok(None),
    }
}

// The same of an entry at its start.
fn above_at_start(alloc: Global, version: u32) -> Result<Option<Parts>, Fail> {
    let entry = entry_at_start(alloc, 9);
    above(alloc, &entry, version)
}

#[test]
fn above_a_start(rt: HostRuntime) -> Result<(), Fail> {
    let alloc = rt.alloc();
    expect_eq!(above_at_start(alloc, 0)?, Some((9, 0, 1, 1, 0)))?;
    expect_eq!(above_at_start(alloc, 1)?, None)
}

// The same of an entry after a set and a beat.
fn above_when_beaten(alloc: Global, version: u32) -> Result<Option<Parts>, Fail> {
    let entry = set_and_beaten(alloc)?;
    above(alloc, &entry, version)
}

#[test]
fn above_by_version(rt: HostRuntime) -> Result<(), Fail> {
    let alloc = rt.alloc();
    expect_eq!(above_when_beaten(alloc, 0)?, Some((9, 0, 3, 3, 1)))?;
    expect_eq!(above_when_beaten(alloc, 2)?, Some((9, 2, 3, 3, 0)))?;
    expect_eq!(above_when_beaten(alloc, 3)?, None)
}

// ---- parts of entries by version

// Sets a key.
fn set_one(entry: &mut Entry, number: u8, text: StateText) -> Result<(), Fault> {
    let mut versions = Versions::after(entry.newest());
    entry.set(&mut versions, key(number), text)?;
    Ok(())
}

// Key 3 at 2, a beat, key 2 at 4 and key 1 at 5: the versions fall as the keys rise.
fn falling_entry(alloc: Global) -> Result<Entry, Fail> {
    let mut entry = entry_at_start(alloc, 9);
    set_one(&mut entry, 3, StateText::new(alloc, "N")?)?;
    entry.beat(&mut Versions::after(entry.newest()))?;
    set_one(&mut entry, 2, StateText::new(alloc, "N")?)?;
    set_one(&mut entry, 1, StateText::new(alloc, "N")?)?;
    Ok(entry)
}

// The key of the state with this number, from 0; 0 if there is none.
fn key_in(delta: &Delta, number: usize) -> u8 {
    let states = delta.by_key();
    if number < states.len() {
        return states.at(number).key.get();
    }
    0
}

// The heartbeat version, the number of states, and the first two keys.
type Keys = (u32, usize, u8, u8);

// The keys in an entry's delta above a version.
fn keys_above(alloc: Global, entry: &Entry, version: u32) -> Result<Option<Keys>, Fail> {
    match entry.above(alloc, version)? {
        Some(delta) => Ok(Some((
            delta.heartbeat().get(),
            delta.count(),
            key_in(&delta, 0),
            key_in(&delta, 1),
        ))),
        None => Ok(None),
    }
}

fn falling_above(alloc: Global, version: u32) -> Result<Option<Keys>, Fail> {
    let entry = falling_entry(alloc)?;
    keys_above(alloc, &entry, version)
}

// Version 3 is that of the heartbeat, between two states. Above 4 the heartbeat is older than all that is carried.
#[test]
fn versions_that_fall(rt: HostRuntime) -> Result<(), Fail> {
    let alloc = rt.alloc();
    expect_eq!(falling_above(alloc, 1)?, Some((3, 3, 1, 2)))?;
    expect_eq!(falling_above(alloc, 2)?, Some((3, 2, 1, 2)))?;
    expect_eq!(falling_above(alloc, 3)?, Some((3, 2, 1, 2)))?;
    expect_eq!(falling_above(alloc, 4)?, Some((3, 1, 1, 0)))?;
    expect_eq!(falling_above(alloc, 5)?, None)
}

// The entry that a whole delta carries.
fn carried(alloc: Global, whole: &Delta) -> Result<Entry, Fail> {
    match Entry::of_delta(alloc, whole)? {
        Some(entry) => Ok(entry),
        None => Err(Fail::from("no entry")),
    }
}

// Generation 9 at heartbeat 1 with key 1 at 2, as a whole delta carried it.
fn held_entry(alloc: Global) -> Result<Entry, Fail> {
    let whole = delta((9, 0, 1), one_state(alloc, 1, 2)?)?;
    carried(alloc, &whole)
}

// Generation 9 at heartbeat 1 with keys 1 and 2 both at 4, which no member writes.
fn doubled_entry(alloc: Global) -> Result<Entry, Fail> {
    let whole = delta((9, 0, 1), two_states(alloc, (1, 4), (2, 4))?)?;
    carried(alloc, &whole)
}

fn doubled_above(alloc: Global, version: u32) -> Result<Option<Keys>, Fail> {
    let entry = doubled_entry(alloc)?;
    keys_above(alloc, &entry, version)
}

// The same once it has set key 3.
fn doubled_and_set_above(alloc: Global, version: u32) -> Result<Option<Keys>, Fail> {
    let mut entry = doubled_entry(alloc)?;
    set_one(&mut entry, 3, StateText::new(alloc, "N")?)?;
    keys_above(alloc, &entry, version)
}

#[test]
fn one_version_at_two_keys(rt: HostRuntime) -> Result<(), Fail> {
    let alloc = rt.alloc();
    expect_eq!(doubled_above(alloc, 3)?, Some((1, 2, 1, 2)))?;
    expect_eq!(doubled_above(alloc, 4)?, None)?;
    expect_eq!(doubled_and_set_above(alloc, 3)?, Some((1, 3, 1, 2)))?;
    expect_eq!(doubled_and_set_above(alloc, 4)?, Some((1, 1, 3, 0)))?;
    expect_eq!(doubled_and_set_above(alloc, 5)?, None)
}

// An entry whose newest version is the last.
fn spent_entry(alloc: Global) -> Result<Entry, Fail> {
    bare_entry(alloc, 9, 2147483647)
}

fn carries_none(alloc: Global, delta: &Delta) -> Result<bool, Fail> {
    Ok(Entry::of_delta(alloc, delta)?.is_none())
}

#[test]
fn a_part_is_no_entry(rt: HostRuntime) -> Result<(), Fail> {
    let part = delta_with_key_2(rt.alloc(), 2, 5)?;
    expect!(carries_none(rt.alloc(), &part)?)
}

// The answers if no version is left: the fault of a set, the fault of a beat, the last version then, and a test that
// the entry is unchanged.
type Refused = (Option<Fault>, Option<Fault>, u32, bool);

fn refused(alloc: Global) -> Result<Refused, Fail> {
    let text = StateText::new(alloc, "N")?;
    let before = spent_entry(alloc)?;
    let mut entry = before.copy(alloc)?;
    let mut versions = Versions::after(entry.newest());
    let set = entry.set(&mut versions, key(1), text).err();
    let beat = entry.beat(&mut versions).err();
    Ok((set, beat, versions.last(), entry.is_same(&before)))
}

#[test]
fn versions_spent(rt: HostRuntime) -> Result<(), Fail> {
    let spent = Some(Fault::VersionsSpent);
    expect_eq!(refused(rt.alloc())?, (spent, spent, 2147483647, true))
}

// Compares two entries: tests whether each is later than the other, and whether they are the same.
fn compared(one: &Entry, other: &Entry) -> (bool, bool, bool) {
    (one.is_later(other), other.is_later(one), one.is_same(other))
}

// An entry beside the one that is held: how they compare, and whether the held one is the same as itself.
type Beside = ((bool, bool, bool), bool);

fn beside_held(alloc: Global, entry: &Entry) -> Result<Beside, Fail> {
    let held = held_entry(alloc)?;
    Ok((compared(entry, &held), held.is_same(&held)))
}

#[test]
fn entries_are_compared(rt: HostRuntime) -> Result<(), Fail> {
    let beaten = set_and_beaten(rt.alloc())?;
    let both = beside_held(rt.alloc(), &beaten)?;
    expect_eq!(both, ((true, false, false), true))
}

// ---- outcomes of deltas

fn name_of(what: &Absorbed) -> &'static str {
    match what {
        Absorbed::Taken(_) => "taken",
        Absorbed::Old => "old",
        Absorbed::Gap => "gap",
    }
}

// The outcome of a delta at an entry.
fn outcome(alloc: Global, entry: &Entry, delta: &Delta) -> Result<&'static str, Fail> {
    Ok(name_of(&entry.absorb(alloc, delta)?))
}

// The outcome of a delta of generation 9 with no states if nothing is held.
fn met_by_nothing(alloc: Global, above: u32) -> Result<&'static str, Fail> {
    let delta = bare_delta(alloc, (9, above, 5))?;
    Ok(name_of(&meet(alloc, None, &delta)?))
}

#[test]
fn deltas_that_meet_nothing(rt: HostRuntime) -> Result<(), Fail> {
    expect_eq!(met_by_nothing(rt.alloc(), 0)?, "taken")?;
    expect_eq!(met_by_nothing(rt.alloc(), 1)?, "gap")
}

// The entry that a delta leads to.
fn taken(alloc: Global, entry: &Entry, delta: &Delta) -> Result<Entry, Fail> {
    match entry.absorb(alloc, delta)? {
        Absorbed::Taken(after) => Ok(after),
        Absorbed::Old | Absorbed::Gap => Err(Fail::from("not taken")),
    }
}

// The entry after a part of generation 9 with key 2 at 4, heartbeat 5, above version 2.
fn after_a_part(alloc: Global, entry: &Entry) -> Result<Entry, Fail> {
    taken(alloc, entry, &delta_with_key_2(alloc, 2, 5)?)
}

// The entry held after the part.
fn with_a_part(alloc: Global) -> Result<Entry, Fail> {
    let held = held_entry(alloc)?;
    after_a_part(alloc, &held)
}

#[test]
fn partial_delta_taken(rt: HostRuntime) -> Result<(), Fail> {
    let after = with_a_part(rt.alloc())?;
    let versions = (version_at(&after, 1), version_at(&after, 2));
    let shown = (numbers_of(&after), versions);
    expect_eq!(shown, ((9, 5, 5), (Some(2), Some(4))))
}

// The outcome of the part at an entry.
fn outcome_of_a_part(alloc: Global, entry: &Entry) -> Result<&'static str, Fail> {
    outcome(alloc, entry, &delta_with_key_2(alloc, 2, 5)?)
}

#[test]
fn partial_delta_taken_again(rt: HostRuntime) -> Result<(), Fail> {
    let after = with_a_part(rt.alloc())?;
    expect_eq!(outcome_of_a_part(rt.alloc(), &after)?, "old")
}

// The outcome of a delta with no states at an entry of generation 9, newest 2.
fn bare_outcome(alloc: Global, of: u32, above: u32, heartbeat: u32) -> Result<&'static str, Fail> {
    let held = held_entry(alloc)?;
    let bare = bare_delta(alloc, (of, above, heartbeat))?;
    outcome(alloc, &held, &bare)
}

#[test]
fn deltas_across_generations(rt: HostRuntime) -> Result<(), Fail> {
    let alloc = rt.alloc();
    let other_generations = (
        bare_outcome(alloc, 8, 0, 9)?,
        bare_outcome(alloc, 10, 0, 1)?,
        bare_outcome(alloc, 10, 1, 2)?,
    );
    expect_eq!(other_generations, ("old", "taken", "gap"))?;
    let same_generation = (
        bare_outcome(alloc, 9, 3, 4)?,
        bare_outcome(alloc, 9, 2, 4)?,
        bare_outcome(alloc, 9, 0, 2)?,
    );
    expect_eq!(same_generation, ("gap", "taken", "old"))
}

// Generation 9 at heartbeat 3 with key 1 at 2.
fn held_and_beaten(alloc: Global) -> Result<Entry, Fail> {
    let mut held = held_entry(alloc)?;
    let mut versions = Versions::after(held.newest());
    held.beat(&mut versions)?;
    Ok(held)
}

// A delta may carry a heartbeat at or below the version that it is above, beside a newer state.
#[test]
fn a_heartbeat_may_fall(rt: HostRuntime) -> Result<(), Fail> {
    let held = held_and_beaten(rt.alloc())?;
    let after = taken(rt.alloc(), &held, &delta_with_key_2(rt.alloc(), 3, 1)?)?;
    expect_eq!(numbers_of(&after), (9, 1, 4))
}
