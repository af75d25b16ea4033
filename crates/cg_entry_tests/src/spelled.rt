//! Deltas as a frame has them: owned, shared, and borrowed of an entry. Their bytes are those of a vector.

use cg_entry::{Delta, Entry};
use cg_testing::{delta, endpoint, expect, state};
use std::alloc::{AllocError, Global};
use std::test::Fail;

// About 10.0.0.1:7000 in the generation 9: what is above version 2, with the heartbeat version 1 and the state of key 1 at 4.
const ABOVE_2: &[u8] =
    b"\x0a\0\0\x01\x1b\x58\0\0\0\x09\0\0\0\x02\0\0\0\x01\x01\x01\0\0\0\x04\0\x01N";

// What is put behind a byte that is there.
fn spelled(alloc: Global, delta: &Delta) -> Result<Vec<u8>, AllocError> {
    let mut bytes = Vec::from_slice(alloc, b"<")?;
    delta.put(endpoint(1), &mut bytes)?;
    Ok(bytes)
}

fn is_above_2(bytes: &[u8]) -> bool {
    bytes.first() == Some(&60) && bytes.get(1..) == Some(ABOVE_2)
}

fn key_1_at_4(alloc: Global) -> Result<Delta, Fail> {
    let state = state(alloc, 1, 4, "N")?;
    delta((9, 2, 1), vec![in alloc; state]?)
}

#[test]
fn deltas_are_put_as_frames_have_them(rt: HostRuntime) -> Result<(), Fail> {
    let alloc = rt.alloc();
    let own = key_1_at_4(alloc)?;
    expect!(is_above_2(&spelled(alloc, &own)?))?;
    let shared = own.shared(alloc)?;
    expect!(is_above_2(&spelled(alloc, &shared)?))
}

// Generation 9 at the heartbeat version 1, with key 1 at 4 and key 2 at 2.
fn two_keys(alloc: Global) -> Result<Entry, Fail> {
    let states = vec![in alloc; state(alloc, 1, 4, "N")?, state(alloc, 2, 2, "M")?]?;
    let whole = delta((9, 0, 1), states)?;
    Ok(Entry::of_delta(alloc, &whole)?.ok_or("an entry")?)
}

// What is put of a borrowed delta, and of what is made of it; `None` if nothing is newer than the version.
fn spelled_above(
    alloc: Global,
    entry: &Entry,
    above: u32,
) -> Result<Option<(Vec<u8>, Vec<u8>)>, AllocError> {
    let Some(part) = entry.borrowed_above(above) else {
        return Ok(None);
    };
    let mut bytes = Vec::from_slice(alloc, b"<")?;
    part.put(endpoint(1), &mut bytes)?;
    let owned = part.to_owned(alloc)?;
    Ok(Some((bytes, spelled(alloc, &owned)?)))
}

#[test]
fn borrowed_deltas_are_put_as_owned_ones(rt: HostRuntime) -> Result<(), Fail> {
    let entry = two_keys(rt.alloc())?;
    let (borrowed, owned) = spelled_above(rt.alloc(), &entry, 2)?.ok_or("newer states")?;
    expect!(is_above_2(&borrowed))?;
    expect!(is_above_2(&owned))
}

#[test]
fn nothing_is_borrowed_above_the_newest(rt: HostRuntime) -> Result<(), Fail> {
    let entry = two_keys(rt.alloc())?;
    expect!(entry.borrowed_above(4).is_none())
}
