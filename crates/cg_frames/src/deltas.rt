//! Deltas and their states, which rise: checked with no memory, and read.

ghost use Rattle.std.specs.Prelude.{◌≡◌, ◌≢◌, ◌<◌, ◌^◌, true, Ok, Err, None, [], IfOk, IfErr, IsOk, IfSome, length, option_map};
ghost use Rattle.std.specs.Arc.{arc_value};
ghost use Rattle.std.specs.List.{flat_map};
ghost use Rattle.std.specs.FinMap as map;
ghost use Rattle.cg_entry.specs.Section.{state as spelled_state};
ghost use Rattle.cg_entry.specs.State.{delta_of_parts, pairs};
ghost use Rattle.cg_types.specs.Text.{IsStateText};
ghost use Rattle.cg_frames.specs.Laws.{AreBytes};
ghost use Rattle.cg_frames.specs.Layouts.{IsRead};
ghost use Rattle.cg_frames.specs.Reading as spec;

use crate::layout::Layout;
use crate::lengths::{DELTA_LEAST, STATE_LEAST};
use crate::misread::{Misread, ReadError};
use crate::reader::{Reader, show_bytes};
use cg_entry::{Delta, SECTION_LIMIT, State};
use cg_messages::OwnerDelta;
use cg_types::{Cause, Endpoint, Generation, StateKey, StateText, Version};
use std::alloc::{AllocError, Global};
use std::sync::Arc;

// Reads past a state of a delta above a version, and keeps its key. A call for each state would be a tenth of a check of
// short ones.
#[inline(always)]
#[tactic(auto, unfolding(crate::specs::Lists::state_at))]
fn check_state(
    layout: &Layout,
    above: u32,
    reader: &mut Reader<'_>,
    last: Option<StateKey>,
) -> Result<StateKey, Misread>
    ensures { spec.Reads (λ x. x) result reader.new
        (spec.part_of_field (λ s. s.key) (spec.state_at layout.now above last reader.old)) }
{
    let key = reader.key(last)?;
    reader.version_above(above)?;
    reader.value(layout)?;
    Ok(key)
}

// Reads past this number of states, rising by key. A call for each delta would be a seventh of it.
#[inline(always)]
fn check_states(
    layout: &Layout,
    above: u32,
    reader: &mut Reader<'_>,
    count: u8,
) -> Result<(), Misread>
    ensures { spec.Passes result reader.new (spec.states_at layout.now above count None reader.old) }
{
    let mut last: Option<StateKey> = None;
    for _ in 0..count {
        let key = check_state(layout, above, reader, last)?;
        last = Some(key);
    }
    Ok(())
}

// Reads past a state, as `check_state` does, of which it is known that it is one: its text is not looked at.
#[inline(always)]
#[tactic(auto, unfolding(crate::specs::Lists::state_at))]
fn pass_state(
    layout: &Layout,
    above: u32,
    reader: &mut Reader<'_>,
    last: Option<StateKey>,
) -> Result<StateKey, Misread>
    requires { IsOk (spec.state_at layout.now above last reader.old) }
    ensures { spec.Reads (λ x. x) result reader.new
        (spec.part_of_field (λ s. s.key) (spec.state_at layout.now above last reader.old)) }
{
    let key = reader.key(last)?;
    reader.version_above(above)?;
    reader.known_value(layout)?;
    Ok(key)
}

// Reads past this number of states, as `check_states` does, of which it is known that they are ones.
fn pass_states(
    layout: &Layout,
    above: u32,
    reader: &mut Reader<'_>,
    count: u8,
) -> Result<(), Misread>
    requires { IsOk (spec.states_at layout.now above count None reader.old) }
    ensures { spec.Passes result reader.new (spec.states_at layout.now above count None reader.old) }
{
    let mut last: Option<StateKey> = None;
    for _ in 0..count {
        let key = pass_state(layout, above, reader, last)?;
        last = Some(key);
    }
    Ok(())
}

// Reads past this number of states, as one of these does.
fn go_past(
    layout: &Layout,
    above: u32,
    reader: &mut Reader<'_>,
    count: u8,
    known: bool,
) -> Result<(), Misread>
    requires { known ≡ true → IsOk (spec.states_at layout.now above count None reader.old) }
    ensures { spec.Passes result reader.new (spec.states_at layout.now above count None reader.old) }
{
    if known {
        pass_states(layout, above, reader, count)
    } else {
        check_states(layout, above, reader, count)
    }
}

// Reads past a delta, and keeps its endpoint.
#[tactic(auto, unfolding(crate::specs::Lists::delta_at))]
fn check_delta(
    layout: &Layout,
    reader: &mut Reader<'_>,
    last: Option<Endpoint>,
) -> Result<Endpoint, Misread>
    ensures { spec.Reads (λ x. x) result reader.new
        (spec.part_of_field (λ d. d.endpoint) (spec.delta_at layout.now last reader.old)) }
{
    let left = reader.left();
    let endpoint = reader.endpoint(last)?;
    reader.generation()?;
    let above = reader.held(Cause::Above)?;
    let heartbeat = reader.heartbeat()?;
    let count = reader.state_count()?;
    check_states(layout, above, reader, count)?;
    if heartbeat.get() <= above && count == 0 {
        return Err(Misread {
            cause: Cause::Empty,
            left,
        });
    }
    Ok(endpoint)
}

/// Reads past this number of deltas, rising by endpoint.
pub(crate) fn check_deltas(
    layout: &Layout,
    reader: &mut Reader<'_>,
    count: u16,
) -> Result<(), Misread>
    ensures { spec.Passes result reader.new (spec.deltas_at layout.now count None reader.old) }
{
    let mut last: Option<Endpoint> = None;
    for _ in 0..count {
        let endpoint = check_delta(layout, reader, last)?;
        last = Some(endpoint);
    }
    Ok(())
}

// Reads past this number of states, rising by key, and keeps their bytes, which are read alone as they were among all.
fn section_of<'a>(
    layout: &Layout,
    above: u32,
    reader: &mut Reader<'a>,
    count: u8,
    known: bool,
) -> Result<&'a [u8], Misread>
    requires layout { IsRead layout.now }
    requires known { known ≡ true → IsOk (spec.states_at layout.now above count None reader.old) }
    ensures fault { IfErr result (λ m. spec.states_at layout.now above count None reader.old ≡ Err m) }
    ensures section { IfOk result (λ s. spec.IsCutOut (spec.states_at layout.now above count None) reader.old reader.new s.now) }
    ensures short { IfOk result (λ s. length s.now < 2 ^ 31) }
{
    let start = reader.again();
    go_past(layout, above, reader, count, known)?;
    Ok(start.until(reader))
}

// A state's text, which stands at a place of the buffer: a part of it, if there is one, else a copy. A tombstone has none.
fn text_of(
    alloc: Global,
    buffer: Option<&Arc<Vec<u8>, Global>>,
    at: usize,
    text: Option<&str>,
) -> Result<Option<StateText>, ReadError>
    requires stands { IfSome buffer (λ b. IfSome text (λ x. spec.StandsIn (arc_value b.now).items at x.now)) }
    requires valid { IfSome text (λ x. IsStateText x.now) }
    requires short { at < 2 ^ 32 }
    ensures { spec.GivesWhole (λ t. t) result (Ok (option_map (λ x. x.now) text.entry)) }
{
    let Some(text) = text else {
        return Ok(None);
    };
    match buffer {
        Some(buffer) => Ok(Some(StateText::of_part(buffer, at as u32, text.len() as u16)?)),
        None => Ok(Some(StateText::of_plain(alloc, text)?)),
    }
}

// Reads a state of a delta above a version, at the front of the end of a section. It is known to be one, so that its text
// is not looked at. The buffer, if there is one, is a copy of the section.
#[tactic(auto, unfolding(crate::specs::Lists::state_at))]
fn state_of(
    alloc: Global,
    buffer: Option<&Arc<Vec<u8>, Global>>,
    section: &[u8],
    layout: &Layout,
    above: u32,
    reader: &mut Reader<'_>,
    last: Option<StateKey>,
) -> Result<State, ReadError>
    requires layout { IsRead layout.now }
    requires known { IsOk (spec.state_at layout.now above last reader.old) }
    requires end { spec.IsEndOf section.now reader.old }
    requires bytes { AreBytes reader.old }
    requires copy { IfSome buffer (λ b. (arc_value b.now).items ≡ section.now) }
    requires short { length section.now < 2 ^ 31 }
    ensures { spec.GivesField (λ s. s) result reader.new (spec.state_at layout.now above last reader.old) }
{
    let at = section.len().saturating_sub(reader.left());
    let key = reader.key(last)?;
    let version = reader.version_above(above)?;
    let read = reader.known_value(layout)?;
    let text = text_of(alloc, buffer, at + STATE_LEAST, read)?;
    Ok(State { key, version, text })
}

// A copy of a section that texts will share, unless it is so long that a text that is kept would keep too much.
fn buffer_of(alloc: Global, section: &[u8]) -> Result<Option<Arc<Vec<u8>, Global>>, AllocError>
    ensures { IfOk result (λ o. IfSome o (λ b. (arc_value b).items ≡ section.now)) }
{
    if section.len() > SECTION_LIMIT {
        return Ok(None);
    }
    let bytes = Vec::from_slice(alloc, section)?;
    Ok(Some(Arc::new(alloc, bytes)?))
}

// Reads this number of states, rising by key, from bytes that are known to spell them. The buffer, if there is one, is a
// copy of these.
fn states_in(
    alloc: Global,
    buffer: Option<&Arc<Vec<u8>, Global>>,
    layout: &Layout,
    above: u32,
    section: &[u8],
    count: u8,
) -> Result<Vec<State>, ReadError>
    requires layout { IsRead layout.now }
    requires known { spec.behind (spec.states_at layout.now above count None section.now) ≡ Ok [] }
    requires copy { IfSome buffer (λ b. (arc_value b.now).items ≡ section.now) }
    requires short { length section.now < 2 ^ 31 }
    ensures { spec.GivesField (λ v. v.items) result [] (spec.states_at layout.now above count None section.now) }
{
    let mut reader = Reader::new(section);
    let mut states = Vec::with_capacity(alloc, usize::from(count))?;
    let mut last: Option<StateKey> = None;
    for _ in 0..count {
        let state = state_of(alloc, buffer, section, layout, above, &mut reader, last)?;
        last = Some(state.key);
        states.push(state)?;
    }
    Ok(states)
}

// Reads this number of states, rising by key, and keeps a copy of their bytes, if it is short, of which the texts are
// parts: no text keeps the frame alive. If it is known that they are states, no text is looked at.
fn states_of(
    alloc: Global,
    layout: &Layout,
    above: u32,
    reader: &mut Reader<'_>,
    count: u8,
    known: bool,
) -> Result<(Vec<State>, Option<Arc<Vec<u8>, Global>>), ReadError>
    requires layout { IsRead layout.now }
    requires known { known ≡ true → IsOk (spec.states_at layout.now above count None reader.old) }
    ensures value { spec.GivesField (λ x. x.0.items) result reader.new (spec.states_at layout.now above count None reader.old) }
    ensures spelled { IfOk result (λ x. IfSome x.1 (λ b. (arc_value b).items ≡ flat_map spelled_state (pairs x.0.items))) }
{
    let section = section_of(layout, above, reader, count, known)?;
    show_bytes(section);
    let buffer = buffer_of(alloc, section)?;
    let states = states_in(alloc, buffer.as_ref(), layout, above, section, count)?;
    Ok((states, buffer))
}

// A delta whose block of states its takers will share, beside what spells them, if that is kept.
fn shared(
    alloc: Global,
    delta: Delta,
    section: Option<Arc<Vec<u8>, Global>>,
) -> Result<Delta, AllocError>
    requires { IfSome section (λ b. (arc_value b).items ≡ flat_map spelled_state (map.entries delta.states)) }
    ensures { IfOk result (λ d. d ≡ delta) }
{
    match section {
        Some(section) => delta.shared_in(alloc, section),
        None => delta.shared(alloc),
    }
}

// Reads the states of a delta that has some, and makes it of them and of its other fields: its taker will share its block.
// It is a call, so that reading a delta without states stays short: that would take a seventh more.
#[inline(never)]
fn with_states(
    alloc: Global,
    layout: &Layout,
    reader: &mut Reader<'_>,
    generation: Generation,
    above: u32,
    heartbeat: Version,
    count: u8,
    known: bool,
) -> Result<Delta, ReadError>
    requires layout { IsRead layout.now }
    requires some { count ≢ 0 }
    requires known { known ≡ true → IsOk (spec.states_at layout.now above count None reader.old) }
    ensures { spec.GivesField (λ d. d) result reader.new (spec.part_of_field
        (λ s. delta_of_parts generation above heartbeat s) (spec.states_at layout.now above count None reader.old)) }
{
    let (states, buffer) = states_of(alloc, layout, above, reader, count, known)?;
    match Delta::new(generation, above, heartbeat, states) {
        Some(delta) => Ok(shared(alloc, delta, buffer)?),
        None => unreachable!(),
    }
}

// Reads a delta, whose block of states its taker will share; if it would carry nothing, the fault is at its first byte.
#[tactic(auto, unfolding(crate::specs::Lists::delta_at))]
fn delta_of(
    alloc: Global,
    layout: &Layout,
    reader: &mut Reader<'_>,
    last: Option<Endpoint>,
    known: bool,
) -> Result<OwnerDelta, ReadError>
    requires layout { IsRead layout.now }
    requires known { known ≡ true → IsOk (spec.delta_at layout.now last reader.old) }
    ensures { spec.GivesField (λ d. d) result reader.new (spec.delta_at layout.now last reader.old) }
{
    let left = reader.left();
    let endpoint = reader.endpoint(last)?;
    let generation = reader.generation()?;
    let above = reader.held(Cause::Above)?;
    let heartbeat = reader.heartbeat()?;
    let count = reader.state_count()?;
    let empty = Misread {
        cause: Cause::Empty,
        left,
    };
    if count == 0 {
        return match Delta::bare(alloc, generation, above, heartbeat) {
            Some(delta) => Ok(OwnerDelta { endpoint, delta }),
            None => Err(ReadError::Misread(empty)),
        };
    }
    // (a reader of its own, so that the other one is in registers where no states are read)
    let mut inner = reader.again();
    let delta = with_states(
        alloc, layout, &mut inner, generation, above, heartbeat, count, known,
    )?;
    *reader = inner;
    Ok(OwnerDelta { endpoint, delta })
}

/// Reads this number of deltas, rising by endpoint. If it is known that they are ones, no text is looked at.
pub(crate) fn deltas_of(
    alloc: Global,
    layout: &Layout,
    reader: &mut Reader<'_>,
    count: u16,
    known: bool,
) -> Result<Vec<OwnerDelta>, ReadError>
    requires layout { IsRead layout.now }
    requires known { known ≡ true → IsOk (spec.deltas_at layout.now count None reader.old) }
    ensures { spec.GivesField (λ v. v.items) result reader.new (spec.deltas_at layout.now count None reader.old) }
{
    if !reader.can_hold(count, DELTA_LEAST) {
        check_deltas(layout, &mut reader.again(), count)?;
    }
    let mut deltas = Vec::with_capacity(alloc, usize::from(count))?;
    let mut ahead = reader.again();
    let mut last: Option<Endpoint> = None;
    for _ in 0..count {
        let delta = delta_of(alloc, layout, &mut ahead, last, known)?;
        last = Some(delta.endpoint);
        deltas.push(delta)?;
    }
    *reader = ahead;
    Ok(deltas)
}
