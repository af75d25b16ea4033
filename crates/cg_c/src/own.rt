//! Calls by which C changes the own entry of a node.

ghost use Rattle.std.specs.Prelude.{◌≡◌};
ghost use Rattle.cg_core.specs.declared.event.Event.TheVariants as events;
ghost use Rattle.cg_c.specs.Told.{Tells};
ghost use Rattle.cg_text.specs.Gives.{Gives};
ghost use Rattle.cg_c.specs.Own.{held_change, held_setting, held_removal, setting_of, removal_of};
ghost use Rattle.cg_c.specs.Own as spec;

use crate::held_node::HeldNode;
use crate::told::{DONE, number};
use cg_core::{Event, Reply};
use cg_text::state_text_in;
use cg_types::{Fault, StateKey};
use std::alloc::Global;

// The version in a reply; 0 if it has none.
fn version_in(reply: &Reply) -> u32
    ensures { result ≡ spec.version_in reply.now }
{
    match reply {
        Reply::Done(version) => version.get(),
        _ => 0,
    }
}

// Does a change of the own entry, and tells its version.
fn change(alloc: Global, node: &mut HeldNode, event: &Event, version: &mut u32) -> u32
    ensures { Tells (held_change node.old.value event.now) (node.new.value, version.new)
        ((node.new.value ≡ node.old.value) × (version.new ≡ version.old)) result }
{
    let Some(mut inside) = node.take(alloc) else {
        return number(Fault::NoSuchNode);
    };
    match inside.stepped(alloc, event) {
        Ok((after, reply)) => {
            *inside = after;
            node.put(alloc, inside);
            *version = version_in(&reply);
            DONE
        }
        Err(fault) => {
            node.put(alloc, inside);
            number(fault)
        }
    }
}

// The event that gives a key a text.
fn setting(alloc: Global, key: u8, text: &[u8]) -> Result<Event, Fault>
    ensures { Gives (λ e. e) result (setting_of key text.now) }
{
    let Some(key) = StateKey::new(key) else {
        return Err(Fault::BadText);
    };
    let text = state_text_in(alloc, text)?;
    Ok(Event::Set { key, text })
}

// The event that removes the text of a key.
fn removal(key: u8) -> Result<Event, Fault>
    ensures { result ≡ removal_of key }
{
    match StateKey::new(key) {
        Some(key) => Ok(Event::Remove { key }),
        None => Err(Fault::BadText),
    }
}

/// Raises the heartbeat version, and tells it. It answers `VersionsSpent` if there is no version left.
#[unsafe(no_mangle)]
pub extern "C" fn cg_beat(alloc: Global, node: &mut HeldNode, version: &mut u32) -> u32
    ensures { Tells (held_change node.old.value events.Beat) (node.new.value, version.new)
        ((node.new.value ≡ node.old.value) × (version.new ≡ version.old)) result }
{
    change(alloc, node, &Event::Beat, version)
}

/// Gives a key of the node, 1 to 16, a text, and tells the version of that. It answers `BadText` if the key or the text
/// is not one, `TooLong` if the text is too long, and `VersionsSpent` if there is no version left.
#[unsafe(no_mangle)]
pub extern "C" fn cg_set(
    alloc: Global,
    node: &mut HeldNode,
    key: u8,
    text: &[u8],
    version: &mut u32,
) -> u32
    ensures { Tells (held_setting node.old.value key text.now) (node.new.value, version.new)
        ((node.new.value ≡ node.old.value) × (version.new ≡ version.old)) result }
{
    match setting(alloc, key, text) {
        Ok(event) => change(alloc, node, &event, version),
        Err(fault) => number(fault),
    }
}

/// Removes the text of a key of the node, and tells the version of that. It answers `BadText` if the key is not one,
/// `NoSuchKey` if it has no text, and `VersionsSpent` if there is no version left.
#[unsafe(no_mangle)]
pub extern "C" fn cg_remove(alloc: Global, node: &mut HeldNode, key: u8, version: &mut u32) -> u32
    ensures { Tells (held_removal node.old.value key) (node.new.value, version.new)
        ((node.new.value ≡ node.old.value) × (version.new ≡ version.old)) result }
{
    match removal(key) {
        Ok(event) => change(alloc, node, &event, version),
        Err(fault) => number(fault),
    }
}
