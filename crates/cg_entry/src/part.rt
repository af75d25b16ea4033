//! The part of an entry's states that is newer than a version.

use crate::state::State;

// None of the states, each, with what spells them, the last that was set alone, or some.
#[derive(Drop)]
pub(crate) enum Part<'a> {
    Nothing,
    Each(&'a [u8]),
    Last(&'a State),
    Some,
}
