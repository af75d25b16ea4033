//! One state of an endpoint.

ghost use Rattle.std.specs.Prelude.{◌≡◌, IfOk, option_copied};

use cg_types::{Shows, StateKey, StateText, Version};
use std::alloc::AllocError;

/// A state: a key's text, and the version that set it (Apache Cassandra's `VersionedValue` at its `ApplicationState`). A
/// state without a text is a tombstone: with that version the key's text was removed.
#[derive(Debug, Drop, PartialEq, Eq)]
pub struct State {
    pub key: StateKey,
    pub version: Version,
    pub text: Option<StateText>,
}

impl Shows for State {
    ghost use Rattle.cg_entry.specs.Contents.{IsState};
    ghost use Rattle.cg_entry.specs.State.{pair};

    ghost Shown = { λ s. IsState (pair s) };

    #[inline(always)]
    fn show(&self) {
        self.key.show();
        self.version.show();
        self.text.show();
    }
}

// The same text, shared; none of a tombstone.
pub(crate) fn copy_of(text: Option<&StateText>) -> Result<Option<StateText>, AllocError>
    ensures { IfOk result (λ t. t ≡ option_copied text.entry) }
{
    match text {
        Some(text) => Ok(Some(text.copy()?)),
        None => Ok(None),
    }
}

impl State {
    /// The same state, which shares the text. It is refused as `StateText::copy` is.
    pub fn copy(&self) -> Result<State, AllocError>
        ensures { IfOk result (λ s. s ≡ self.now) }
    {
        Ok(State {
            key: self.key,
            version: self.version,
            text: copy_of(self.text.as_ref())?,
        })
    }
}
