//! A Set or a Remove that is published, and read back.

ghost use Rattle.std.specs.Prelude.{◌≡◌, ℕ, List, IfOk, IfSome};
ghost use Rattle.cg_table.specs.Puts.{Put};
ghost use Rattle.cg_core.specs.declared.reply.Reply.{Reply as ReplyValue};
ghost use Rattle.cg_views.specs.Reading.{OwnHasFrom};
ghost use Rattle.cg_locked.specs.Entry.{ShowsChange, ShowsState};

use cg_core::{Event, Reply};
use cg_history::Receipt;
use cg_locked::{Name, Seat, Shared};
use cg_types::{Fault, StateKey, StateText, Version};
use cg_views::{Pass, Snapshot};
use std::alloc::Global;
use std::sync::Wait;

/// The results of a change that was published and read back.
#[derive(Drop)]
pub(crate) struct Read {
    pub(crate) receipt: Receipt,
    pub(crate) version: Version,
    pub(crate) snapshot: Snapshot,
}

// The Set of a key to a text, or its Remove.
fn change_of(key: StateKey, text: Option<StateText>) -> Event
    ensures { (puts : List Put) (own : ℕ) (reply : ReplyValue)
        → ShowsChange puts own result reply → ShowsState puts own key text reply }
{
    match text {
        Some(text) => Event::Set { key, text },
        None => Event::Remove { key },
    }
}

/// Sets a key to a text, or removes its text, learns what was published, and reads. The own entry then has the key at
/// the version of the reply or a later one, as a text or a tombstone. `None` if there was no memory to publish.
pub(crate) fn change_and_read<N: Name, R: Wait>(
    rt: &R,
    alloc: Global,
    shared: &Shared<N>,
    seat: &mut Seat<N>,
    pass: &mut Pass<N>,
    key: StateKey,
    text: Option<StateText>,
) -> Result<Option<Read>, Fault>
    ensures read { IfOk result (λ r. IfSome r (λ x. OwnHasFrom x.snapshot key x.version)) }
    ensures seat { (seat.new.caller ≡ seat.old.caller) × (seat.new.parts ≡ seat.old.parts) }
{
    let event = change_of(key, text);
    let (receipt, told) = shared.submit(rt, alloc, seat, event)?;
    let Reply::Done(version) = &receipt.reply else {
        return Ok(None);
    };
    let version = *version;
    let Some(told) = told else {
        return Ok(None);
    };
    pass.learn(told);
    let snapshot = pass.read()?;
    Ok(Some(Read {
        receipt,
        version,
        snapshot,
    }))
}
