//! The events that are done, and the history of a node whose table has 256 owners.

ghost use Rattle.std.specs.Prelude.{◌≡◌, [], IfOk};

use crate::counts::Counts;
use anyhow::{Context, Result};
use cg_core::Event;
use cg_entry::{Delta, State};
use cg_history::History;
use cg_messages::{Ack2, OwnerDelta};
use cg_testing::{endpoint, generation, key, long_text, settings, version};
use cg_types::StateText;
use std::alloc::Global;

/// The event that a thread does again and again; `BeatAndFold` also folds the board's records now and then.
#[derive(Clone, Copy)]
pub(crate) enum Work {
    Beat,
    BeatAndFold,
    Set,
}

fn text(alloc: Global, counts: Counts) -> Result<StateText> {
    let text = long_text(alloc, counts.text)?;
    Ok(StateText::new(alloc, &text)?)
}

/// Returns the event of the work; the text of a Set is as long as each text of the table.
pub(crate) fn event(alloc: Global, work: Work, counts: Counts) -> Result<Event> {
    Ok(match work {
        Work::Beat | Work::BeatAndFold => Event::Beat,
        Work::Set => Event::Set {
            key: key(3),
            text: text(alloc, counts)?,
        },
    })
}

fn states(alloc: Global, counts: Counts) -> Result<Vec<State>> {
    let mut states = Vec::new(alloc);
    for number in 1..=counts.states {
        states.push(State {
            key: key(number),
            version: version(u32::from(number) + 1),
            text: Some(text(alloc, counts)?),
        })?;
    }
    Ok(states)
}

fn delta(alloc: Global, owner: u16, counts: Counts) -> Result<OwnerDelta> {
    let delta = Delta::new(generation(5), 0, version(40), states(alloc, counts)?);
    Ok(OwnerDelta {
        endpoint: endpoint(owner),
        delta: delta.context("a delta")?,
    })
}

/// Returns the message that fills the table up to this number of owners.
pub(crate) fn filling(alloc: Global, counts: Counts) -> Result<Event> {
    let mut deltas = Vec::new(alloc);
    for owner in 2..=counts.owners {
        deltas.push(delta(alloc, owner, counts)?)?;
    }
    Ok(Event::Ack2 {
        now: 0,
        m: Ack2::new(deltas).context("a message")?,
    })
}

/// Returns the history of a node at its start.
pub(crate) fn new_history(alloc: Global) -> Result<History>
    ensures { IfOk result (λ h. (h.records ≡ []) × (h.folded ≡ 0)) }
{
    Ok(History::begin(alloc, endpoint(1), generation(9), settings(alloc)?)?)
}
