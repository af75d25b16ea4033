//! Items with the messages that they handle and send.

ghost use Rattle.std.specs.Prelude.{◌≡◌, option_copied, slice_get};
ghost use Rattle.std.specs.Option.{option_map};
ghost use Rattle.cg_messages.specs.Borrowed.{borrowed_message};
ghost use Rattle.cg_places.specs.Step.{handed_message};
ghost use Rattle.cg_audit.specs.Items.{generation_of, start_item, item_of, items_of_life};
ghost use Rattle.cg_audit.specs.Steps.{run_item};

use crate::item::LifeItem;
use crate::lives::generation;
use cg_core::Event;
use cg_history::{History, Item};
use cg_messages::BorrowedMessage;
use cg_types::{Endpoint, Generation};

/// An item of a life, the message that it handles and the one that it sends.
#[derive(Clone, Copy, Debug)]
pub(crate) struct Step<'a> {
    pub(crate) item: LifeItem,
    pub(crate) handled: Option<BorrowedMessage<'a>>,
    pub(crate) sent: Option<BorrowedMessage<'a>>,
}

// Returns the message that an event hands over, if there is one.
fn handled(event: &Event) -> Option<BorrowedMessage<'_>>
    ensures { option_map borrowed_message result ≡ handed_message event.now }
{
    match event {
        Event::Syn { m } => Some(BorrowedMessage::Syn(m)),
        Event::Ack { m, .. } => Some(BorrowedMessage::Ack(m)),
        Event::Ack2 { m, .. } => Some(BorrowedMessage::Ack2(m)),
        _ => None,
    }
}

fn record_at(records: &[Item], place: usize) -> Option<&Item>
    ensures { option_copied result ≡ slice_get records.now place }
{
    records.get(place)
}

fn start_of<'a>(endpoint: Endpoint, generation: Generation) -> Step<'a>
    ensures { run_item result ≡ start_item endpoint generation }
{
    Step {
        item: LifeItem {
            endpoint,
            generation,
            number: 0,
        },
        handled: None,
        sent: None,
    }
}

fn step_of(endpoint: Endpoint, generation: Generation, number: u64, kept: &Item) -> Step<'_>
    ensures { run_item result ≡ item_of endpoint generation number kept.now }
{
    Step {
        item: LifeItem {
            endpoint,
            generation,
            number,
        },
        handled: handled(&kept.event),
        sent: kept.reply.message(),
    }
}

/// Returns the item of a life with this number, if it has one.
pub(crate) fn item_in(endpoint: Endpoint, history: &History, number: usize) -> Option<Step<'_>>
    ensures { option_map run_item result ≡ slice_get (items_of_life endpoint history.now) number }
{
    let generation = generation(history);
    if number == 0 {
        return Some(start_of(endpoint, generation));
    }
    match record_at(history.records(), number - 1) {
        None => None,
        Some(kept) => Some(step_of(endpoint, generation, number as u64, kept)),
    }
}
