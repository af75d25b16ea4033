//! The law of all events in hand.

ghost use Rattle.std.specs.List.{AllByRecursion};
ghost use Rattle.cg_journal.specs.Contents.{IsCount, AreWords, IsEvent};

use cg_core::Event;
use cg_types::Shows;

fn show_count(count: u64)
    ensures { IsCount count }
{}

fn show_counts(words: &[u64])
    ensures { AllByRecursion IsCount words.now }
{}

fn show_words(words: &[u64; 4])
    ensures { AreWords words.now }
{
    show_counts(words);
}

/// Each event in hand is one that there can be, so the laws of written events hold of it. The call takes no memory, and
/// walks nothing.
pub fn every_event_fits(event: &Event)
    ensures { IsEvent event.now }
{
    match event {
        Event::Beat | Event::Opening => {}
        Event::Set { key, text } => {
            key.show();
            text.show();
        }
        Event::Remove { key } => key.show(),
        Event::Tick { now, words } => {
            show_count(*now);
            show_words(words);
        }
        Event::Syn { m } => m.show(),
        Event::Ack { now, m } => {
            show_count(*now);
            m.show();
        }
        Event::Ack2 { now, m } => {
            show_count(*now);
            m.show();
        }
    }
}
