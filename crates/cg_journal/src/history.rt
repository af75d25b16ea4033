//! The law of all histories in hand.

ghost use Rattle.std.specs.Prelude.{◌≡◌};
ghost use Rattle.std.specs.List.{AllByRecursion};
ghost use Rattle.cg_journal.specs.Contents.{IsEvent, MayStart, IsWritable};

use crate::fitting::every_event_fits;
use cg_core::Node;
use cg_history::{History, Item};
use cg_types::{Shows, show_all};

fn show_start(node: &Node)
    ensures { MayStart node.now.table.own node.now.settings }
{
    let settings = node.settings();
    node.table().own().show();
    show_all(settings.seeds());
    settings.cluster().show();
    settings.silence().show();
}

fn show_events(records: &[Item])
    ensures { AllByRecursion (λ r. IsEvent r.event) records.now }
{
    for record in records {
        every_event_fits(&record.event);
    }
}

/// Each history in hand of which no record is folded is writable, so the laws of written histories hold of it: its text
/// is read as it. The call takes no memory, and walks its records.
pub fn every_history_fits(history: &History)
    ensures { history.now.folded ≡ 0 → IsWritable history.now }
{
    show_start(history.base());
    show_events(history.records());
}
