//! Callers that have events done, and keep their receipts.

ghost use Rattle.std.specs.Prelude.{◌≡◌, ◌-◌, ◌++◌, ◌∷◌, [], ℕ, List, IfErr, OnErr, OnOk, length, option_map, slice_get};
ghost use Rattle.cg_types.specs.declared.fault.Fault.{Fault as FaultValue};
ghost use Rattle.cg_core.specs.declared.event.Event.{Event as EventValue};
ghost use Rattle.cg_core.specs.declared.reply.Reply.{Reply as ReplyValue};
ghost use Rattle.cg_core.specs.Replies.{IsReplyTo};
ghost use Rattle.cg_history.specs.declared.item.Receipt.{Receipt as ReceiptValue};

use crate::item::Receipt;
use cg_core::Event;
use cg_types::Fault;
use std::alloc::Global;

/// A caller that has events done at a node, one after the other, and keeps the receipt of each.
pub trait Enter {
    // the receipts of the events done, the first one first
    ghost receipts: { Self → List ReceiptValue };

    // the part that no event changes: the caller of the events, and the parts of the share that counts them
    ghost seat: { Self → ℕ × ℕ };

    // a state, an event, its reply, and the state after it
    ghost does: { Self → EventValue → ReplyValue → Self → Type 0 };

    // the refusals that an event may meet in a state
    ghost refuses: { Self → EventValue → FaultValue → Type 0 };

    /// Has an event done, and keeps its receipt after the earlier ones. A refused event changes nothing.
    fn enter(&mut self, alloc: Global, event: Event) -> Result<(), Fault>
        ensures done { OnOk result ((q : ReceiptValue) × (receipts self.new ≡ receipts self.old ++ q ∷ [])
            × (q.event ≡ event) × IsReplyTo event q.reply × does self.old event q.reply self.new) }
        ensures refused { OnErr result (self.new ≡ self.old) }
        ensures fault { IfErr result (refuses self.old event) }
        ensures seat { seat self.new ≡ seat self.old };

    /// The receipt of the last event done; `None` if no event was done.
    fn last(&self) -> Option<&Receipt>
        ensures { option_map (λ q. q.now) result ≡ slice_get (receipts self.now) (length (receipts self.now) - 1) };
}
