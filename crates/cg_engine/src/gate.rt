//! Gates, which do events.

ghost use Rattle.std.specs.Prelude.{◌≡◌, Option, Some, IfErr, OnErr, OnOk, option_map};
ghost use Rattle.cg_types.specs.declared.fault.Fault.{Fault as FaultValue};
ghost use Rattle.cg_core.specs.declared.event.Event.{Event as EventValue};
ghost use Rattle.cg_core.specs.declared.reply.Reply.{Reply as ReplyValue};
ghost use Rattle.cg_core.specs.Replies.{IsReplyTo};
ghost use Rattle.cg_engine.specs.Events.{IsGateFault};

use cg_core::{Event, Reply};
use cg_types::Fault;
use std::alloc::Global;

/// A gate does events one after the other, and knows the reply of the last one. It is one node (`NodeGate`), or a node
/// that is shared.
pub trait Gate {
    // a state, an event, its reply, and the state after it
    ghost does: { Self → EventValue → ReplyValue → Self → Type 0 };

    // the refusals that an event may meet in a state
    ghost refuses: { Self → EventValue → FaultValue → Type 0 };

    // a state, and one that a refused event left
    ghost stays: { Self → Self → Type 0 };

    // the reply of the last event done
    ghost last: { Self → Option ReplyValue };

    /// Does an event, and keeps its reply, of the event's kind, as the last one.
    ///
    /// It is refused by `OutOfMemory`, `VersionsSpent`, `TableFull` and `OtherCluster` alone, and a removal also by
    /// `NoSuchKey`. So no refusal can be taken for a fault of a link or a frame.
    fn event(&mut self, alloc: Global, event: Event) -> Result<(), Fault>
        ensures ok { OnOk result ((reply : ReplyValue) × (last self.new ≡ Some reply)
            × does self.old event reply self.new × IsReplyTo event reply) }
        ensures err { OnErr result (stays self.old self.new) }
        ensures fault { IfErr result (refuses self.old event) }
        ensures known { IfErr result (IsGateFault event) };

    /// The reply of the last event done.
    fn reply(&self) -> Option<&Reply>
        ensures { option_map (λ r. r.now) result ≡ last self.now };
}
