//! The deltas that an event brings a node.

ghost use Rattle.std.specs.Prelude.{◌≡◌};
ghost use Rattle.cg_types.specs.Rising.{Rises};
ghost use Rattle.cg_messages.specs.Members.{endpoints_of_deltas};
ghost use Rattle.cg_core.specs.Handed.{deltas_handed};

use crate::event::Event;
use cg_messages::OwnerDelta;
use cg_types::Shows;

// The deltas rise by owner.
impl Shows for Event {
    ghost use Rattle.cg_types.specs.Rising.{Rises};
    ghost use Rattle.cg_messages.specs.Members.{endpoints_of_deltas};
    ghost use Rattle.cg_core.specs.Handed.{deltas_handed};

    ghost Shown = { λ event. Rises (endpoints_of_deltas (deltas_handed event)) };

    #[inline(always)]
    fn show(&self) {
        self.deltas();
    }
}

impl Event {
    /// The deltas that the event brings a node, rising by owner: those of an ACK or an ACK2.
    pub fn deltas(&self) -> &[OwnerDelta]
        ensures value { result.now ≡ deltas_handed self.now }
        ensures rise { Rises (endpoints_of_deltas (deltas_handed self.now)) }
    {
        match self {
            Event::Ack { m, .. } => m.deltas(),
            Event::Ack2 { m, .. } => m.deltas(),
            _ => &[],
        }
    }
}
