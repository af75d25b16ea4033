//! Equality of the parts of events and replies: `==`, with a clause at each type that a match on both can use.

ghost use Rattle.std.specs.Prelude.{◌≡◌, ◌↔◌, IsTrue};

use crate::outcomes::Outcomes;
use crate::peers::Peers;
use cg_messages::{Ack, Ack2, Message, Syn};
use cg_types::StateText;

pub(crate) fn same_text(one: &StateText, other: &StateText) -> bool
    ensures { IsTrue result ↔ (one.now ≡ other.now) }
{
    *one == *other
}

pub(crate) fn same_words(one: &[u64; 4], other: &[u64; 4]) -> bool
    ensures { IsTrue result ↔ (one.now ≡ other.now) }
{
    *one == *other
}

pub(crate) fn same_syn(one: &Syn, other: &Syn) -> bool
    ensures { IsTrue result ↔ (one.now ≡ other.now) }
{
    *one == *other
}

pub(crate) fn same_ack(one: &Ack, other: &Ack) -> bool
    ensures { IsTrue result ↔ (one.now ≡ other.now) }
{
    *one == *other
}

pub(crate) fn same_ack2(one: &Ack2, other: &Ack2) -> bool
    ensures { IsTrue result ↔ (one.now ≡ other.now) }
{
    *one == *other
}

pub(crate) fn same_message(one: &Message, other: &Message) -> bool
    ensures { IsTrue result ↔ (one.now ≡ other.now) }
{
    *one == *other
}

pub(crate) fn same_peers(one: &Peers, other: &Peers) -> bool
    ensures { IsTrue result ↔ (one.now ≡ other.now) }
{
    *one == *other
}

pub(crate) fn same_outcomes(one: &Outcomes, other: &Outcomes) -> bool
    ensures { IsTrue result ↔ (one.now ≡ other.now) }
{
    *one == *other
}
