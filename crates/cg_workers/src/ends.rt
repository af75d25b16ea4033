//! The two ends of the channel.

ghost use Rattle.std.specs.Prelude.{◌≡◌, true, false, []};
ghost use Rattle.crossbeam_channel.specs.Claims.{view, IsSeatAt};
ghost use Rattle.crossbeam_channel.specs.Ends.{sends_on, receives_on};
ghost use Rattle.cg_workers.specs.Rounds.{hand};

use crate::rule::{ChannelRule, Hand, NextRound};
use crossbeam_channel::{Pass, RuledReceiver, RuledSender};

pub(crate) type Sender = RuledSender<NextRound, Hand, ChannelRule>;

pub(crate) type Receiver = RuledReceiver<NextRound, Hand, ChannelRule>;

pub(crate) type Ticket = Pass<NextRound, Hand>;

/// The end where rounds are put in.
#[derive(Drop)]
pub struct Putting {
    pub(crate) to: Sender,
    pub(crate) pass: Ticket,
    /// `true` once the channel has handed something back, since nobody takes any more.
    pub(crate) disconnected: bool,
    ghost seated: { IsSeatAt (sends_on to) pass },
    ghost puts: { view pass ≡ hand true false (view pass).put [] (view pass).said },
}

/// The end where rounds are taken.
#[derive(Drop)]
pub struct Taking {
    pub(crate) from: Receiver,
    pub(crate) pass: Ticket,
    ghost seated: { IsSeatAt (receives_on from) pass },
    ghost takes: { view pass ≡ hand false true [] (view pass).taken false },
}

/// The remains of an end that was given up: the rounds taken there.
#[derive(Drop)]
pub struct Taken {
    pub(crate) pass: Ticket,
    ghost takes: { view pass ≡ hand false true [] (view pass).taken false },
}
