//! Making the channel.

ghost use Rattle.std.specs.Prelude.{◌≡◌, IfOk, []};
ghost use Rattle.cg_workers.specs.Ends.{AreEnds, IsOpen, put_by, taken_by, room_of};

use crate::ends::{Putting, Taking};
use crate::rule::{ChannelRule, Cut, Hand, NextRound};
use crossbeam_channel::bounded_with;
use std::alloc::{AllocError, Global};

/// The number of rounds for which the channel has room.
pub const ROOM: usize = 16;

/// Makes a channel, and returns its two ends.
pub fn rounds(alloc: Global) -> Result<(Putting, Taking), AllocError>
    ensures ends { IfOk result (λ r. AreEnds r.0 r.1) }
    ensures room { IfOk result (λ r. room_of r.0 ≡ ROOM) }
    ensures open { IfOk result (λ r. IsOpen r.0) }
    ensures put { IfOk result (λ r. put_by r.0 ≡ []) }
    ensures taken { IfOk result (λ r. taken_by r.1 ≡ []) }
{
    let (to, from, mut pass) = bounded_with::<NextRound, Hand, ChannelRule, Global>(alloc, ROOM)?;
    let other = to.another::<Cut>(&mut pass);
    let putting = Putting {
        to,
        pass,
        disconnected: false,
    };
    Ok((putting, Taking { from, pass: other }))
}
