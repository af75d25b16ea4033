//! The round of a tick, on its way into the channel.

ghost use Rattle.std.specs.Prelude.{◌≡◌, ◌∷◌, [], IfOk};
ghost use Rattle.cg_core.specs.Replies.{IsRound};
ghost use Rattle.cg_workers.specs.Ends.{PutsWhere};
ghost use Rattle.cg_workers.specs.Ticks.{IsPassedOn, round_in};

use crate::ends::Putting;
use crate::round::Round;
use crate::ticked::Stop;
use crate::ticking::Turn;
use cg_core::Reply;
use cg_history::Receipt;
use std::alloc::{AllocError, Global};
use std::sync::Wait;

/// Returns the round of a tick's receipt, which shares no list with it.
pub(crate) fn round_of(alloc: Global, receipt: &Receipt) -> Result<Round, AllocError>
    requires { IsRound receipt.now.reply }
    ensures { IfOk result (λ r. r ∷ [] ≡ round_in receipt.now) }
{
    let Reply::Round { peers, syn } = &receipt.reply else {
        unreachable!()
    };
    Ok(Round {
        peers: peers.copy(alloc)?,
        syn: syn.copy(alloc)?,
        number: receipt.number,
    })
}

/// Puts the round of a tick's receipt into the channel.
pub(crate) fn pass_on<R: Wait>(rt: &R, alloc: Global, receipt: &Receipt, to: &mut Putting) -> Turn
    requires { IsRound receipt.now.reply }
    ensures channel { PutsWhere to.new to.old }
    ensures put { IsPassedOn receipt.now result to.old to.new }
{
    let Ok(round) = round_of(alloc, receipt) else {
        return Turn::Stopped(Stop::NoMemory);
    };
    match to.put(rt, round) {
        Ok(()) => Turn::Put,
        Err(_) => Turn::Stopped(Stop::HandedBack),
    }
}
