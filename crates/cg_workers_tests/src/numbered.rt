//! Sample rounds with a number.

use cg_core::Peers;
use cg_messages::Syn;
use cg_testing::{cluster, endpoint};
use cg_workers::Round;
use std::alloc::Global;
use std::test::Fail;

/// A round of this number, for the endpoint of that number.
pub(crate) fn round(alloc: Global, number: u16) -> Result<Round, Fail> {
    let peers = Peers::of(vec![in alloc; endpoint(number)]?);
    let syn = Syn::new(cluster(alloc)?, Vec::new(alloc)).ok_or("a SYN")?;
    Ok(Round {
        peers,
        syn,
        number: u64::from(number),
    })
}

/// The number of a round and the last two bytes of its first peer's address, both 0 if there is none.
pub(crate) fn shown(round: Option<Round>) -> (u64, u16) {
    let Some(round) = round else {
        return (0, 0);
    };
    let place = match round.peers.endpoints().first() {
        Some(endpoint) => {
            let [_, _, high, low] = endpoint.address();
            u16::from_be_bytes([high, low])
        }
        None => 0,
    };
    (round.number, place)
}
