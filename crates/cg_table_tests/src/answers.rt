//! Answers to a SYN, by the entry that is held.

use crate::samples::{only, syn_of, table_alone};
use cg_exchange::{Ack, Syn, answer_syn};
use cg_testing::{B, cluster, endpoint, expect_eq};
use cg_types::{Endpoint, Fault};
use std::alloc::Global;
use std::test::Fail;

// The request of an ACK, if it has one: the owner, the generation and the version.
fn asked(ack: &Ack) -> Option<(Endpoint, u32, u32)> {
    match ack.requests() {
        [one] => Some((one.endpoint(), one.generation().get(), one.version())),
        _ => None,
    }
}

// The only request of an ACK, the only delta that it sends, and the number of its requests and of its deltas.
type Shown = (
    Option<(Endpoint, u32, u32)>,
    Option<(u32, u32, u32)>,
    (usize, usize),
);

fn shown(ack: &Ack) -> Shown {
    let (requests, deltas) = (ack.requests(), ack.deltas());
    (asked(ack), only(deltas), (requests.len(), deltas.len()))
}

// The same, or the fault that refuses the SYN.
type Answered = Result<Shown, Fault>;

// The answer of B at generation 5, alone in its table and in the cluster c1.
fn answer_of_b(alloc: Global, syn: &Syn) -> Result<Answered, Fail> {
    let table = table_alone(alloc, B, 5)?;
    let cluster = cluster(alloc)?;
    Ok(match answer_syn(alloc, &table, &cluster, syn) {
        Ok(ack) => Ok(shown(&ack)),
        Err(fault) => Err(fault),
    })
}

// The answer to a SYN of this cluster with this digest of each of these owners.
fn answered(
    alloc: Global,
    cluster: (&str, u8),
    owners: &[u16],
    of: (u32, u32),
) -> Result<Answered, Fail> {
    let syn = syn_of(alloc, cluster, owners, of)?.ok_or("a SYN")?;
    answer_of_b(alloc, &syn)
}

// The cases: a SYN's cluster, the owners that it names, and the generation and the newest version that it states of B.
#[test]
fn what_is_held_is_answered_by_how_far_it_came(rt: HostRuntime) -> Result<(), Fail> {
    let (owner, ours) = (endpoint(B), ("c1", 1));
    let whole = Ok((None, Some((5, 0, 1)), (0, 1)));
    for (cluster, named, of, due) in [
        (ours, &[B][..], (5, 1), Ok((None, None, (0, 0)))),
        (ours, &[B], (5, 4), Ok((Some((owner, 5, 1)), None, (1, 0)))),
        (ours, &[B], (6, 2), Ok((Some((owner, 6, 0)), None, (1, 0)))),
        (ours, &[B], (4, 9), whole),
        (ours, &[], (1, 1), whole),
        (("c2", 1), &[], (1, 1), Err(Fault::OtherCluster)),
        (("c1", 2), &[], (1, 1), Err(Fault::OtherCluster)),
    ] {
        expect_eq!(answered(rt.alloc(), cluster, named, of)?, due)?;
    }
    Ok(())
}
