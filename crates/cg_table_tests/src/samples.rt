//! Sample messages, and parts of them, that the tests of messages share.

use cg_entry::Digest;
use cg_messages::{Ack, Ack2, OwnerDelta, Request, Syn};
use cg_table::Table;
use cg_testing::{bare_delta, endpoint, entry_at_start, generation, version};
use cg_types::Cluster;
use std::alloc::Global;
use std::test::Fail;

// A digest of each owner, at a generation and a newest version.
fn digests(alloc: Global, owners: &[u16], (at, newest): (u32, u32)) -> Result<Vec<Digest>, Fail> {
    let (generation, newest) = (generation(at), version(newest));
    let mut digests = Vec::new(alloc);
    for owner in owners {
        digests.push(Digest {
            endpoint: endpoint(*owner),
            generation,
            newest,
        })?;
    }
    Ok(digests)
}

// A request of each owner, of a generation above a version.
fn requests(alloc: Global, owners: &[u16], (at, above): (u32, u32)) -> Result<Vec<Request>, Fail> {
    let mut requests = Vec::new(alloc);
    for owner in owners {
        let request = Request::new(endpoint(*owner), generation(at), above);
        requests.push(request.ok_or("a request")?)?;
    }
    Ok(requests)
}

// A delta of each owner, with no states: the generation, the version that it is above, and the heartbeat version.
fn deltas(alloc: Global, owners: &[u16], of: (u32, u32, u32)) -> Result<Vec<OwnerDelta>, Fail> {
    let mut deltas = Vec::new(alloc);
    for owner in owners {
        let delta = bare_delta(alloc, of)?;
        deltas.push(OwnerDelta {
            endpoint: endpoint(*owner),
            delta,
        })?;
    }
    Ok(deltas)
}

/// A SYN of a cluster, with a digest of each owner; `None` if these may not be in one.
pub(crate) fn syn_of(
    alloc: Global,
    (name, partitioner): (&str, u8),
    owners: &[u16],
    of: (u32, u32),
) -> Result<Option<Syn>, Fail> {
    let digests = digests(alloc, owners, of)?;
    let cluster = Cluster::with(alloc, name, partitioner)?;
    Ok(Syn::new(cluster, digests))
}

/// An ACK with a request of each of some owners, and a delta of each of others; `None` if these may not be in one.
pub(crate) fn ack_of(
    alloc: Global,
    (asked, above): (&[u16], (u32, u32)),
    (sent, of): (&[u16], (u32, u32, u32)),
) -> Result<Option<Ack>, Fail> {
    let requests = requests(alloc, asked, above)?;
    let deltas = deltas(alloc, sent, of)?;
    Ok(Ack::new(requests, deltas))
}

/// An ACK2 with a delta of each owner; `None` if these may not be in one.
pub(crate) fn ack2_of(
    alloc: Global,
    owners: &[u16],
    of: (u32, u32, u32),
) -> Result<Option<Ack2>, Fail> {
    Ok(Ack2::new(deltas(alloc, owners, of)?))
}

/// The only delta: its generation, the version that it is above, and the heartbeat version.
pub(crate) fn only(deltas: &[OwnerDelta]) -> Option<(u32, u32, u32)> {
    match deltas {
        [one] => {
            let delta = &one.delta;
            let (at, heartbeat) = (delta.generation().get(), delta.heartbeat().get());
            Some((at, delta.above(), heartbeat))
        }
        _ => None,
    }
}

/// The numbers of owners below an end.
pub(crate) fn below(alloc: Global, end: u16) -> Result<Vec<u16>, Fail> {
    let mut owners = Vec::new(alloc);
    for owner in 0..end {
        owners.push(owner)?;
    }
    Ok(owners)
}

/// The table of a member that started at a generation and met nobody.
pub(crate) fn table_alone(alloc: Global, owner: u16, at: u32) -> Result<Table, Fail> {
    Ok(Table::new(alloc, endpoint(owner), entry_at_start(alloc, at))?)
}
