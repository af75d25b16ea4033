//! The look at a node by the end of a round: its members, and its status.

use crate::counts::Counts;
use crate::members::{Member, members_of};
use crate::publishing::Publishing;
use crate::site::Site;
use cg_core::Node;
use cg_history::History;
use cg_locked::Name;
use cg_status::{Counters, Seen, Status};
use cg_types::NUMBER_LIMIT;
use cg_workers::{Milliseconds, Traffic};
use std::alloc::{AllocError, Global};
use std::io::Write;
use std::ops::Deref;
use std::sync::atomic::{AtomicU64, Ordering};
use std::sync::{MutexGuard, Wait};

// Returns the other endpoints as a node sees them at a time, rising.
fn seen_by(alloc: Global, node: &Node, now: u64) -> Result<Vec<Seen>, AllocError> {
    let own = node.table().own();
    let mut seen = Vec::with_capacity(alloc, node.table().owners().len())?;
    for row in node.table().owners() {
        let endpoint = row.endpoint();
        if endpoint != own {
            seen.push(Seen {
                endpoint,
                verdict: node.verdict(endpoint, now),
                since: node
                    .last_arrival(endpoint)
                    .map(|last| now.saturating_sub(last)),
            })?;
        }
    }
    Ok(seen)
}

fn read(count: &AtomicU64) -> u64 {
    count.load(Ordering::SeqCst)
}

// Returns all counts of a node.
fn counters_of(counts: &Counts, traffic: &Traffic, history: &History) -> Counters {
    let folded = history.folded();
    Counters {
        rounds: read(&counts.rounds),
        begun: read(&counts.begun),
        answered: read(&counts.answered),
        taken: read(&counts.taken),
        old: read(&counts.old),
        gap: read(&counts.gap),
        own: read(&counts.own),
        bytes_in: traffic.read(),
        bytes_out: traffic.written(),
        records: folded.saturating_add(history.records().len() as u64),
        folded,
    }
}

// Returns the status of a node at a time, in milliseconds since it started, with these breaks.
fn status_of(
    alloc: Global,
    history: &History,
    counts: &Counts,
    traffic: &Traffic,
    broken: Vec<(u8, u64)>,
    now: u64,
) -> Result<Status, AllocError> {
    let node = history.node();
    let own = node.table().own_entry();
    Ok(Status {
        own: node.table().own(),
        generation: own.generation(),
        cluster: node.settings().cluster().copy()?,
        uptime: now,
        versions_left: (NUMBER_LIMIT - 1).saturating_sub(own.newest().get()),
        counters: counters_of(counts, traffic, history),
        broken,
        seen: seen_by(alloc, node, now)?,
    })
}

/// Returns the members that a node sees.
pub(crate) fn members_seen<N: Name, W: Write + Drop, R: Wait, C: Milliseconds>(
    rt: &R,
    alloc: Global,
    site: &Site<N, W, C>,
) -> Result<Vec<Member>, AllocError> {
    let now = site.clock.now();
    let board = site.shared.lend(rt);
    let members = members_of(alloc, board.history().node(), now);
    MutexGuard::unlock(board);
    members
}

/// Publishes the status of a node; the last one stays if memory is refused.
pub(crate) fn publish<N: Name, W: Write + Drop, R: Wait, C: Milliseconds>(
    rt: &R,
    alloc: Global,
    site: &Site<N, W, C>,
    publishing: &mut Publishing<'_, R>,
) -> Result<(), AllocError> {
    let broken = site.broken_so_far(rt, alloc)?;
    let now = site.clock.now();
    let board = site.shared.lend(rt);
    let status = status_of(
        alloc,
        board.history(),
        &site.counts,
        publishing.traffic.deref(),
        broken,
        now,
    );
    MutexGuard::unlock(board);
    publishing.writer.publish(alloc, status?)
}
