//! The members of a cluster, as a node sees them, and the lines that tell of their changes.

use cg_core::Node;
use cg_silence::Verdict;
use cg_types::{Endpoint, Generation};
use std::alloc::{AllocError, Global};
use std::io::Print;

/// A member, as a node sees it.
#[derive(Clone, Copy, Drop)]
pub(crate) struct Member {
    endpoint: Endpoint,
    generation: Generation,
    is_silent: bool,
}

/// Returns the members that a node sees at a time, rising by endpoint, without itself.
pub(crate) fn members_of(alloc: Global, node: &Node, now: u64) -> Result<Vec<Member>, AllocError> {
    let table = node.table();
    let own = table.own();
    let mut members = Vec::with_capacity(alloc, table.owners().len())?;
    for row in table.owners() {
        if row.endpoint() != own {
            members.push(Member {
                endpoint: row.endpoint(),
                generation: row.value().generation(),
                is_silent: node.verdict(row.endpoint(), now) == Verdict::Silent,
            })?;
        }
    }
    Ok(members)
}

// Prints the lines of a member that was seen before.
fn tell_again<R: Print>(rt: &R, before: &Member, after: &Member) {
    let Member {
        endpoint,
        generation,
        is_silent,
    } = *after;
    if generation != before.generation {
        let _ = println!(rt; "restarted {endpoint} {}", generation.get());
    }
    if is_silent && !before.is_silent {
        let _ = println!(rt; "silent {endpoint}");
    }
    if before.is_silent && !is_silent {
        let _ = println!(rt; "alive {endpoint}");
    }
}

/// Prints a line for each change between two lists of members, of which none leaves.
pub(crate) fn tell_changes<R: Print>(rt: &R, before: &[Member], after: &[Member]) {
    for member in after {
        match before.iter().find(|it| it.endpoint == member.endpoint) {
            Some(old) => tell_again(rt, old, member),
            None => {
                let Member {
                    endpoint,
                    generation,
                    ..
                } = *member;
                let _ = println!(rt; "joined {endpoint} {}", generation.get());
            }
        }
    }
}
