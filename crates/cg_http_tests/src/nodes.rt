//! A sample node: its status, its table and its ring.

use cg_entry::Delta;
use cg_silence::Verdict;
use cg_status::{Counters, Seen, Status};
use cg_table::Table;
use cg_testing::{A, B, C, cluster, delta, endpoint, entry_at_start, generation, state};
use cg_tokens::Ring;
use std::alloc::Global;
use std::test::Fail;

const AT_16: &str = "00000000000000000000000000000010";

/// The status of endpoint A in generation 9.
pub(crate) fn status(alloc: Global) -> Result<Status, Fail> {
    let heard = Seen {
        endpoint: endpoint(B),
        verdict: Verdict::Alive,
        since: Some(12),
    };
    let unheard = Seen {
        endpoint: endpoint(C),
        verdict: Verdict::Unheard,
        since: None,
    };
    Ok(Status {
        own: endpoint(A),
        generation: generation(9),
        cluster: cluster(alloc)?,
        uptime: 5000,
        versions_left: 7,
        counters: Counters {
            rounds: 1,
            begun: 2,
            answered: 3,
            taken: 4,
            old: 5,
            gap: 6,
            own: 7,
            bytes_in: 8,
            bytes_out: 9,
            records: 10,
            folded: 11,
        },
        broken: vec![in alloc; (14, 2)]?,
        seen: vec![in alloc; heard, unheard]?,
    })
}

// What endpoint B sends of itself: it has one token, and this load.
fn delta_of(alloc: Global, load: &str) -> Result<Delta, Fail> {
    let states = vec![in alloc;
        state(alloc, 1, 2, "NORMAL")?,
        state(alloc, 2, 3, AT_16)?,
        state(alloc, 3, 4, load)?,
    ]?;
    delta((4, 0, 1), states)
}

/// The table of endpoint A, which holds an entry of endpoint B with this load.
pub(crate) fn table(alloc: Global, load: &str) -> Result<Table, Fail> {
    let table = Table::new(alloc, endpoint(A), entry_at_start(alloc, 9))?;
    let delta = delta_of(alloc, load)?;
    Ok(table.put_delta(alloc, endpoint(B), &delta)?.0)
}

/// The ring of that table.
pub(crate) fn ring_of(alloc: Global) -> Result<Ring, Fail> {
    Ok(Ring::of_table(alloc, &table(alloc, "1")?)?)
}
