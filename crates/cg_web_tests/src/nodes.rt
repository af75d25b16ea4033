//! A node, and one connection to its server.

ghost use Rattle.std.specs.Prelude.{◌≡◌, true, []};

use cg_ahead_seats::{AheadGate, SharedAhead};
use cg_history::History;
use cg_links::Counted;
use cg_locked::{Fresh, Name};
use cg_status::{Counters, Status};
use cg_table::Table;
use cg_testing::{A, cluster, endpoint, generation, settings};
use cg_views::{Opened, views};
use cg_web::{Watch, Web, answer_connection};
use cg_write_ahead::Ended;
use std::alloc::Global;
use std::hash::RandomState;
use std::marker::Brand;
use std::sync::{Arc, Wait};
use std::test::Fail;

/// The status that a node shows, and whether its rounds go on.
#[derive(Drop)]
struct Shown {
    status: Option<Arc<Status, Global>>,
    is_healthy: bool,
}

impl Watch for Shown {
    fn status(&mut self) -> Option<Arc<Status, Global>> {
        match &self.status {
            Some(status) => Arc::try_clone(status).ok(),
            None => None,
        }
    }

    fn is_healthy(&self) -> bool {
        self.is_healthy
    }
}

/// A way to serve a node: writes are allowed or not, and it has begun its rounds or not.
#[derive(Clone, Copy)]
pub(crate) struct Serving {
    pub writes: bool,
    pub has_begun: bool,
}

/// The outcome of a connection: the bytes of its answers, whether the node is to stop, and the number of its records.
#[derive(Drop)]
pub(crate) struct Left {
    pub text: Vec<u8>,
    pub is_stopping: bool,
    pub records: u64,
}

// The status of endpoint A in generation 9, which has done nothing.
fn status(alloc: Global) -> Result<Status, Fail> {
    Ok(Status {
        own: endpoint(A),
        generation: generation(9),
        cluster: cluster(alloc)?,
        uptime: 5,
        versions_left: 7,
        counters: Counters {
            rounds: 0,
            begun: 0,
            answered: 0,
            taken: 0,
            old: 0,
            gap: 0,
            own: 0,
            bytes_in: 0,
            bytes_out: 0,
            records: 0,
            folded: 0,
        },
        broken: Vec::new(alloc),
        seen: Vec::new(alloc),
    })
}

fn shown_of(alloc: Global, has_begun: bool) -> Result<Shown, Fail> {
    let status = if has_begun {
        Some(Arc::new(alloc, status(alloc)?)?)
    } else {
        None
    };
    Ok(Shown {
        status,
        is_healthy: has_begun,
    })
}

fn left_by<N: Name, R: Wait>(
    rt: &R,
    alloc: Global,
    opened: Opened,
    table: Table,
    history: History,
    fresh: Fresh,
    keys: RandomState,
    serving: Serving,
    input: &[u8],
) -> Result<Left, Fail>
    requires folds { N.folds ≡ true }
    requires views { (opened ≡ N.book) × (table ≡ N.opening) }
    requires history { (history.records ≡ []) × (history.folded ≡ 0) × (history.base ≡ N.start)
        × (history.base.table ≡ table) }
    requires fresh { (fresh.name ≡ N.name) × (fresh.parts ≡ N.parts) × (fresh.log ≡ N.log) × (N.parts ≡ 1) }
{
    let watch = shown_of(alloc, serving.has_begun)?;
    let (publisher, mut passes) = views::<N>(alloc, opened, table, 1)?;
    let sink = Counted::new(Vec::new(alloc));
    let (shared, mut seats) = SharedAhead::begin(
        rt, alloc, history, publisher, fresh, 1, sink, 10,
    )?;
    let gate = AheadGate::new(rt, &shared, seats.pop().unwrap());
    let mut web = Web::new(alloc, gate, passes.pop().unwrap(), watch, serving.writes);
    let mut reader = input;
    let mut text = Vec::new(alloc);
    let _ = answer_connection(&mut web, keys, &mut reader, &mut text);
    let is_stopping = web.is_stopping();
    seats.push_reserved(web.into_seat());
    let Ended { history, .. } = shared.finish(rt, seats);
    Ok(Left {
        text,
        is_stopping,
        records: history.records().len() as u64,
    })
}

/// Serves a connection with these bytes to endpoint A in generation 9.
pub(crate) fn left_after<R: Wait>(
    rt: &R,
    alloc: Global,
    keys: RandomState,
    serving: Serving,
    input: &[u8],
) -> Result<Left, Fail> {
    let history = History::begin(alloc, endpoint(A), generation(9), settings(alloc)?)?;
    let table = history.node().table().copy(alloc)?;
    left_by::<Brand, R>(
        rt,
        alloc,
        Opened::new(),
        table,
        history,
        Fresh::new(1),
        keys,
        serving,
        input,
    )
}
