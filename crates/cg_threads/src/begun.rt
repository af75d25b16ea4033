//! The values made for the workers before they start.

ghost use Rattle.std.specs.Prelude.{◌≡◌, ◌≤◌, [], vec_capacity, IfOk};
ghost use Rattle.cg_workers.specs.Ends.{AreEnds, put_by, taken_by};
ghost use Rattle.cg_views.specs.Lists.{opened_with};
ghost use Rattle.cg_threads.specs.Seats.{AreWorkers, AreUnused, parts_of};

use crate::callers::WORKERS;
use crate::seats::{Seats, given};
use cg_history::History;
use cg_locked::{Fresh, Name, Seat, Shared};
use cg_table::Table;
use cg_views::{Opened, Pass, Publisher, views};
use cg_workers::{Putting, Taking, rounds};
use std::alloc::{AllocError, Global};
use std::sync::Wait;

/// The values that a node's workers begin with.
pub struct Begun<N: Name> {
    /// The node's history and views, behind a lock.
    pub shared: Shared<N>,
    /// The workers' seats at the history and the views.
    pub seats: Seats<N>,
    /// An empty list with room for the four seats, which are put back into it.
    pub list: Vec<Seat<N>>,
    /// The pass with which the operator reads the views.
    pub pass: Pass<N>,
    /// The ends of the channel of rounds, from the ticker to the sender.
    pub ends: (Putting, Taking),
}

// The views of a node's table with the operator's pass, and the ends of the channel of rounds.
fn ways<N: Name>(
    alloc: Global,
    opened: Opened,
    table: Table,
) -> Result<(Publisher<N>, Pass<N>, (Putting, Taking)), AllocError>
    requires views { (opened ≡ N.book) × (table ≡ N.opening) }
    ensures publisher { IfOk result (λ w. w.0 ≡ opened_with N.opening) }
    ensures pass { IfOk result (λ w. w.1 ≡ []) }
    ensures ends { IfOk result (λ w. AreEnds w.2.0 w.2.1) }
    ensures none { IfOk result (λ w. (put_by w.2.0 ≡ []) × (taken_by w.2.1 ≡ [])) }
{
    let ends = rounds(alloc)?;
    let (publisher, mut passes) = views::<N>(alloc, opened, table, 1)?;
    Ok((publisher, passes.pop().unwrap(), ends))
}

/// Makes the values that the workers of a node begin with. The node's name fixes its ledger, its views and the start of
/// its history. The history has no records yet. `AllocError` if there is no memory for the values; then the history is
/// gone.
pub fn prepare<N: Name, R: Wait>(
    rt: &R,
    alloc: Global,
    opened: Opened,
    table: Table,
    history: History,
    fresh: Fresh,
) -> Result<Begun<N>, AllocError>
    requires views { (opened ≡ N.book) × (table ≡ N.opening) }
    requires history { (history.records ≡ []) × (history.folded ≡ 0) × (history.base ≡ N.start)
        × (history.base.table ≡ table) }
    requires fresh { (fresh.name ≡ N.name) × (fresh.parts ≡ N.parts) × (fresh.log ≡ N.log) × (N.parts ≡ 4) }
    ensures callers { IfOk result (λ b. AreWorkers b.seats) }
    ensures amounts { IfOk result (λ b. AreUnused b.seats) }
    ensures parts { IfOk result (λ b. parts_of b.seats ≡ N.parts) }
    ensures list { IfOk result (λ b. (b.list.items ≡ []) × (4 ≤ vec_capacity b.list)) }
    ensures pass { IfOk result (λ b. b.pass ≡ []) }
    ensures ends { IfOk result (λ b. AreEnds b.ends.0 b.ends.1) }
    ensures none { IfOk result (λ b. (put_by b.ends.0 ≡ []) × (taken_by b.ends.1 ≡ [])) }
{
    let (publisher, pass, ends) = ways::<N>(alloc, opened, table)?;
    let (shared, seats) = Shared::begin(rt, alloc, history, publisher, fresh, WORKERS)?;
    let (seats, list) = given(seats);
    Ok(Begun {
        shared,
        seats,
        list,
        pass,
        ends,
    })
}
