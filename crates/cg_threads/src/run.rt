//! The run of a node.

ghost use Rattle.std.specs.Prelude.{◌≡◌, [], false, IfOk, IfErr};
ghost use Rattle.cg_threads.specs.Worked.{HaveWorked};
ghost use Rattle.cg_threads.specs.Ran.{IsRun, IsNotRun};

use crate::begun::{Begun, prepare};
use crate::callers::WORKERS;
use crate::finishing::gather;
use crate::parts::Parts;
use crate::ran::{NotRun, Ran};
use crate::scoped::work;
use crate::site::Site;
use crate::tools::Tools;
use cg_history::History;
use cg_locked::{Fresh, Name, Operate};
use cg_table::Table;
use cg_types::Fault;
use cg_views::Opened;
use cg_workers::{Dial, Listen, Milliseconds, Turns};
use rand_core::Rng;
use std::alloc::Global;
use std::marker::Brand;
use std::rt::Clock;
use std::sync::{OnceLock, Wait};
use std::thread::Threads;

// Runs a node whose name fixes its ledger, its views and the start of its history.
fn run_named<
    N: Name + Send + Sync,
    R: Threads + Wait + Clock + Sync,
    L: Listen + Drop,
    D: Dial + Drop + Send,
    C: Milliseconds + Drop + Sync,
    G: Rng + Drop + Send,
    O: Operate + Drop + Send,
>(
    rt: &R,
    alloc: Global,
    opened: Opened,
    table: Table,
    history: History,
    fresh: Fresh,
    parts: Parts<L, D, C, G, O>,
    turns: Turns,
) -> Result<Ran, NotRun>
where
    D::Reader: Send,
    D::Writer: Send,
    requires views { (opened ≡ N.book) × (table ≡ N.opening) }
    requires history { (history.records ≡ []) × (history.folded ≡ 0) × (history.base ≡ N.start)
        × (history.base.table ≡ table) }
    requires whole { N.folds ≡ false }
    requires fresh { (fresh.name ≡ N.name) × (fresh.parts ≡ N.parts) × (fresh.log ≡ N.log) × (N.parts ≡ 4) }
    ensures ran { IfOk result (λ r. IsRun history.base (HaveWorked history.base L.Reader.remaining L.Writer.contents L.accepts
        D.Reader.remaining D.Writer.contents D.dials O.works (C.shows parts.clock) parts.listener parts.dialer
        (G.stream parts.generator) parts.operator turns) r.history r.rounds.items) }
    ensures not { IfErr result (IsNotRun history.base (HaveWorked history.base L.Reader.remaining L.Writer.contents L.accepts
        D.Reader.remaining D.Writer.contents D.dials O.works (C.shows parts.clock) parts.listener parts.dialer
        (G.stream parts.generator) parts.operator turns)) }
{
    let Ok(begun) = prepare::<N, R>(rt, alloc, opened, table, history, fresh) else {
        return Err(NotRun::Unstarted(Fault::OutOfMemory));
    };
    let Begun {
        shared,
        seats,
        list,
        pass,
        ends,
    } = begun;
    let Parts {
        listener,
        dialer,
        clock,
        generator,
        operator,
    } = parts;
    let tools = Tools {
        listener,
        dialer,
        generator,
        operator,
    };
    let site = Site {
        shared,
        clock,
        go: OnceLock::new(),
    };
    let work = work(rt, alloc, &site, seats, pass, ends, tools, turns);
    let Site {
        shared,
        clock: _clock,
        go: _go,
    } = site;
    gather(rt, shared, list, work)
}

/// Runs a node until its workers have ended, and takes its history back.
///
/// The receiver answers up to `exchanges` connections. The ticker begins `rounds` rounds, `interval` milliseconds
/// apart, and the sender sends them. The operator runs to its end. The receiver works in the caller's thread, each of
/// the others in one of its own. An exchange that breaks ends itself alone, a fault of the listener or of the operator
/// that worker alone. If the sender or the ticker stops for want of memory, the other ends too, with fewer rounds. No
/// worker begins before all are started. The call waits until all have ended.
///
/// `history` has no records yet, and none was folded; nor is one folded in the history that comes back. `Unstarted`,
/// with OutOfMemory, if the copy of its table, the views, the board, the channel or a thread was refused. Then nothing
/// was done, and the history is gone. `Unconfirmed` if the history does not confirm all receipts.
///
/// The clauses say by which of the parts each worker did its work, and in how many turns, and that the history has one
/// record for each of their receipts. They do not say that the ticker pauses.
pub fn run_node<
    R: Threads + Wait + Clock + Sync,
    L: Listen + Drop,
    D: Dial + Drop + Send,
    C: Milliseconds + Drop + Sync,
    G: Rng + Drop + Send,
    O: Operate + Drop + Send,
>(
    rt: &R,
    alloc: Global,
    history: History,
    parts: Parts<L, D, C, G, O>,
    turns: Turns,
) -> Result<Ran, NotRun>
where
    D::Reader: Send,
    D::Writer: Send,
    requires { (history.records ≡ []) × (history.folded ≡ 0) }
    ensures ran { IfOk result (λ r. IsRun history.base (HaveWorked history.base L.Reader.remaining L.Writer.contents L.accepts
        D.Reader.remaining D.Writer.contents D.dials O.works (C.shows parts.clock) parts.listener parts.dialer
        (G.stream parts.generator) parts.operator turns) r.history r.rounds.items) }
    ensures not { IfErr result (IsNotRun history.base (HaveWorked history.base L.Reader.remaining L.Writer.contents L.accepts
        D.Reader.remaining D.Writer.contents D.dials O.works (C.shows parts.clock) parts.listener parts.dialer
        (G.stream parts.generator) parts.operator turns)) }
{
    let Ok(table) = history.base().table().copy(alloc) else {
        return Err(NotRun::Unstarted(Fault::OutOfMemory));
    };
    run_named::<Brand, R, L, D, C, G, O>(
        rt,
        alloc,
        Opened::new(),
        table,
        history,
        Fresh::new(WORKERS as u64),
        parts,
        turns,
    )
}
