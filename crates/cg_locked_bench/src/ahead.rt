//! Beats done on a board that writes its journal ahead.

ghost use Rattle.std.specs.Prelude.{◌≡◌, true, []};

use crate::boards::counted;
use crate::counts::{Counts, print_line};
use crate::inputs::{Work, event, filling, new_history};
use anyhow::Result;
use cg_ahead_seats::SharedAhead;
use cg_core::Event;
use cg_history::History;
use cg_links::Counted;
use cg_locked::{Fresh, Name, Seat};
use cg_table::Table;
use cg_views::{Opened, views};
use cg_write_ahead::Ended;
use std::alloc::Global;
use std::io;
use std::io::Write;
use std::marker::Brand;
use std::rt::Clock;
use std::sync::Wait;
use std::time::Instant;

// A journal's writer that counts its bytes, and keeps none of them.
#[derive(Drop)]
struct Tally {
    bytes: u64,
}

impl Write for Tally {
    fn write(&mut self, buf: &[u8]) -> io::Result<usize> {
        self.bytes = self.bytes.saturating_add(buf.len() as u64);
        Ok(buf.len())
    }

    fn flush(&mut self) -> io::Result<()> {
        Ok(())
    }
}

// Applies an event. Returns `true` if it was done.
fn submit_one<N: Name, R: Wait>(
    rt: &R,
    alloc: Global,
    shared: &SharedAhead<N, Tally>,
    seat: &mut Seat<N>,
    event: Result<Event>,
) -> bool
    ensures { seat.new.parts ≡ seat.old.parts }
{
    match event {
        Ok(event) => shared.submit(rt, alloc, seat, event).is_ok(),
        Err(_) => false,
    }
}

// Beats again and again.
fn submit_all<N: Name, R: Wait>(
    rt: &R,
    alloc: Global,
    shared: &SharedAhead<N, Tally>,
    seat: &mut Seat<N>,
    counts: Counts,
)
    ensures { seat.new.parts ≡ seat.old.parts }
{
    for _ in 0..counts.events {
        if !submit_one(rt, alloc, shared, seat, event(alloc, Work::Beat, counts)) {
            break;
        }
    }
}

// Fills a board that keeps this many records, beats on it, and returns the number of records and the time at which the
// beats began. There is none if none was written.
fn records_by<N: Name, R: Wait + Clock>(
    rt: &R,
    alloc: Global,
    opened: Opened,
    table: Table,
    history: History,
    fresh: Fresh,
    keep: usize,
    counts: Counts,
) -> Result<(u64, Instant)>
    requires folds { N.folds ≡ true }
    requires views { (opened ≡ N.book) × (table ≡ N.opening) }
    requires history { (history.records ≡ []) × (history.folded ≡ 0) × (history.base ≡ N.start)
        × (history.base.table ≡ table) }
    requires fresh { (fresh.name ≡ N.name) × (fresh.parts ≡ N.parts) × (fresh.log ≡ N.log) × (N.parts ≡ 1) }
{
    let (publisher, _passes) = views::<N>(alloc, opened, table, 1)?;
    let sink = Counted::new(Tally { bytes: 0 });
    let (shared, mut seats) = SharedAhead::begin(
        rt, alloc, history, publisher, fresh, 1, sink, keep,
    )?;
    let mut seat = seats.pop().unwrap();
    let _filled = submit_one(rt, alloc, &shared, &mut seat, filling(alloc, counts));
    let start = Instant::now(rt);
    submit_all(rt, alloc, &shared, &mut seat, counts);
    seats.push_reserved(seat);
    let Ended { history, sink, .. } = shared.finish(rt, seats);
    let records = match sink.into_link().bytes {
        0 => 0,
        _ => counted(&history),
    };
    Ok((records, start?))
}

/// Measures beats on a board of its own that keeps this many records.
pub(crate) fn measure_ahead<R: Wait + Clock + Print>(
    rt: &R,
    alloc: Global,
    keep: usize,
    counts: Counts,
    name: &str,
) -> Result<()> {
    let history = new_history(alloc)?;
    let table = history.node().table().copy(alloc)?;
    let (records, start) = records_by::<Brand, R>(
        rt,
        alloc,
        Opened::new(),
        table,
        history,
        Fresh::new(1),
        keep,
        counts,
    )?;
    print_line(rt, name, counts, records, start)
}
