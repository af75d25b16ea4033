//! The answering of requests over HTTP.

ghost use Rattle.std.specs.Prelude.{◌≡◌};
ghost use Rattle.cg_web.specs.Requests.{DoneRequests};
ghost use Rattle.cg_agent.specs.Worked.{LeftByRequests};

use crate::publishing::StatusReader;
use crate::site::Site;
use cg_ahead_seats::AheadGate;
use cg_locked::{Name, Seat};
use cg_status::{Status, is_healthy};
use cg_views::Pass;
use cg_web::{Watch, Web, answer_connection};
use cg_workers::{Listen, Milliseconds};
use std::alloc::Global;
use std::hash::RandomState;
use std::io::{Read, Write};
use std::random::RandomSource;
use std::sync::{Arc, Wait};

/// The tools of a worker who answers requests over HTTP: what it reads, whether requests may write, and the interval of
/// rounds.
#[derive(Drop)]
pub(crate) struct Browsers<N: Name> {
    pub(crate) pass: Pass<N>,
    pub(crate) status: StatusReader,
    pub(crate) writes: bool,
    pub(crate) interval: u32,
}

// What a worker is shown of the node.
#[derive(Drop)]
struct Watcher<'s, N: Name, W: Write, C> {
    site: &'s Site<N, W, C>,
    status: StatusReader,
    interval: u32,
}

impl<'s, N: Name, W: Write + Drop, C: Milliseconds> Watch for Watcher<'s, N, W, C> {
    fn status(&mut self) -> Option<Arc<Status, Global>> {
        self.status.read()
    }

    fn is_healthy(&self) -> bool {
        is_healthy(
            self.site.counts.last_round(),
            self.interval,
            self.site.clock.now(),
        )
    }
}

// Answers the requests of a connection. If it breaks off, the next one is not the worse for it.
fn answer_one<'s, N: Name, W: Write + Drop, R, C: Milliseconds, I: Read, O: Write>(
    rt: &R,
    web: &mut Web<'s, N, W, R, Watcher<'s, N, W, C>>,
    reader: &mut I,
    writer: &mut O,
)
where
    R: Wait + RandomSource,
    ensures { DoneRequests N.start N.opening.own web.old.gate web.new.gate }
{
    if let Ok(keys) = RandomState::new(rt) {
        let _ = answer_connection(web, keys, reader, writer);
    }
}

// Answers the requests of the next connection. Returns `false` if none comes any more.
fn serve_next<'s, N: Name, W: Write + Drop, R, L: Listen, C: Milliseconds>(
    rt: &'s R,
    site: &'s Site<N, W, C>,
    web: &mut Web<'s, N, W, R, Watcher<'s, N, W, C>>,
    listener: &mut L,
) -> bool
where
    R: Wait + RandomSource,
    ensures { DoneRequests N.start N.opening.own web.old.gate web.new.gate }
{
    let Ok(Some((mut reader, mut writer))) = listener.accept() else {
        return false;
    };
    answer_one(rt, web, &mut reader, &mut writer);
    if web.is_stopping() {
        site.end();
    }
    true
}

// Answers the requests of connections, until the node is to end or no connection comes any more.
fn serve_at<'s, N: Name, W: Write + Drop, R, L: Listen, C: Milliseconds>(
    rt: &'s R,
    site: &'s Site<N, W, C>,
    web: &mut Web<'s, N, W, R, Watcher<'s, N, W, C>>,
    listener: &mut L,
)
where
    R: Wait + RandomSource,
    ensures { DoneRequests N.start N.opening.own web.old.gate web.new.gate }
{
    for _ in rt.forever() {
        if site.is_ending() || !serve_next(rt, site, web, listener) {
            break;
        }
    }
}

/// Answers the requests of connections from a seat, until the node is to end or no connection comes any more; the node
/// goes on without.
pub(crate) fn serve_all<'s, N: Name, W: Write + Drop, R, L: Listen + Drop, C: Milliseconds>(
    rt: &'s R,
    alloc: Global,
    site: &'s Site<N, W, C>,
    seat: Seat<N>,
    listener: L,
    tools: Browsers<N>,
) -> Seat<N>
where
    R: Wait + RandomSource,
    ensures parts { result.parts ≡ seat.parts }
    ensures left { LeftByRequests N.start N.opening.own seat result }
{
    let Browsers {
        pass,
        status,
        writes,
        interval,
    } = tools;
    let mut listener = listener;
    let watch = Watcher {
        site,
        status,
        interval,
    };
    let gate = AheadGate::new(rt, &site.shared, seat);
    let mut web = Web::new(alloc, gate, pass, watch, writes);
    serve_at(rt, site, &mut web, &mut listener);
    web.into_seat()
}
