//! The run of a node that runs until it is stopped.

ghost use Rattle.std.specs.Prelude.{◌≡◌, ◌+◌, ◌≤◌, [], true, vec_len, vec_capacity, IfOk, IfSome};
ghost use Rattle.std.specs.List.{sum_by};
ghost use Rattle.cg_links.specs.Counted.{link_of};
ghost use Rattle.cg_settings_file.specs.declared.limits.TheConstants.{RECEIVER_LIMIT};
ghost use Rattle.cg_views.specs.Lists.{opened_with};
ghost use Rattle.cg_agent.specs.declared.limits.TheConstants.{WEB_LIMIT};
ghost use Rattle.cg_agent.specs.Lives.{IsRunOf};
ghost use Rattle.cg_agent.specs.Seats.{amount_read, parts_read, seats_for};
ghost use Rattle.cg_agent.specs.Worked.{SeatWorked};

use crate::parts::{Parts, Plan};
use crate::posts::{Post, posts_at};
use crate::publishing::{Publishing, StatusReader, StatusWriter, published};
use crate::reading::Reading;
use crate::rounds::Rounds;
use crate::seats::take_last;
use crate::site::Site;
use crate::work::{Beside, work};
use cg_ahead_seats::SharedAhead;
use cg_history::History;
use cg_locked::{Fresh, Name, Seat};
use cg_settings_file::AgentInput;
use cg_table::Table;
use cg_types::{Endpoint, Fault};
use cg_views::{Opened, Pass, Publisher, views};
use cg_workers::{Dial, Listen, Milliseconds, Traffic};
use cg_write_ahead::Ended;
use rand_core::Rng;
use std::alloc::{AllocError, Global};
use std::fs::OpenFile;
use std::io::{Eprint, Input, Print, Write};
use std::marker::Brand;
use std::random::RandomSource;
use std::rt::Clock;
use std::sync::atomic::Ordering;
use std::sync::{Arc, Wait};
use std::thread::Threads;

/// The end of a node that ran.
#[derive(Drop)]
pub struct Ran<W> {
    /// Its history, the writer of its journal, and whether a write failed.
    pub ended: Ended<W>,
    /// `false` if its journal's file could not be synced at the end.
    pub is_synced: bool,
    /// `true` if it ended since no further connection came.
    pub is_deaf: bool,
}

// The seats of a node's workers.
struct Seats<N: Name> {
    posts: Vec<Seat<N>>,
    ticker: Seat<N>,
    reading: Reading<N>,
}

// Returns the number of seats: one for each post, one for the rounds, and one for an operator's lines.
fn seats_of(posts: usize, input: AgentInput) -> usize
    requires { posts ≤ RECEIVER_LIMIT + WEB_LIMIT }
    ensures { result ≡ seats_for posts input }
{
    match input {
        AgentInput::Lines => posts + 2,
        _ => posts + 1,
    }
}

// Gives the seats to the workers: the first ones to the posts, the next one to the rounds, and the last one to an
// operator's lines, with a pass.
fn give_out<N: Name>(seats: Vec<Seat<N>>, pass: Pass<N>, input: AgentInput) -> Seats<N>
    requires seats { seats_for 0 input ≤ vec_len seats }
    requires amounts { sum_by (λ s. s.amount) seats.items ≡ 0 }
    ensures seats { vec_len seats ≡ seats_for (vec_len result.posts) input }
    ensures amounts { (sum_by (λ s. s.amount) result.posts.items ≡ 0) × (result.ticker.amount ≡ 0)
        × (amount_read result.reading ≡ 0) }
    ensures parts { sum_by (λ s. s.parts) result.posts.items + result.ticker.parts + parts_read result.reading
        ≡ sum_by (λ s. s.parts) seats.items }
{
    let mut posts = seats;
    let reading = match input {
        AgentInput::Ignore => Reading::Nothing,
        AgentInput::Stop => Reading::End,
        AgentInput::Lines => Reading::Lines(take_last(&mut posts), pass),
    };
    let ticker = take_last(&mut posts);
    Seats {
        posts,
        ticker,
        reading,
    }
}

// The views of a node's table, a pass that reads them, and one more for each worker who answers requests over HTTP.
fn viewed<N: Name>(
    alloc: Global,
    opened: Opened,
    table: Table,
    web: usize,
) -> Result<(Publisher<N>, Pass<N>, Vec<Pass<N>>), AllocError>
    requires views { (opened ≡ N.book) × (table ≡ N.opening) }
    requires web { web ≤ WEB_LIMIT }
    ensures publisher { IfOk result (λ v. v.0 ≡ opened_with N.opening) }
    ensures passes { IfOk result (λ v. vec_len v.2 ≡ web) }
{
    let (publisher, mut passes) = views::<N>(alloc, opened, table, web + 1)?;
    let pass = passes.pop().unwrap();
    Ok((publisher, pass, passes))
}

// The publisher of the status and a reader of it for each worker who answers requests over HTTP, if there are some.
fn published_for<'a, R: Wait>(
    rt: &'a R,
    alloc: Global,
    web: usize,
) -> Result<(Option<StatusWriter<'a, R>>, Vec<StatusReader>), AllocError>
    requires { web ≤ WEB_LIMIT }
    ensures { IfOk result (λ p. vec_len p.1 ≡ web) }
{
    if web == 0 {
        return Ok((None, Vec::new(alloc)));
    }
    let (writer, readers) = published(rt, alloc, web)?;
    Ok((Some(writer), readers))
}

// The publishing of the status, if it has a writer.
fn publishing_by<'a, R: Wait>(
    writer: Option<StatusWriter<'a, R>>,
    traffic: Arc<Traffic, Global>,
) -> Option<Publishing<'a, R>> {
    match writer {
        Some(writer) => Some(Publishing { writer, traffic }),
        None => None,
    }
}

// The endpoints to which a connection is made at the end for each worker at a post.
fn woken_of(
    alloc: Global,
    plan: Plan,
    receivers: usize,
    web: usize,
) -> Result<Vec<(Endpoint, usize)>, AllocError> {
    let mut woken = vec![in alloc; (plan.own, receivers)]?;
    if let Some(at) = plan.http {
        woken.push((at, web))?;
    }
    Ok(woken)
}

// What a node is given before its board begins: the views with their passes, the status with its readers, the endpoints
// to wake, and lists with room for the posts and for the seats that come back.
struct Given<'a, N: Name, R: Wait, L: Drop> {
    publisher: Publisher<N>,
    pass: Pass<N>,
    passes: Vec<Pass<N>>,
    status: Option<StatusWriter<'a, R>>,
    readers: Vec<StatusReader>,
    woken: Vec<(Endpoint, usize)>,
    room: Vec<Post<N, L>>,
    back: Vec<Seat<N>>,
}

// Gives a node what it needs before its board begins.
fn give<'a, N: Name, R: Wait, L: Drop>(
    rt: &'a R,
    alloc: Global,
    opened: Opened,
    table: Table,
    plan: Plan,
    receivers: usize,
    web: usize,
) -> Result<Given<'a, N, R, L>, AllocError>
    requires views { (opened ≡ N.book) × (table ≡ N.opening) }
    requires receivers { receivers ≤ RECEIVER_LIMIT }
    requires web { web ≤ WEB_LIMIT }
    ensures publisher { IfOk result (λ g. g.publisher ≡ opened_with N.opening) }
    ensures tools { IfOk result (λ g. (vec_len g.passes ≡ web) × (vec_len g.readers ≡ web)) }
    ensures room { IfOk result (λ g. (vec_len g.room ≡ 0) × (receivers + web ≤ vec_capacity g.room)) }
    ensures back { IfOk result (λ g. (g.back.items ≡ []) × (receivers + web + 2 ≤ vec_capacity g.back)) }
{
    let woken = woken_of(alloc, plan, receivers, web)?;
    let (status, readers) = published_for(rt, alloc, web)?;
    let room = Vec::with_capacity(alloc, receivers + web)?;
    let back = Vec::with_capacity(alloc, receivers + web + 2)?;
    let (publisher, pass, passes) = viewed::<N>(alloc, opened, table, web)?;
    Ok(Given {
        publisher,
        pass,
        passes,
        status,
        readers,
        woken,
        room,
        back,
    })
}

// Has the journal's file on the disk, if there is one. Returns `false`, and prints a line, if that fails.
fn is_synced<R: Eprint, F: OpenFile>(rt: &R, file: &Option<F>) -> bool {
    let Some(file) = file else {
        return true;
    };
    match file.sync_all() {
        Ok(()) => true,
        Err(error) => {
            let _ = eprintln!(rt; "cg agent: the journal can't be synced: {error}");
            false
        }
    }
}

// Runs a node whose name fixes its ledger, its views and the start of its history.
fn run_named<N: Name + Send + Sync, R, L, D, C, G, W, F>(
    rt: &R,
    alloc: Global,
    opened: Opened,
    table: Table,
    history: History,
    fresh: Fresh,
    parts: Parts<L, D, C, G, W, F>,
    plan: Plan,
) -> Result<Ran<W>, Fault>
where
    R: Threads + Wait + Clock + RandomSource + Sync + Input + Print + Eprint,
    L: Listen + Drop + Send,
    D: Dial + Drop + Send,
    C: Milliseconds + Drop + Sync,
    G: Rng + Drop + Send,
    W: Write + Drop + Send,
    F: OpenFile + Drop + Send,
    D::Reader: Send,
    D::Writer: Send,
    L::Reader: Send,
    L::Writer: Send,
    requires folds { N.folds ≡ true }
    requires views { (opened ≡ N.book) × (table ≡ N.opening) }
    requires history { (history.records ≡ []) × (history.folded ≡ 0) × (history.base ≡ N.start)
        × (history.base.table ≡ table) }
    requires fresh { (fresh.name ≡ N.name) × (fresh.parts ≡ N.parts) × (fresh.log ≡ N.log)
        × (N.parts ≡ seats_for (vec_len parts.listeners + vec_len parts.web) plan.input) }
    requires listeners { (vec_len parts.listeners ≤ RECEIVER_LIMIT) × (vec_len parts.web ≤ WEB_LIMIT) }
    requires sink { IfSome (W.contents (link_of parts.sink)) (λ bytes. bytes ≡ []) }
    ensures { IfOk result (λ r. IsRunOf W.contents history.base (SeatWorked history.base history.base.table.own
        L.Reader.remaining L.Writer.contents L.accepts D.Reader.remaining D.Writer.contents D.dials
        (C.shows parts.clock) (G.stream parts.generator) parts.dialer) r.ended) }
{
    let (receivers, web) = (parts.listeners.len(), parts.web.len());
    let Given {
        publisher,
        pass,
        passes,
        status,
        readers,
        woken,
        room,
        back,
    } = give::<N, R, L>(rt, alloc, opened, table, plan, receivers, web)?;
    let count = receivers + web;
    let Parts {
        listeners,
        web,
        dialer,
        waker,
        clock,
        generator,
        sink,
        files,
        traffic,
    } = parts;
    let (file, last_file) = match files {
        Some((file, last_file)) => (Some(file), Some(last_file)),
        None => (None, None),
    };
    let posts = posts_at(room, listeners, web, passes, readers, plan);
    let (shared, made) = SharedAhead::begin(
        rt,
        alloc,
        history,
        publisher,
        fresh,
        seats_of(count, plan.input),
        sink,
        plan.keep as usize,
    )?;
    let Seats {
        posts: seats,
        ticker,
        reading,
    } = give_out(made, pass, plan.input);
    let site = Site::new(shared, clock);
    let beside = Beside {
        ticker,
        rounds: Rounds {
            dialer,
            generator,
            interval: plan.interval,
            file,
        },
        waker,
        woken,
        reading,
    };
    let _ = println!(rt; "ready {} {}", plan.own, plan.generation.get());
    let publishing = publishing_by(status, traffic);
    let back = work(rt, alloc, &site, seats, posts, beside, publishing, back);
    site.tell_broken(rt);
    let Site {
        shared,
        clock: _clock,
        is_ending: _is_ending,
        is_deaf,
        breaks: _breaks,
        counts: _counts,
    } = site;
    let ended = shared.finish(rt, back);
    Ok(Ran {
        ended,
        is_synced: is_synced(rt, &last_file),
        is_deaf: is_deaf.load(Ordering::SeqCst),
    })
}

/// Runs a node until it is stopped: by its standard input, as the plan says, by a request over HTTP, or since no further
/// connection comes, or since its journal can't be written.
///
/// A thread for each listener answers connections, of peers or over HTTP; another begins a round each interval and sends it, and prints a line
/// for each change of a member. Lines of an operator are carried out in this thread. `history` has no records yet.
/// `OutOfMemory` if memory for the board is refused, and `WriteFault` if the first line of the journal can't be written:
/// then nothing was done. Else the history that is left began as this one. It has counted as many records as its workers
/// did events, each of which was confirmed at once, and is a fold of records whose text the journal's writer holds, if
/// it tells what it holds. The clauses say what each worker did. There are at most `RECEIVER_LIMIT` listeners of peers, and
/// `WEB_LIMIT` over HTTP.
pub fn run_agent<R, L, D, C, G, W, F>(
    rt: &R,
    alloc: Global,
    history: History,
    parts: Parts<L, D, C, G, W, F>,
    plan: Plan,
) -> Result<Ran<W>, Fault>
where
    R: Threads + Wait + Clock + RandomSource + Sync + Input + Print + Eprint,
    L: Listen + Drop + Send,
    D: Dial + Drop + Send,
    C: Milliseconds + Drop + Sync,
    G: Rng + Drop + Send,
    W: Write + Drop + Send,
    F: OpenFile + Drop + Send,
    D::Reader: Send,
    D::Writer: Send,
    L::Reader: Send,
    L::Writer: Send,
    requires history { (history.records ≡ []) × (history.folded ≡ 0) }
    requires listeners { (vec_len parts.listeners ≤ RECEIVER_LIMIT) × (vec_len parts.web ≤ WEB_LIMIT) }
    requires sink { IfSome (W.contents (link_of parts.sink)) (λ bytes. bytes ≡ []) }
    ensures { IfOk result (λ r. IsRunOf W.contents history.base (SeatWorked history.base history.base.table.own
        L.Reader.remaining L.Writer.contents L.accepts D.Reader.remaining D.Writer.contents D.dials
        (C.shows parts.clock) (G.stream parts.generator) parts.dialer) r.ended) }
{
    let table = history.base().table().copy(alloc)?;
    let seats = seats_of(parts.listeners.len() + parts.web.len(), plan.input);
    run_named::<Brand, R, L, D, C, G, W, F>(
        rt,
        alloc,
        Opened::new(),
        table,
        history,
        Fresh::new(seats as u64),
        parts,
        plan,
    )
}
