//! An agent's workers in their threads.

ghost use Rattle.std.specs.Prelude.{◌≡◌, ◌+◌, ◌≤◌, [], vec_len, vec_capacity, IfSome};
ghost use Rattle.std.specs.List.{All, sum_by};
ghost use Rattle.cg_agent.specs.Seats.{amount_read, parts_if, parts_read, LeftByReading};
ghost use Rattle.cg_agent.specs.Worked.{LeftByTurns, SeatWorked};

use crate::posts::{Post, answer_at_post};
use crate::promises::{Answers, TurnsOn};
use crate::publishing::Publishing;
use crate::reading::{Reading, read_input};
use crate::receivers::wake;
use crate::rounds::{Rounds, do_rounds};
use crate::seats::take_last;
use crate::site::Site;
use crate::started::start;
use cg_locked::{Name, Seat};
use cg_types::Endpoint;
use cg_workers::{Dial, Listen, Milliseconds};
use rand_core::Rng;
use std::alloc::Global;
use std::fs::OpenFile;
use std::io::{Eprint, Input, Print, Write};
use std::random::RandomSource;
use std::rt::Clock;
use std::sync::Wait;
use std::thread;
use std::thread::{Scope, Threads};

/// The work beside that at posts: the rounds and their seat, and the use of standard input. At the end of the rounds the
/// waker connects to each of these endpoints as often as said, so that no worker waits at a post.
#[derive(Drop)]
pub(crate) struct Beside<N: Name, D: Drop, G: Drop, F: Drop> {
    pub(crate) ticker: Seat<N>,
    pub(crate) rounds: Rounds<D, G, F>,
    pub(crate) waker: D,
    pub(crate) woken: Vec<(Endpoint, usize)>,
    pub(crate) reading: Reading<N>,
}

// Does rounds, and at their end wakes the workers at posts.
fn do_rounds_and_wake<N: Name, W: Write + Drop, R, D, C, G, F>(
    rt: &R,
    alloc: Global,
    site: &Site<N, W, C>,
    seat: Seat<N>,
    rounds: Rounds<D, G, F>,
    publishing: Option<Publishing<'_, R>>,
    waker: D,
    woken: &[(Endpoint, usize)],
) -> Seat<N>
where
    R: Wait + Clock + Print + Eprint,
    D: Dial + Drop,
    C: Milliseconds,
    G: Rng + Drop,
    F: OpenFile + Drop,
    ensures parts { result.parts ≡ seat.parts }
    ensures left { LeftByTurns N.start N.opening.own D.Reader.remaining D.Writer.contents D.dials
        (C.shows site.now.clock) (G.stream rounds.generator) rounds.dialer seat result }
{
    let mut waker = waker;
    let seat = do_rounds(rt, alloc, site, seat, rounds, publishing);
    for (endpoint, count) in woken {
        wake(&mut waker, *endpoint, *count);
    }
    seat
}

// Does rounds in a thread, and uses standard input here. Returns the seat of the rounds, and that of standard input, if
// there is one.
fn work_beside<'s, N: Name + Send + Sync + 's, W: Write + Drop + Send, R, D, C, G, F, E>(
    scope: &Scope<'s, E>,
    rt: &'s R,
    alloc: Global,
    site: &'s Site<N, W, C>,
    beside: Beside<N, D, G, F>,
    publishing: Option<Publishing<'s, R>>,
) -> (Seat<N>, Option<Seat<N>>)
where
    R: Threads + Wait + Clock + RandomSource + Sync + Input + Print + Eprint,
    D: Dial + Drop + Send + 's,
    C: Milliseconds + Drop + Sync,
    G: Rng + Drop + Send + 's,
    F: OpenFile + Drop + Send + 's,
    D::Reader: Send,
    D::Writer: Send,
    ensures ticker { result.0.parts ≡ beside.ticker.parts }
    ensures turned { LeftByTurns N.start N.opening.own D.Reader.remaining D.Writer.contents D.dials
        (C.shows site.now.clock) (G.stream beside.rounds.generator) beside.rounds.dialer beside.ticker result.0 }
    ensures reader { parts_if result.1 ≡ parts_read beside.reading }
    ensures read { IfSome result.1 (LeftByReading N.start N.opening.own beside.reading) }
{
    let Beside {
        ticker: seat,
        rounds,
        waker,
        woken,
        reading,
    } = beside;
    let promise = TurnsOn::of(&seat, &rounds.dialer, &site.clock, &rounds.generator);
    let ticker = start(scope, promise, move || {
        do_rounds_and_wake(rt, alloc, site, seat, rounds, publishing, waker, &woken)
    });
    if !ticker.has_thread() {
        site.end();
    }
    let reader = read_input(rt, alloc, site, reading);
    (ticker.ended(rt), reader)
}

// Does the work beside that at posts, and puts the seats that it leaves into a list that has room for them.
fn work_last<'s, N: Name + Send + Sync + 's, W: Write + Drop + Send, R, L, D, C, G, F, E>(
    scope: &Scope<'s, E>,
    rt: &'s R,
    alloc: Global,
    site: &'s Site<N, W, C>,
    beside: Beside<N, D, G, F>,
    publishing: Option<Publishing<'s, R>>,
    back: Vec<Seat<N>>,
) -> Vec<Seat<N>>
where
    R: Threads + Wait + Clock + RandomSource + Sync + Input + Print + Eprint,
    L: Listen,
    D: Dial + Drop + Send + 's,
    C: Milliseconds + Drop + Sync,
    G: Rng + Drop + Send + 's,
    F: OpenFile + Drop + Send + 's,
    D::Reader: Send,
    D::Writer: Send,
    requires amounts { (beside.ticker.amount ≡ 0) × (amount_read beside.reading ≡ 0) }
    requires room { vec_len back + 2 ≤ vec_capacity back }
    requires worked { All (SeatWorked N.start N.opening.own L.Reader.remaining L.Writer.contents L.accepts
        D.Reader.remaining D.Writer.contents D.dials (C.shows site.now.clock) (G.stream beside.rounds.generator)
        beside.rounds.dialer) back.items }
    ensures some { (vec_len back + 1 ≤ vec_len result) × (vec_len result ≤ vec_len back + 2) }
    ensures room { vec_capacity result ≡ vec_capacity back }
    ensures parts { sum_by (λ s. s.parts) result.items ≡ sum_by (λ s. s.parts) back.items
        + beside.ticker.parts + parts_read beside.reading }
    ensures worked { All (SeatWorked N.start N.opening.own L.Reader.remaining L.Writer.contents L.accepts
        D.Reader.remaining D.Writer.contents D.dials (C.shows site.now.clock) (G.stream beside.rounds.generator)
        beside.rounds.dialer) result.items }
{
    let mut back = back;
    let (ticker, reader) = work_beside(scope, rt, alloc, site, beside, publishing);
    back.push_reserved(ticker);
    match reader {
        Some(seat) => back.push_reserved(seat),
        None => {}
    }
    back
}

// Starts a worker for each post, then does the other work, and waits for these workers. Puts the seats into a list
// that has room for them.
fn work_on<'s, N: Name + Send + Sync + 's, W: Write + Drop + Send, R, L, D, C, G, F, E>(
    scope: &Scope<'s, E>,
    rt: &'s R,
    alloc: Global,
    site: &'s Site<N, W, C>,
    seats: Vec<Seat<N>>,
    posts: Vec<Post<N, L>>,
    beside: Beside<N, D, G, F>,
    publishing: Option<Publishing<'s, R>>,
    back: Vec<Seat<N>>,
) -> Vec<Seat<N>>
where
    R: Threads + Wait + Clock + RandomSource + Sync + Input + Print + Eprint,
    L: Listen + Drop + Send + 's,
    D: Dial + Drop + Send + 's,
    C: Milliseconds + Drop + Sync,
    G: Rng + Drop + Send + 's,
    F: OpenFile + Drop + Send + 's,
    D::Reader: Send,
    D::Writer: Send,
    L::Reader: Send,
    L::Writer: Send,
    requires seats { vec_len seats ≡ vec_len posts }
    requires amounts { (sum_by (λ s. s.amount) seats.items ≡ 0) × (beside.ticker.amount ≡ 0)
        × (amount_read beside.reading ≡ 0) }
    requires room { vec_len back + vec_len seats + 2 ≤ vec_capacity back }
    requires worked { All (SeatWorked N.start N.opening.own L.Reader.remaining L.Writer.contents L.accepts
        D.Reader.remaining D.Writer.contents D.dials (C.shows site.now.clock) (G.stream beside.rounds.generator)
        beside.rounds.dialer) back.items }
    ensures some { (vec_len back + 1 ≤ vec_len result) × (vec_len result ≤ vec_len back + vec_len seats + 2) }
    ensures room { vec_capacity result ≡ vec_capacity back }
    ensures parts { sum_by (λ s. s.parts) result.items ≡ sum_by (λ s. s.parts) back.items
        + sum_by (λ s. s.parts) seats.items + beside.ticker.parts + parts_read beside.reading }
    ensures worked { All (SeatWorked N.start N.opening.own L.Reader.remaining L.Writer.contents L.accepts
        D.Reader.remaining D.Writer.contents D.dials (C.shows site.now.clock) (G.stream beside.rounds.generator)
        beside.rounds.dialer) result.items }
{
    let mut seats = seats;
    let mut posts = posts;
    let Some(post) = posts.pop() else {
        return work_last::<N, W, R, L, D, C, G, F, E>(
            scope, rt, alloc, site, beside, publishing, back,
        );
    };
    let seat = take_last(&mut seats);
    let promise = Answers::of(&seat, &post, &site.clock);
    let worker = start(scope, promise, move || {
        answer_at_post(rt, alloc, site, seat, post)
    });
    if !worker.has_thread() {
        site.end();
    }
    let mut back = work_on(
        scope, rt, alloc, site, seats, posts, beside, publishing, back,
    );
    back.push_reserved(worker.ended(rt));
    back
}

/// Has all workers do their work, each of them at a post from a seat, and returns their seats in a list that has
/// room for them and was empty.
pub(crate) fn work<N: Name + Send + Sync, W: Write + Drop + Send, R, L, D, C, G, F>(
    rt: &R,
    alloc: Global,
    site: &Site<N, W, C>,
    seats: Vec<Seat<N>>,
    posts: Vec<Post<N, L>>,
    beside: Beside<N, D, G, F>,
    publishing: Option<Publishing<'_, R>>,
    back: Vec<Seat<N>>,
) -> Vec<Seat<N>>
where
    R: Threads + Wait + Clock + RandomSource + Sync + Input + Print + Eprint,
    L: Listen + Drop + Send,
    D: Dial + Drop + Send,
    C: Milliseconds + Drop + Sync,
    G: Rng + Drop + Send,
    F: OpenFile + Drop + Send,
    D::Reader: Send,
    D::Writer: Send,
    L::Reader: Send,
    L::Writer: Send,
    requires seats { vec_len seats ≡ vec_len posts }
    requires amounts { (sum_by (λ s. s.amount) seats.items ≡ 0) × (beside.ticker.amount ≡ 0)
        × (amount_read beside.reading ≡ 0) }
    requires room { vec_len seats + 2 ≤ vec_capacity back }
    requires empty { back.items ≡ [] }
    ensures some { 1 ≤ vec_len result }
    ensures parts { sum_by (λ s. s.parts) result.items
        ≡ sum_by (λ s. s.parts) seats.items + beside.ticker.parts + parts_read beside.reading }
    ensures worked { All (SeatWorked N.start N.opening.own L.Reader.remaining L.Writer.contents L.accepts
        D.Reader.remaining D.Writer.contents D.dials (C.shows site.now.clock) (G.stream beside.rounds.generator)
        beside.rounds.dialer) result.items }
{
    thread::scope(
        thread::scope_env(),
        rt,
        move |scope| -> Vec<Seat<N>>
            requires seats { vec_len seats ≡ vec_len posts }
            requires amounts { (sum_by (λ s. s.amount) seats.items ≡ 0) × (beside.ticker.amount ≡ 0)
                × (amount_read beside.reading ≡ 0) }
            requires room { vec_len seats + 2 ≤ vec_capacity back }
            requires empty { back.items ≡ [] }
            ensures some { 1 ≤ vec_len result }
            ensures parts { sum_by (λ s. s.parts) result.items
                ≡ sum_by (λ s. s.parts) seats.items + beside.ticker.parts + parts_read beside.reading }
            ensures worked { All (SeatWorked N.start N.opening.own L.Reader.remaining L.Writer.contents L.accepts
                D.Reader.remaining D.Writer.contents D.dials (C.shows site.entry.now.clock)
                (G.stream beside.rounds.generator) beside.rounds.dialer) result.items }
        {
            work_on(
                scope, rt, alloc, site, seats, posts, beside, publishing, back,
            )
        },
    )
}
