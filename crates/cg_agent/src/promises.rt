//! The promises of a worker's thread about the seat that it leaves.

ghost use Rattle.std.specs.Prelude.{◌≡◌};

use crate::posts::Post;
use cg_locked::{Name, Seat};
use cg_workers::{Dial, Listen, Milliseconds};
use rand_core::Rng;
use std::snapshot::Snapshot;
use std::thread::Promise;

// The promise of the thread of a worker at a post.
#[derive(Drop)]
pub(crate) struct Answers<N: Name, L: Listen + Drop, C: Milliseconds> {
    pub(crate) seat: Snapshot<Seat<N>>,
    pub(crate) post: Snapshot<Post<N, L>>,
    pub(crate) clock: Snapshot<C>,
}

impl<N: Name, L: Listen + Drop, C: Milliseconds> Answers<N, L, C> {
    // The promise of a thread that takes these over.
    pub(crate) fn of(seat: &Seat<N>, post: &Post<N, L>, clock: &C) -> Answers<N, L, C>
        ensures { (result.seat.value ≡ seat.now) × (result.post.value ≡ post.now)
            × (result.clock.value ≡ clock.now) }
    {
        Answers {
            seat: Snapshot::of(seat),
            post: Snapshot::of(post),
            clock: Snapshot::of(clock),
        }
    }
}

impl<N: Name, L: Listen + Drop, C: Milliseconds> Promise<Seat<N>> for Answers<N, L, C> {
    ghost use Rattle.std.specs.Prelude.{◌≡◌};
    ghost use Rattle.cg_agent.specs.Posts.{LeftAt};

    ghost kept_by = { λ p r.
        (r.parts ≡ p.seat.value.parts)
        × LeftAt N.start N.opening.own L.Reader.remaining L.Writer.contents L.accepts (C.shows p.clock.value)
        p.post.value p.seat.value r };
}

// The promise of the thread that does rounds.
#[derive(Drop)]
pub(crate) struct TurnsOn<N: Name, D: Dial, C: Milliseconds, G: Rng> {
    pub(crate) seat: Snapshot<Seat<N>>,
    pub(crate) dialer: Snapshot<D>,
    pub(crate) clock: Snapshot<C>,
    pub(crate) generator: Snapshot<G>,
}

impl<N: Name, D: Dial, C: Milliseconds, G: Rng> TurnsOn<N, D, C, G> {
    // The promise of a thread that takes these over.
    pub(crate) fn of(seat: &Seat<N>, dialer: &D, clock: &C, generator: &G) -> TurnsOn<N, D, C, G>
        ensures { (result.seat.value ≡ seat.now) × (result.dialer.value ≡ dialer.now)
            × (result.clock.value ≡ clock.now) × (result.generator.value ≡ generator.now) }
    {
        TurnsOn {
            seat: Snapshot::of(seat),
            dialer: Snapshot::of(dialer),
            clock: Snapshot::of(clock),
            generator: Snapshot::of(generator),
        }
    }
}

impl<N: Name, D: Dial, C: Milliseconds, G: Rng> Promise<Seat<N>> for TurnsOn<N, D, C, G> {
    ghost use Rattle.std.specs.Prelude.{◌≡◌};
    ghost use Rattle.cg_agent.specs.Worked.{LeftByTurns};

    ghost kept_by = { λ p r.
        (r.parts ≡ p.seat.value.parts)
        × LeftByTurns N.start N.opening.own D.Reader.remaining D.Writer.contents D.dials (C.shows p.clock.value)
        (G.stream p.generator.value) p.dialer.value p.seat.value r };
}
