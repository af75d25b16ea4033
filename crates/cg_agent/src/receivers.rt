//! The answering of connections.

ghost use Rattle.std.specs.Prelude.{◌≡◌};
ghost use Rattle.cg_agent.specs.Work.{HasAnswered};
ghost use Rattle.cg_agent.specs.Worked.{LeftByAnswers};

use crate::site::Site;
use cg_ahead_seats::AheadGate;
use cg_engine::Gate;
use cg_locked::{Name, Seat};
use cg_types::Endpoint;
use cg_workers::{Dial, Listen, Milliseconds, answer_next};
use std::alloc::Global;
use std::io::Write;
use std::sync::Wait;

// Answers connections at a gate until none comes any more or the node is to end.
fn answer_at<N: Name, W: Write + Drop, R: Wait, L: Listen, C: Milliseconds>(
    rt: &R,
    alloc: Global,
    site: &Site<N, W, C>,
    gate: &mut AheadGate<'_, N, W, R>,
    listener: &mut L,
)
    ensures { HasAnswered N.start N.opening.own L.Reader.remaining L.Writer.contents L.accepts (C.shows site.now.clock)
        (listener.old, gate.old) (listener.new, gate.new) }
{
    for _ in rt.forever() {
        if site.is_ending() {
            break;
        }
        match answer_next(alloc, gate, listener, &site.clock) {
            Some(broken) => {
                site.count_answered(rt, broken, gate.reply());
                gate.forget();
            }
            None => {
                site.end_deaf();
                break;
            }
        }
    }
}

/// Answers connections from a seat until the node is to end, or until none comes any more; then the node is to end. No
/// message of a connection stays in memory once it was answered.
pub(crate) fn answer_all<N: Name, W: Write + Drop, R: Wait, L: Listen + Drop, C: Milliseconds>(
    rt: &R,
    alloc: Global,
    site: &Site<N, W, C>,
    seat: Seat<N>,
    listener: L,
) -> Seat<N>
    ensures parts { result.parts ≡ seat.parts }
    ensures left { LeftByAnswers N.start N.opening.own L.Reader.remaining L.Writer.contents L.accepts
        (C.shows site.now.clock) listener seat result }
{
    let mut listener = listener;
    let mut gate = AheadGate::new(rt, &site.shared, seat);
    answer_at(rt, alloc, site, &mut gate, &mut listener);
    gate.into_seat()
}

/// Connects to the node itself once for each receiver, so that none waits for a further connection.
pub(crate) fn wake<D: Dial>(dialer: &mut D, own: Endpoint, receivers: usize) {
    for _ in 0..receivers {
        let _ = dialer.dial(own);
    }
}
