//! Two nodes that run at once over loopback: each round is an exchange, and both lives are one run.
//!
//! The receiver of one waits for its operator, and neither can run in the other's place.

use crate::links::{Dialing, Listening, Nobody, bound};
use crate::nodes::{Side, kinds, ran, rounds, were_one_run};
use crate::operators::{ChangesAndReads, ReadsOnce};
use cg_testing::{A, endpoint, expect_eq};
use cg_threads::Ran;
use cg_types::Endpoint;
use std::alloc::Global;
use std::net::{Net, TcpListener, TcpStream};
use std::rt::Clock;
use std::sync::Wait;
use std::sync::atomic::Ordering;
use std::test::Fail;
use std::thread::{Threads, join};

// A sets a key and removes it, and begins rounds, whose one peer is its seed.
fn opener<R: Threads + Wait + Clock + Sync + Net<Listener = TcpListener, Stream = TcpStream>>(
    rt: &R,
    alloc: Global,
    side: &Side,
) -> Option<Ran> {
    ran(
        rt,
        alloc,
        side,
        Nobody,
        Dialing { rt },
        ChangesAndReads { side },
    )
}

// B answers exchanges, once its operator has read.
fn answerer<R: Threads + Wait + Clock + Sync + Net<Listener = TcpListener, Stream = TcpStream>>(
    rt: &R,
    alloc: Global,
    side: &Side,
    listener: TcpListener,
) -> Option<Ran> {
    let listening = Listening { rt, side, listener };
    let operator = ReadsOnce { clock: rt, side };
    ran(rt, alloc, side, listening, Nobody, operator)
}

// The results of both, each node in a thread of its own.
fn both<R: Threads + Wait + Clock + Sync + Net<Listener = TcpListener, Stream = TcpStream>>(
    rt: &R,
    alloc: Global,
    a: &Side,
    b: &Side,
    listener: TcpListener,
) -> (Option<Ran>, Option<Ran>) {
    join(
        rt,
        move || -> Option<Ran> { opener(rt, alloc, a) },
        move || -> Option<Ran> { answerer(rt, alloc, b, listener) },
    )
}

// The number of A's rounds with the one peer B, and `true` if A's sender took just these. `true` if A's operator read
// the text that it had set and the tombstone that it put there, and if B's read before a connection was accepted. `true` if B holds an entry of A, and the
// kinds of B's records. `true` if both were one run.
#[derive(Clone, Copy, Debug, PartialEq, Eq)]
struct Left {
    begun: usize,
    taken: bool,
    changed: bool,
    read: bool,
    held: bool,
    of_b: (u32, u32, u32),
    one: bool,
}

// The number of rounds of a node with this one peer, and `true` if its sender took just these.
fn rounds_with(alloc: Global, left: &Ran, peer: Endpoint) -> Result<(usize, bool), Fail> {
    let begun = rounds(alloc, &left.history, peer)?;
    Ok((begun.len(), left.rounds == begun))
}

fn left_of(alloc: Global, a: &Side, b: &Side, of_a: Ran, of_b: Ran) -> Result<Left, Fail> {
    let (begun, taken) = rounds_with(alloc, &of_a, b.own)?;
    let held = of_b.history.node().table().get(a.own).is_some();
    let kinds = kinds(&of_b.history);
    let one = were_one_run(alloc, (a.own, of_a.history), (b.own, of_b.history))?;
    Ok(Left {
        begun,
        taken,
        changed: a.read.load(Ordering::SeqCst),
        read: b.read.load(Ordering::SeqCst),
        held,
        of_b: kinds,
        one,
    })
}

// The result if A begins `count` rounds, and B answers as many exchanges.
fn left_after<R: Threads + Wait + Clock + Sync + Net<Listener = TcpListener, Stream = TcpStream>>(
    rt: &R,
    alloc: Global,
    count: u32,
) -> Result<Left, Fail> {
    let (listener, at) = bound(rt)?;
    let at = at.ok_or("a port")?;
    let a = Side::new(endpoint(A), 9, at, count, 0);
    let b = Side::new(at, 5, at, 0, count);
    let (of_a, of_b) = both(rt, alloc, &a, &b, listener);
    let of_a = of_a.ok_or("A ran")?;
    let of_b = of_b.ok_or("B ran")?;
    left_of(alloc, &a, &b, of_a, of_b)
}

// The expected result.
fn due(count: u32) -> Left {
    Left {
        begun: count as usize,
        taken: true,
        changed: true,
        read: true,
        held: true,
        of_b: (count, count, 0),
        one: true,
    }
}

#[test]
fn two_running_nodes(rt: HostRuntime) -> Result<(), Fail> {
    expect_eq!(left_after(&rt, rt.alloc(), 1)?, due(1))
}

#[test]
fn two_rounds_are_two_exchanges(rt: HostRuntime) -> Result<(), Fail> {
    expect_eq!(left_after(&rt, rt.alloc(), 2)?, due(2))
}
