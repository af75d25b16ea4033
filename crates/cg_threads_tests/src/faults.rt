//! Workers that meet a fault, at a node whose peers are bytes in memory.

use crate::links::Nobody;
use crate::nodes::{Side, acks, kinds, ran};
use crate::operators::{Fails, Quits};
use cg_links::FailingLink;
use cg_testing::{A, B, endpoint, expect};
use cg_threads::{Dial, Listen, Operate, Ran};
use cg_types::{Endpoint, Fault};
use std::alloc::Global;
use std::io;
use std::io::Write;
use std::rt::Clock;
use std::sync::Wait;
use std::sync::atomic::{AtomicU64, Ordering};
use std::test::Fail;
use std::thread::Threads;

// The SYN and the ACK2 of A, 10.0.0.1:7000 in generation 9, for B, 10.0.0.2:7000 in generation 5, of the cluster c1.
const SYN_AND_ACK2: &[u8] =
    b"\x00\x00\x00\x16\x01\x01\x02c1\x01\x00\x01\x0a\x00\x00\x01\x1b\x58\x00\x00\x00\x09\x00\x00\x00\x01\x00\x00\x00\x17\x01\x03\x00\x01\x0a\x00\x00\x01\x1b\x58\x00\x00\x00\x09\x00\x00\x00\x00\x00\x00\x00\x01\x00";

// The ACK of B to A's SYN.
const ACK: &[u8] =
    b"\x00\x00\x00\x27\x01\x02\x00\x01\x0a\x00\x00\x01\x1b\x58\x00\x00\x00\x09\x00\x00\x00\x00\x00\x01\x0a\x00\x00\x02\x1b\x58\x00\x00\x00\x05\x00\x00\x00\x00\x00\x00\x00\x01\x00";

// A call that fails: the read, or the write or flush, of this number over a connection.
#[derive(Clone, Copy, Debug)]
enum Call {
    Read(u64),
    Write(u64),
}

// The calls behind the event of B's first message: a message is two reads, and then a write and a flush.
const WRITE: Call = Call::Write(1);

const FLUSH: Call = Call::Write(2);

const NEXT_READ: Call = Call::Read(3);

// No call fails.
const NONE: Call = Call::Read(0);

// Connections over which A's part is read. Over the first one a call fails.
#[derive(Drop)]
struct Connections {
    alloc: Global,
    failing: Call,
}

impl Listen for Connections {
    type Reader = FailingLink<&'static [u8]>;

    type Writer = FailingLink<Vec<u8>>;

    fn accept(
        &mut self,
    ) -> Result<Option<(FailingLink<&'static [u8]>, FailingLink<Vec<u8>>)>, Fault> {
        let (read, write) = match self.failing {
            Call::Read(turn) => (turn, 0),
            Call::Write(turn) => (0, turn),
        };
        self.failing = NONE;
        let reader = FailingLink::new(SYN_AND_ACK2, read);
        Ok(Some((reader, FailingLink::new(Vec::new(self.alloc), write))))
    }
}

// A writer that counts its writes.
#[derive(Drop)]
struct Tally<'a> {
    writes: &'a AtomicU64,
}

impl<'a> Write for Tally<'a> {
    fn write(&mut self, buf: &[u8]) -> io::Result<usize> {
        self.writes.fetch_add(1, Ordering::SeqCst);
        Ok(buf.len())
    }

    fn flush(&mut self) -> io::Result<()> {
        Ok(())
    }
}

// B as a dialer reaches it. Over the first connection the call of a number fails that writes or flushes.
#[derive(Drop)]
struct Answering<'a> {
    failing: u64,
    writes: &'a AtomicU64,
}

impl<'a> Dial for Answering<'a> {
    type Reader = &'static [u8];

    type Writer = FailingLink<Tally<'a>>;

    fn dial(&mut self, _peer: Endpoint) -> Result<(&'static [u8], FailingLink<Tally<'a>>), Fault> {
        let tally = Tally {
            writes: self.writes,
        };
        let writer = FailingLink::new(tally, self.failing);
        self.failing = 0;
        Ok((ACK, writer))
    }
}

// The result of B: the numbers of records of a SYN, of an ACK2 and of a round, the number of rounds that its sender
// took, and `true` if it holds an entry of A.
#[derive(Clone, Copy, Debug, PartialEq, Eq)]
struct Left {
    records: (u32, u32, u32),
    taken: usize,
    held: bool,
}

fn left_of(left: &Ran) -> Left {
    Left {
        records: kinds(&left.history),
        taken: left.rounds.len(),
        held: left.history.node().table().get(endpoint(A)).is_some(),
    }
}

// The result of B, which begins a round and answers two exchanges; in the first one a call fails. `None` if its history
// does not confirm the receipts of all workers.
fn left_after<R: Threads + Wait + Clock + Sync, O: Operate + Drop + Send>(
    rt: &R,
    alloc: Global,
    failing: Call,
    operator: O,
) -> Option<Left> {
    let side = Side::new(endpoint(B), 5, endpoint(B), 1, 2);
    let connections = Connections { alloc, failing };
    let left = ran(rt, alloc, &side, connections, Nobody, operator)?;
    Some(left_of(&left))
}

#[test]
fn a_worker_stops_between_event_and_write(rt: HostRuntime) -> Result<(), Fail> {
    let due = Left {
        records: (2, 1, 1),
        taken: 1,
        held: true,
    };
    expect!(left_after(&rt, rt.alloc(), WRITE, Quits) == Some(due))?;
    expect!(left_after(&rt, rt.alloc(), FLUSH, Quits) == Some(due))
}

#[test]
fn a_worker_stops_between_two_messages(rt: HostRuntime) -> Result<(), Fail> {
    let due = Left {
        records: (2, 1, 1),
        taken: 1,
        held: true,
    };
    expect!(left_after(&rt, rt.alloc(), NEXT_READ, Quits) == Some(due))
}

// The result of A, which begins two exchanges: the numbers of records of an ACK and of rounds that its sender took, and
// the number of messages that it wrote. In the first exchange the call of a number fails. `None` if its history does
// not confirm the receipts of all workers.
fn begun_after<R: Threads + Wait + Clock + Sync>(
    rt: &R,
    alloc: Global,
    failing: u64,
) -> Option<(u32, usize, u64)> {
    let side = Side::new(endpoint(A), 9, endpoint(B), 2, 0);
    let writes = AtomicU64::new(0);
    let dialer = Answering {
        failing,
        writes: &writes,
    };
    let left = ran(rt, alloc, &side, Nobody, dialer, Quits)?;
    let written = writes.load(Ordering::SeqCst);
    Some((acks(&left.history), left.rounds.len(), written))
}

// An exchange is a write and a flush of the SYN, and then of the ACK2.
#[test]
fn a_sender_stops_between_event_and_write(rt: HostRuntime) -> Result<(), Fail> {
    expect!(begun_after(&rt, rt.alloc(), 0) == Some((2, 2, 4)))?;
    expect!(begun_after(&rt, rt.alloc(), 3) == Some((2, 2, 3)))?;
    expect!(begun_after(&rt, rt.alloc(), 4) == Some((2, 2, 4)))
}

#[test]
fn an_operators_fault_ends_the_operator_alone(rt: HostRuntime) -> Result<(), Fail> {
    let due = Left {
        records: (2, 2, 1),
        taken: 1,
        held: true,
    };
    let left = left_after(&rt, rt.alloc(), NONE, Fails);
    expect!(left == Some(due))
}
