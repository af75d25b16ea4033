//! A node that runs over sockets, the system's clock and the standard streams.

ghost use Rattle.std.specs.Prelude.{◌≡◌, IfOk, IfErr};
ghost use Rattle.cg_serve.specs.Lives.{newborn_node, left_after, IsLifeLeft, IsUnstarted};

use cg_core::Settings;
use cg_history::History;
use cg_operator::Console;
use cg_threads::{NotRun, Parts, Ran, run_node};
use cg_types::{Endpoint, Fault, Generation};
use cg_workers::{Dialer, HostClock, Listener, Turns, answer_limit, generator, limit_for};
use std::alloc::Global;
use std::io::{Eprint, Input, Print};
use std::net::{Net, TcpListener, TcpStream};
use std::rt::Clock;
use std::sync::Wait;
use std::thread::Threads;

// The values that a node begins with: its endpoint, its generation and its settings.
#[derive(Drop)]
pub(crate) struct Birth {
    pub(crate) own: Endpoint,
    pub(crate) generation: Generation,
    pub(crate) settings: Settings,
}

// The result of a node that ran: its history, and the fault of the first receipt that this does not confirm.
#[derive(Drop)]
pub(crate) struct LifeLeft {
    pub(crate) history: History,
    pub(crate) unconfirmed: Option<Fault>,
}

// Returns the result of a run, if one began.
fn left_of(ran: Result<Ran, NotRun>) -> Result<LifeLeft, Fault>
    ensures { result ≡ left_after ran }
{
    match ran {
        Ok(ran) => Ok(LifeLeft {
            history: ran.history,
            unconfirmed: None,
        }),
        Err(NotRun::Unconfirmed(left)) => Ok(LifeLeft {
            history: left.history,
            unconfirmed: Some(left.fault),
        }),
        Err(NotRun::Unstarted(fault)) => Err(fault),
    }
}

// Listens at a node's endpoint, and runs the node until its workers have ended. `ReadFault` if it can't listen,
// `OutOfMemory` if no worker began.
pub(crate) fn run<R>(
    rt: &R,
    alloc: Global,
    birth: Birth,
    turns: Turns,
    random: u64,
) -> Result<LifeLeft, Fault>
where
    R: Threads
        + Wait
        + Clock
        + Sync
        + Input
        + Print
        + Eprint
        + Net<Listener = TcpListener, Stream = TcpStream>,
    R::Reader: Send,
    ensures left { IfOk result (IsLifeLeft (newborn_node birth)) }
    ensures err { IfErr result IsUnstarted }
{
    let Birth {
        own,
        generation,
        settings,
    } = birth;
    let listener = Listener::bind(rt, alloc, own, answer_limit(turns.interval))?;
    let history = History::begin(alloc, own, generation, settings)?;
    let parts = Parts {
        listener,
        dialer: Dialer::new(rt, alloc, limit_for(turns.interval)),
        clock: HostClock::new(rt),
        generator: generator(random),
        operator: Console::new(rt),
    };
    left_of(run_node(rt, alloc, history, parts, turns))
}
