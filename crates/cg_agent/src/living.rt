//! The life of a node that runs until it is stopped.

ghost use Rattle.std.specs.Prelude.{◌≡◌, ◌*◌, ◌≤◌, max, vec_len, IfOk, MatchResult};
ghost use Rattle.cg_settings_file.specs.declared.limits.TheConstants.{RECEIVER_LIMIT};
ghost use Rattle.cg_agent.specs.declared.limits.TheConstants.{MEBIBYTE, WEB_LIMIT};
ghost use Rattle.cg_core.specs.Step.{starting_node};
ghost use Rattle.cg_agent.specs.Lives.{fault_after, status_after, IsLived, IsUnlived, AgentLives};

use crate::limits::{MEBIBYTE, WEB_LIMIT, WEB_TIME};
use crate::parts::{Parts, Plan};
use crate::running::{Ran, run_agent};
use crate::sink::Sink;
use crate::telling::{tell_deaf, tell_error, tell_file, tell_unset};
use cg_history::History;
use cg_host::{Disk, agent_settings_telling, next_life};
use cg_links::Counted;
use cg_settings_file::{AgentSettings, Loads, RECEIVER_LIMIT};
use cg_types::{Endpoint, Fault, Generation};
use cg_workers::{Dialer, HostClock, Listener, Traffic, answer_limit, generator, limit_for};
use std::alloc::Global;
use std::fs::{OpenFile, OpenOptions};
use std::io;
use std::io::{Eprint, ErrorKind, Input, Print, Read, Write};
use std::net::{Net, TcpListener, TcpStream};
use std::random::RandomSource;
use std::rt::{Clock, Files};
use std::sync::{Arc, Wait};
use std::thread::Threads;

// Returns the bytes of journal that a life writes.
fn bound_of(loads: &Loads) -> u64
    ensures { result ≡ loads.now.journal_mb * MEBIBYTE }
{
    u64::from(loads.journal_mb) * MEBIBYTE
}

// Listens by a first listener, with as many in all as said, or one.
fn listen<'a, R>(
    alloc: Global,
    first: io::Result<Listener<'a, R>>,
    count: u32,
) -> io::Result<Vec<Listener<'a, R>>>
where
    R: Clock + Net<Listener = TcpListener, Stream = TcpStream>,
    ensures { IfOk result (λ ls. vec_len ls ≤ max 1 count) }
{
    let first = first?;
    let mut listeners = Vec::new(alloc);
    for _ in 0..count.saturating_sub(1) {
        listeners.push(first.again()?)?;
    }
    listeners.push(first)?;
    Ok(listeners)
}

// Listens as `listen` does, or prints why it can't at this endpoint.
fn listening<'a, R>(
    rt: &'a R,
    alloc: Global,
    at: Endpoint,
    first: io::Result<Listener<'a, R>>,
    count: u32,
) -> Result<Vec<Listener<'a, R>>, Fault>
where
    R: Clock + Eprint + Net<Listener = TcpListener, Stream = TcpStream>,
    ensures { IfOk result (λ ls. vec_len ls ≤ max 1 count) }
{
    match listen(alloc, first, count) {
        Ok(listeners) => Ok(listeners),
        Err(error) => {
            tell_deaf(rt, at, &error);
            match error.kind() {
                ErrorKind::OutOfMemory => Err(Fault::OutOfMemory),
                _ => Err(Fault::ReadFault),
            }
        }
    }
}

// Listens for peers, whose bytes are counted in this traffic, with a listener for each receiver.
fn listening_to_peers<'a, R>(
    rt: &'a R,
    alloc: Global,
    own: Endpoint,
    loads: &Loads,
    traffic: &Arc<Traffic, Global>,
) -> Result<Vec<Listener<'a, R>>, Fault>
where
    R: Clock + Eprint + Net<Listener = TcpListener, Stream = TcpStream>,
    ensures { IfOk result (λ ls. vec_len ls ≤ RECEIVER_LIMIT) }
{
    let traffic = Arc::try_clone(traffic)?;
    let first = match Listener::open(rt, alloc, own, answer_limit(loads.interval)) {
        Ok(listener) => Ok(listener.counting(traffic)),
        Err(error) => Err(error),
    };
    let count = loads.receivers.min(RECEIVER_LIMIT);
    listening(rt, alloc, own, first, count)
}

// Listens for requests over HTTP, if it is served.
fn listening_to_browsers<'a, R>(
    rt: &'a R,
    alloc: Global,
    at: Option<Endpoint>,
) -> Result<Vec<Listener<'a, R>>, Fault>
where
    R: Clock + Eprint + Net<Listener = TcpListener, Stream = TcpStream>,
    ensures { IfOk result (λ ls. vec_len ls ≤ WEB_LIMIT) }
{
    let Some(at) = at else {
        return Ok(Vec::new(alloc));
    };
    let first = Listener::open(rt, alloc, at, WEB_TIME);
    listening(rt, alloc, at, first, WEB_LIMIT as u32)
}

// The sockets of a node: the listeners of peers and of requests over HTTP, and the dialer of peers; and the traffic in
// which the bytes of peers are counted.
struct Sockets<'a, R: Clock + Net<Listener = TcpListener, Stream = TcpStream>> {
    listeners: Vec<Listener<'a, R>>,
    web: Vec<Listener<'a, R>>,
    dialer: Dialer<'a, R>,
    traffic: Arc<Traffic, Global>,
}

// Opens the sockets of a node.
fn open_sockets<'a, R>(
    rt: &'a R,
    alloc: Global,
    own: Endpoint,
    http: Option<Endpoint>,
    loads: &Loads,
) -> Result<Sockets<'a, R>, Fault>
where
    R: Clock + Eprint + Net<Listener = TcpListener, Stream = TcpStream>,
    ensures peers { IfOk result (λ s. vec_len s.listeners ≤ RECEIVER_LIMIT) }
    ensures web { IfOk result (λ s. vec_len s.web ≤ WEB_LIMIT) }
{
    let traffic = Arc::new(alloc, Traffic::new())?;
    let dialed = Arc::try_clone(&traffic)?;
    let listeners = listening_to_peers(rt, alloc, own, loads, &traffic)?;
    let web = listening_to_browsers(rt, alloc, http)?;
    Ok(Sockets {
        listeners,
        web,
        dialer: Dialer::new(rt, alloc, limit_for(loads.interval)).counting(dialed),
        traffic,
    })
}

// Opens a new file to append to it, with two more handles. An error if something stands there.
fn new_file<R: Files>(rt: &R, path: &str) -> io::Result<(R::File, (R::File, R::File))> {
    let mut options = OpenOptions::new();
    options.append(true).create_new(true);
    let file = options.open(rt, path)?;
    let one = file.try_clone()?;
    let other = file.try_clone()?;
    Ok((file, (one, other)))
}

// Makes the file of a life's journal in a folder, or prints why it can't.
fn journal_in<R: Files + Eprint>(
    rt: &R,
    alloc: Global,
    folder: &str,
    own: Endpoint,
    generation: Generation,
) -> Result<(R::File, (R::File, R::File)), Fault> {
    let path = format!(in alloc; "{folder}/{own}.{}.journal", generation.get())?;
    match new_file(rt, path.as_str()) {
        Ok(files) => Ok(files),
        Err(error) => {
            tell_error(rt, path.as_str(), &error);
            Err(Fault::WriteFault)
        }
    }
}

// Makes the file of a life's journal, if there is a folder for it.
fn journal_if<R: Files + Eprint>(
    rt: &R,
    alloc: Global,
    folder: &Option<String>,
    own: Endpoint,
    generation: Generation,
) -> Result<(Option<R::File>, Option<(R::File, R::File)>), Fault> {
    let Some(folder) = folder else {
        return Ok((None, None));
    };
    match journal_in(rt, alloc, folder.as_str(), own, generation) {
        Ok((file, files)) => Ok((Some(file), Some(files))),
        Err(fault) => Err(fault),
    }
}

// Lives by settings, in a generation, until the node is stopped.
fn live_by<'a, R, F>(
    rt: &'a R,
    alloc: Global,
    settings: AgentSettings,
    generation: Generation,
) -> Result<Ran<Sink<'a, R, F>>, Fault>
where
    R: Threads
        + Wait
        + Clock
        + RandomSource
        + Sync
        + Files<File = F>
        + Input
        + Print
        + Eprint
        + Net<Listener = TcpListener, Stream = TcpStream>,
    F: Read + Write + OpenFile + Drop + Send,
    ensures { IfOk result (λ r. r.ended.history.start ≡ starting_node settings.listen generation settings.node) }
{
    let AgentSettings {
        node,
        listen: own,
        generation_file: _,
        journals,
        loads,
        random,
        input,
        http,
    } = settings;
    let Sockets {
        listeners,
        web,
        dialer,
        traffic,
    } = open_sockets(rt, alloc, own, http.at, &loads)?;
    let (file, files) = journal_if(rt, alloc, &journals, own, generation)?;
    let history = History::begin(alloc, own, generation, node)?;
    let parts = Parts {
        listeners,
        web,
        dialer,
        waker: Dialer::silent(rt, alloc, limit_for(loads.interval)),
        clock: HostClock::new(rt),
        generator: generator(random),
        sink: Counted::new(Sink::new(rt, file, bound_of(&loads))),
        files,
        traffic,
    };
    let plan = Plan {
        own,
        generation,
        interval: loads.interval,
        keep: loads.keep,
        input,
        http: http.at,
        writes: http.writes,
    };
    run_agent(rt, alloc, history, parts, plan)
}

// Lives by the settings in a file, until the node is stopped.
fn live<'a, R, F>(rt: &'a R, alloc: Global, file: &str) -> Result<Ran<Sink<'a, R, F>>, Fault>
where
    R: Threads
        + Wait
        + Clock
        + RandomSource
        + Sync
        + Files<File = F>
        + Disk<File = F>
        + Input
        + Print
        + Eprint
        + Net<Listener = TcpListener, Stream = TcpStream>,
    F: Read + Write + OpenFile + Drop + Send,
    ensures { MatchResult result
        (λ r. IsLived R.did F.remaining F.contents file.now r.ended.history)
        (IsUnlived R.did F.remaining F.contents file.now) }
{
    let settings = match agent_settings_telling(rt, alloc, file) {
        Ok(settings) => settings,
        Err(unset) => {
            tell_unset(rt, file, &unset);
            return Err(unset.fault);
        }
    };
    let generation = match next_life(rt, alloc, settings.generation_file.as_str()) {
        Ok(generation) => generation,
        Err(fault) => {
            tell_file(rt, settings.generation_file.as_str(), fault);
            return Err(fault);
        }
    };
    live_by(rt, alloc, settings, generation)
}

// Returns the fault by which a node ended that ran, if by any.
fn fault_of<W>(ran: &Ran<W>) -> Option<Fault>
    ensures { result ≡ fault_after ran.now.ended.torn ran.now.is_synced ran.now.is_deaf }
{
    if ran.ended.torn || !ran.is_synced {
        return Some(Fault::WriteFault);
    }
    if ran.is_deaf {
        return Some(Fault::ReadFault);
    }
    None
}

// Prints the end of a life, and returns its status.
fn ended<R: Print>(rt: &R, fault: Option<Fault>) -> u8
    ensures { result ≡ status_after fault }
{
    match fault {
        Some(fault) => {
            let _ = println!(rt; "fault {fault}");
            1
        }
        None => {
            let _ = println!(rt; "stopped");
            0
        }
    }
}

/// Lives as a node by the settings in a file, until it is stopped, and returns the exit status: 0, or 1 after a fault,
/// whose line is printed.
///
/// The first of these faults that comes ends it before it begins: the settings can't be read (`ReadFault`) or are none
/// (`BadText`); the generation can't be read (`ReadFault`), is none (`BadText`), has none above it (`VersionsSpent`) or
/// can't be kept (`WriteFault`); another program listens there (`ReadFault`); the journal's file can't be made or written
/// (`WriteFault`); memory is refused (`OutOfMemory`). Later it ends by `WriteFault` if its journal can't be written or
/// synced, and by `ReadFault` if no further connection is taken. Standard error says of each what and where.
pub fn agent<R, F>(rt: &R, alloc: Global, file: &str) -> u8
where
    R: Threads
        + Wait
        + Clock
        + RandomSource
        + Sync
        + Files<File = F>
        + Disk<File = F>
        + Input
        + Print
        + Eprint
        + Net<Listener = TcpListener, Stream = TcpStream>,
    F: Read + Write + OpenFile + Drop + Send,
    // After a life by the file's settings in the generation that was kept for it, or the fault that prevented it.
    ensures { AgentLives R.did F.remaining F.contents file.now result }
{
    let fault = match live(rt, alloc, file) {
        Ok(ran) => fault_of(&ran),
        Err(fault) => Some(fault),
    };
    ended(rt, fault)
}
