//! The life of a node that serves.

ghost use Rattle.std.specs.Prelude.{◌≡◌, ◌++◌, ℕ, List, IsSome, OnOk, OnErr, IfOk, string_bytes};
ghost use Rattle.cg_links.specs.Counted.{link_of};
ghost use Rattle.cg_text.specs.Written.{WroteOut};
ghost use Rattle.cg_serve.specs.Lives.{Lives, fault_lines, text_after, status_after, SaysEnd, Ends, WritesJournal, Serves};

use crate::node::{Birth, LifeLeft, run};
use cg_history::History;
use cg_host::{Disk, next_life, settings_telling, try_journal, write_journal_to};
use cg_links::Counted;
use cg_settings_file::{ServeSettings, Unset};
use cg_text::written;
use cg_types::{Fault, OUT_OF_MEMORY_LINE};
use std::alloc::{AllocError, Global};
use std::io::{Eprint, Input, Print, Write};
use std::net::{Net, TcpListener, TcpStream};
use std::rt::Clock;
use std::sync::Wait;
use std::thread::Threads;

// A life that was lived: the result of its node, and the path of its journal.
#[derive(Drop)]
struct Lived {
    left: LifeLeft,
    journal: String,
}

// Prints on standard error a file and its fault.
fn tell<R: Eprint>(rt: &R, path: &str, fault: Fault) {
    let _ = eprintln!(rt; "cg serve: {path}: {fault}");
}

// Prints on standard error a settings file, the key at which its fault came, and the fault.
fn tell_unset<R: Eprint>(rt: &R, path: &str, unset: &Unset) {
    let fault = unset.fault;
    match &unset.key {
        Some(key) => {
            let _ = eprintln!(rt; "cg serve: {path}: {key}: {fault}");
        }
        None => tell(rt, path, fault),
    }
}

// Prints a line on standard error if it is seen before a life that its journal can't be written.
fn foresee<R: Disk + Eprint>(rt: &R, alloc: Global, journal: &str) {
    match try_journal(rt, alloc, journal) {
        Ok(()) => {}
        Err(fault) => tell(rt, journal, fault),
    }
}

// Lives by the settings in a file, to the end.
fn live<R>(rt: &R, alloc: Global, file: &str) -> Result<Lived, Fault>
where
    R: Threads
        + Wait
        + Clock
        + Sync
        + Disk
        + Input
        + Print
        + Eprint
        + Net<Listener = TcpListener, Stream = TcpStream>,
    R::Reader: Send,
    ensures { Lives R.did R.File.remaining R.File.contents file.now result }
{
    let settings = match settings_telling(rt, alloc, file) {
        Ok(settings) => settings,
        Err(unset) => {
            tell_unset(rt, file, &unset);
            return Err(unset.fault);
        }
    };
    let generation = match next_life(rt, alloc, settings.generation_file.as_str()) {
        Ok(generation) => generation,
        Err(fault) => {
            tell(rt, settings.generation_file.as_str(), fault);
            return Err(fault);
        }
    };
    foresee(rt, alloc, settings.journal.as_str());
    let ServeSettings {
        node,
        listen,
        journal,
        turns,
        random,
        ..
    } = settings;
    let birth = Birth {
        own: listen,
        generation,
        settings: node,
    };
    match run(rt, alloc, birth, turns, random) {
        Ok(left) => Ok(Lived { left, journal }),
        Err(fault) => Err(fault),
    }
}

// Adds the line of a fault, if there is one.
fn add_fault(text: &mut String, alloc: Global, fault: Option<Fault>) -> Result<(), AllocError>
    ensures text { OnOk result (string_bytes text.new ≡ string_bytes text.old ++ fault_lines fault) }
    ensures refused { OnErr result (IsSome fault) }
{
    let Some(fault) = fault else {
        return Ok(());
    };
    let line = fault.line(alloc)?;
    text.push_str(line.as_str())
}

// Returns the lines of the faults of a life's receipts and of its journal. Without a fault, no memory is asked for.
#[tactic(auto, using(crate::proofs::Ending::after_unconfirmed, crate::proofs::Ending::after_unwritten))]
fn end_text(
    alloc: Global,
    unconfirmed: Option<Fault>,
    unwritten: Option<Fault>,
) -> Result<String, AllocError>
    ensures text { IfOk result (λ text. string_bytes text ≡ text_after unconfirmed unwritten) }
    ensures refused { OnErr result (status_after unconfirmed unwritten ≡ 1) }
{
    let mut text = String::new(alloc);
    add_fault(&mut text, alloc, unconfirmed)?;
    add_fault(&mut text, alloc, unwritten)?;
    Ok(text)
}

// Returns the status after a life whose receipts and whose journal have these faults.
fn status_of(unconfirmed: Option<Fault>, unwritten: Option<Fault>) -> u8
    ensures { result ≡ status_after unconfirmed unwritten }
{
    match (unconfirmed, unwritten) {
        (None, None) => 0,
        _ => 1,
    }
}

// Writes the lines of the faults of a life's receipts and of its journal, and returns the status after it.
fn told<W: Write>(
    alloc: Global,
    writer: &mut Counted<W>,
    unconfirmed: Option<Fault>,
    unwritten: Option<Fault>,
) -> u8
    ensures { (text : List ℕ) × (status : ℕ) × SaysEnd unconfirmed unwritten text status
        × WroteOut
        (W.contents (link_of writer.old)) (W.contents (link_of writer.new))
        writer.old writer.new text status result }
{
    match end_text(alloc, unconfirmed, unwritten) {
        Ok(text) => written(writer, text.as_bytes(), status_of(unconfirmed, unwritten)),
        Err(_) => written(writer, OUT_OF_MEMORY_LINE, 1),
    }
}

// Writes a journal. If that fails, it prints so on standard error, and returns the fault.
fn unwritten<D: Disk + Eprint>(
    disk: &D,
    alloc: Global,
    file: &str,
    history: &History,
) -> Option<Fault>
    ensures { WritesJournal D.did D.File.contents file.now history.now result }
{
    match write_journal_to(disk, alloc, file, history) {
        Ok(()) => None,
        Err(fault) => {
            tell(disk, file, fault);
            Some(fault)
        }
    }
}

// Writes the journal of a life, if one was lived, and the lines of its faults, and returns the status.
fn ended<D: Disk + Eprint, W: Write>(
    disk: &D,
    alloc: Global,
    life: &Result<Lived, Fault>,
    writer: &mut Counted<W>,
) -> u8
    ensures { (text : List ℕ) × (status : ℕ) × Ends D.did D.File.contents life.now text status
        × WroteOut
        (W.contents (link_of writer.old)) (W.contents (link_of writer.new))
        writer.old writer.new text status result }
{
    match life {
        Ok(lived) => {
            let fault = unwritten(disk, alloc, lived.journal.as_str(), &lived.left.history);
            told(alloc, writer, lived.left.unconfirmed, fault)
        }
        Err(fault) => told(alloc, writer, Some(*fault), None),
    }
}

/// Lives as a node by the settings in a file, writes a line for each fault, and returns the exit status: 0, or 1 after a
/// fault.
///
/// A life ends once its rounds are done and sent, its exchanges were taken and its operator has ended. The first of
/// these faults that comes ends it before it begins: the settings can't be read (`ReadFault`) or are none (`BadText`);
/// the generation can't be read (`ReadFault`), is none (`BadText`), has none above it (`VersionsSpent`) or can't be
/// kept (`WriteFault`); another program listens there (`ReadFault`); memory or a thread is refused (`OutOfMemory`).
///
/// At the end it says the fault of the first receipt that the history does not confirm, and writes the journal all the
/// same; `WriteFault` if it can't. If memory is refused for a line, it says `OutOfMemory` in their place, never where
/// there is no fault. A fault of a worker ends that worker, and does not change the status. The lines are flushed. If
/// the writer fails or takes no byte, a prefix of the lines is written, and the status is 1.
///
/// For each fault of a file it prints a line on standard error, with the file, the key if it is one of the settings, and
/// the fault; and one with the endpoint at which it can't listen. Before it begins, it tries whether a file can stand
/// beside the journal's, and prints a line there if not. While it lives, it prints there, a line of each a second at
/// most, that a connection can't be taken, and that a peer can't be dialed or can be again, once each time; and one line
/// if no further connection is taken. No other fault of a worker is printed.
pub fn serve<R, W>(rt: &R, alloc: Global, file: &str, writer: &mut Counted<W>) -> u8
where
    R: Threads
        + Wait
        + Clock
        + Sync
        + Disk
        + Input
        + Print
        + Eprint
        + Net<Listener = TcpListener, Stream = TcpStream>,
    R::Reader: Send,
    W: Write,
    // A life by the file's settings in the generation that was kept for it, or the first fault that prevented it; the
    // expected text, and the prefix of it that was written.
    ensures { (text : List ℕ) × (status : ℕ)
        × Serves R.did R.File.remaining R.File.contents file.now text status
        × WroteOut
        (W.contents (link_of writer.old)) (W.contents (link_of writer.new))
        writer.old writer.new text status result }
{
    ended(rt, alloc, &live(rt, alloc, file), writer)
}
