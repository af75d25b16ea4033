//! A run of the program: its words, its streams and its status.

use crate::answering::answer;
use crate::auditing::audit_files;
use crate::job::{Job, Subcommand, job_of};
use crate::source::Source;
use crate::{Error, ErrorKind, Unread};
use cg_cut::whole_length;
use cg_history::History;
use cg_journal::read_journal_telling;
use cg_links::Counted;
use cg_sim::sim;
use cg_types::Fault;
use std::alloc::{AllocError, Global};
use std::io::{Eprint, Print, Read};
use std::rt::{Env, Files, Runtime};
use std::{env, fs, io};

// The status after a fault that ended the work.
const FAILED: u8 = 1;

/// The status after a fault of the command line.
pub const MISUSED: u8 = 2;

/// The outcome of a run of the program.
#[derive(Drop)]
pub enum Ending {
    /// All was done; this is the exit status.
    Status(u8),
    /// A node is to be served by the settings in this file.
    Serve(String),
    /// A node is to run until it is stopped, by the settings in this file.
    Agent(String),
}

// The words after the first one.
fn behind_first<'a>(words: &'a [&'a str]) -> &'a [&'a str] {
    match words {
        [_, rest @ ..] => rest,
        [] => words,
    }
}

fn texts(alloc: Global, words: &[String]) -> Result<Vec<&str>, AllocError> {
    let mut texts = Vec::with_capacity(alloc, words.len())?;
    for word in words {
        texts.push(word.as_str())?;
    }
    Ok(texts)
}

// Prints that memory was short before the work began, if it can be printed.
fn out_of_memory<R: Print>(rt: &R) -> u8 {
    let _ = println!(rt; "fault {}", Fault::OutOfMemory);
    FAILED
}

// The fault of a file that can't be opened.
fn fault_of_open(error: &io::Error) -> Fault {
    match error.kind() {
        io::ErrorKind::OutOfMemory => Fault::OutOfMemory,
        _ => Fault::ReadFault,
    }
}

// Prints the fault of the words, or the help or the version that they ask for, and returns the status.
fn told<R: Print + Eprint>(rt: &R, error: &Error) -> u8 {
    if error.kind() == ErrorKind::OutOfMemory {
        return out_of_memory(rt);
    }
    let _ = error.print(rt);
    if error.use_stderr() { MISUSED } else { 0 }
}

// A file with a journal, which is opened when it is read, up to this many bytes.
#[derive(Drop)]
struct JournalFile<'a, R> {
    rt: &'a R,
    path: &'a str,
    length: u64,
}

// What a file holds is not known to a clause.
impl<'a, R: Files + Eprint> Source for JournalFile<'a, R> {
    ghost use Rattle.std.specs.Prelude.{⊤};

    ghost reads = { λ s t h. ⊤ };

    ghost fails = { λ s t u. ⊤ };

    fn read_history(&mut self, alloc: Global) -> Result<History, Unread> {
        match fs::open(self.rt, self.path) {
            Ok(link) => read_journal_telling(alloc, &mut Counted::new(link.take(self.length))),
            Err(error) => Err(Unread {
                line: 0,
                fault: fault_of_open(&error),
            }),
        }
    }

    // Prints on standard error the file, the line and the fault.
    fn tell(&self, unread: &Unread) {
        let Unread { line, fault } = *unread;
        let path = self.path;
        let _ = match line {
            0 => eprintln!(self.rt; "cg audit: {path}: {fault}"),
            _ => eprintln!(self.rt; "cg audit: {path}: journal line {line}: {fault}"),
        };
    }
}

impl<'a, R: Files + Eprint> JournalFile<'a, R> {
    // Lets only the lines with their line feeds count. Returns `false` if there are none.
    fn cut(&mut self) -> Result<bool, Fault> {
        match fs::open(self.rt, self.path) {
            Ok(link) => self.length = whole_length(&mut Counted::new(link))?,
            Err(error) => return Err(fault_of_open(&error)),
        }
        Ok(self.length > 0)
    }
}

fn journal_files<'a, R>(
    rt: &'a R,
    alloc: Global,
    paths: &'a [&'a str],
) -> Result<Vec<JournalFile<'a, R>>, AllocError> {
    let mut files = Vec::with_capacity(alloc, paths.len())?;
    for path in paths {
        let length = u64::MAX;
        files.push(JournalFile { rt, path, length })?;
    }
    Ok(files)
}

// Returns the files that have a line with its line feed, of which only such lines count.
fn cut_files<'a, R: Files + Eprint>(
    alloc: Global,
    files: Vec<JournalFile<'a, R>>,
) -> Result<Vec<JournalFile<'a, R>>, Fault> {
    let mut cut = Vec::with_capacity(alloc, files.len())?;
    for mut file in files {
        match file.cut() {
            Ok(true) => cut.push(file)?,
            Ok(false) => {}
            Err(fault) => {
                file.tell(&Unread { line: 0, fault });
                return Err(fault);
            }
        }
    }
    Ok(cut)
}

// Prints a fault that came before any journal was read, if it can be printed.
fn faulted<R: Print>(rt: &R, fault: Fault) -> u8 {
    let _ = println!(rt; "fault {fault}");
    FAILED
}

// Audits the journals of files, of which only lines with their line feeds count.
fn audit_cut<R: Print + Eprint + Files>(
    rt: &R,
    alloc: Global,
    files: Vec<JournalFile<'_, R>>,
) -> u8 {
    let mut writer = Counted::new(io::writer(rt));
    match cut_files(alloc, files) {
        Ok(mut files) => audit_files(alloc, &mut files, &mut writer),
        Err(fault) => faulted(rt, fault),
    }
}

// Audits the journals of the files.
fn audit<R: Print + Eprint + Files>(rt: &R, alloc: Global, job: &Job) -> u8 {
    let mut writer = Counted::new(io::writer(rt));
    match journal_files(rt, alloc, job.files.as_slice()) {
        Ok(files) if job.is_cut => audit_cut(rt, alloc, files),
        Ok(mut files) => audit_files(alloc, &mut files, &mut writer),
        Err(_) => out_of_memory(rt),
    }
}

// Returns the settings file of the node that is to be served.
fn serves<R: Print>(rt: &R, alloc: Global, files: &[&str]) -> Ending {
    match files {
        [file] => match file.to_string(alloc) {
            Ok(file) => Ending::Serve(file),
            Err(_) => Ending::Status(out_of_memory(rt)),
        },
        // Never true: the command line requires one.
        _ => Ending::Status(MISUSED),
    }
}

// Returns the settings file of the node that is to run until it is stopped.
fn runs<R: Print>(rt: &R, alloc: Global, files: &[&str]) -> Ending {
    match files {
        [file] => match file.to_string(alloc) {
            Ok(file) => Ending::Agent(file),
            Err(_) => Ending::Status(out_of_memory(rt)),
        },
        // Never true: the command line requires one.
        _ => Ending::Status(MISUSED),
    }
}

// Runs a job over the standard streams and over files, except of a node.
fn done<R: Runtime>(rt: &R, alloc: Global, job: &Job) -> Ending {
    let mut reader = Counted::new(rt.reader());
    let mut writer = Counted::new(io::writer(rt));
    Ending::Status(match job.subcommand {
        Subcommand::Answer => answer(alloc, &mut reader, &mut writer),
        Subcommand::Sim => sim(alloc, &mut reader, &mut writer),
        Subcommand::Audit => audit(rt, alloc, job),
        Subcommand::Serve => return serves(rt, alloc, job.files.as_slice()),
        Subcommand::Agent => return runs(rt, alloc, job.files.as_slice()),
    })
}

// Prints the reason why the words can't be read, and returns the status.
fn unread<R: Print + Eprint>(rt: &R, error: &io::Error) -> u8 {
    if error.kind() == io::ErrorKind::OutOfMemory {
        return out_of_memory(rt);
    }
    let _ = eprintln!(rt; "error: a word of the command line is not UTF-8");
    MISUSED
}

// Runs the job that the words name, of which the first is the program's name.
fn ran<R: Runtime>(rt: &R, alloc: Global, words: &[String]) -> Ending {
    let Ok(words) = texts(alloc, words) else {
        return Ending::Status(out_of_memory(rt));
    };
    match job_of(alloc, behind_first(&words)) {
        Ok(job) => done(rt, alloc, &job),
        Err(error) => Ending::Status(told(rt, &error)),
    }
}

// Runs the job that words name, of which the first is the program's name.
pub(crate) fn run_words<R: Runtime>(
    rt: &R,
    alloc: Global,
    words: io::Result<Vec<String>>,
) -> Ending {
    match words {
        Ok(words) => ran(rt, alloc, words.as_slice()),
        Err(error) => Ending::Status(unread(rt, &error)),
    }
}

// Returns the words of the command line, of which the first is the program's name.
fn words<R: Env + AllocGlobal>(rt: &R) -> io::Result<Vec<String>> {
    Ok(env::args(rt)?.collect(rt.alloc())?)
}

/// Runs the job that the words of the command line name, over the standard streams and the named files. The first word
/// is the program's name; with no further words the job is `answer`. No node runs here: the caller runs it by the
/// file that is returned. Help and the version go to standard output, with status 0. A fault of the command line
/// goes to standard error, with status 2, as does a word that is not UTF-8. Want of memory before the work begins is
/// the line `fault 1 OutOfMemory`, with status 1.
pub fn run<R: Runtime + AllocGlobal>(rt: &R) -> Ending {
    run_words(rt, rt.alloc(), words(rt))
}
