//! The tasks on rings, texts, windows and entries that are measured: the inputs and the result of each.

use crate::aboves::{asked, bringing, last_above, versions};
use crate::cases::{Above, LOCAL, LocalTask, Texts};
use crate::moving::Moving;
use crate::rings::{claimed, digests, key_tokens, places, replicas, replicas_of_keys, ring};
use crate::texts::{Buffer, Shared, copies, headed, joined, room_for, share, text_of, texts_of};
use crate::windows::{heard, last_verdict, silence, verdicts};
use cg_entry::{Delta, Entry};
use cg_measure::{CaseName, Failure, Work, add_message, add_ring};
use cg_silence::{Silence, Verdict, Window};
use cg_table::Table;
use cg_tokens::{Ring, Token};
use cg_types::Endpoint;
use md5::{Digest, Md5};
use std::alloc::{AllocError, Global};
use std::ops::Deref;

/// A task of one member alone, with its inputs.
#[derive(Drop)]
pub(crate) enum LocalWork {
    BuildRing(Table),
    MoveRing(Moving),
    Places(Ring, Vec<Token>),
    /// Finds this number of replicas of each token, and keeps those of the last.
    Replicas(Ring, Vec<Token>, usize),
    Keys(Ring),
    Digests,
    /// Makes this number of texts.
    MakeTexts(String, usize),
    /// Makes this number of buffers of some texts, each of which this number shares.
    ShareTexts(String, usize, usize),
    /// Joins texts, with room for this number of bytes.
    Put(Vec<Buffer>, usize),
    Head(Vec<Buffer>, usize),
    Arrivals(Silence),
    Verdicts(Window),
    /// Asks for what is newer than each version.
    Aboves(Entry, Vec<u32>),
}

/// The result of one turn.
#[derive(Drop)]
pub(crate) enum Made {
    Ring(Ring),
    Replicas(Vec<Endpoint>),
    Sum(usize),
    Digest([u8; 16]),
    Verdict(Verdict),
    Text(Vec<u8>),
    Texts(Vec<Buffer>),
    Shared(Shared),
    Delta(Option<Delta>),
}

fn add_endpoints(
    alloc: Global,
    digest: &mut Md5,
    endpoints: &[Endpoint],
) -> Result<(), AllocError> {
    for endpoint in endpoints {
        digest.update(format!(in alloc; "{endpoint}\n")?.as_bytes());
    }
    Ok(())
}

fn add_texts(digest: &mut Md5, texts: &[Buffer]) {
    for text in texts {
        digest.update(text.deref());
    }
}

// Does one turn of the work, and returns its result.
fn turn_of(alloc: Global, work: &LocalWork) -> Result<Made, AllocError> {
    match work {
        LocalWork::BuildRing(table) => Ok(Made::Ring(Ring::of_table(alloc, table)?)),
        LocalWork::MoveRing(moving) => Ok(Made::Ring(moving.ring_after(alloc)?)),
        LocalWork::Places(ring, tokens) => Ok(Made::Sum(places(ring, tokens))),
        LocalWork::Replicas(ring, tokens, rf) => {
            Ok(Made::Replicas(replicas(alloc, ring, tokens, *rf)?))
        }
        LocalWork::Keys(ring) => Ok(Made::Replicas(replicas_of_keys(alloc, ring)?)),
        LocalWork::Digests => Ok(Made::Digest(digests())),
        LocalWork::MakeTexts(text, count) => Ok(Made::Texts(copies(alloc, text, *count)?)),
        LocalWork::ShareTexts(texts, count, each) => {
            Ok(Made::Shared(share(alloc, texts, *count, *each)?))
        }
        LocalWork::Put(texts, room) => Ok(Made::Text(joined(alloc, texts, *room)?)),
        LocalWork::Head(texts, room) => Ok(Made::Text(headed(alloc, texts, *room)?)),
        LocalWork::Arrivals(silence) => Ok(Made::Verdict(last_verdict(alloc, *silence)?)),
        LocalWork::Verdicts(window) => Ok(Made::Verdict(verdicts(window))),
        LocalWork::Aboves(entry, versions) => {
            Ok(Made::Delta(last_above(alloc, entry, versions)?))
        }
    }
}

fn add_made(alloc: Global, digest: &mut Md5, made: &Made) -> Result<(), Failure> {
    match made {
        Made::Ring(ring) => add_ring(alloc, digest, ring)?,
        Made::Replicas(endpoints) => add_endpoints(alloc, digest, endpoints)?,
        Made::Sum(sum) => digest.update(&sum.to_be_bytes()),
        Made::Digest(last) => digest.update(last),
        Made::Verdict(verdict) => digest.update(verdict.name().as_bytes()),
        Made::Text(text) => digest.update(text),
        Made::Texts(texts) => add_texts(digest, texts),
        Made::Shared(shared) => add_texts(digest, &shared.buffers),
        Made::Delta(delta) => add_message(alloc, digest, &bringing(alloc, delta.as_ref())?)?,
    }
    Ok(())
}

impl Work for LocalWork {
    type Made = Made;

    fn turn(&self, alloc: Global) -> Result<Made, Failure> {
        Ok(turn_of(alloc, self)?)
    }

    fn add(alloc: Global, digest: &mut Md5, made: &Made) -> Result<(), Failure> {
        add_made(alloc, digest, made)
    }
}

fn replicas_of(alloc: Global, rf: usize) -> Result<LocalWork, Failure> {
    let tokens = key_tokens(alloc)?;
    Ok(LocalWork::Replicas(ring(alloc)?, tokens, rf))
}

fn places_of(alloc: Global) -> Result<LocalWork, Failure> {
    let tokens = key_tokens(alloc)?;
    Ok(LocalWork::Places(ring(alloc)?, tokens))
}

fn arrivals_of(silence: Option<Silence>) -> Result<LocalWork, Failure> {
    match silence {
        Some(silence) => Ok(LocalWork::Arrivals(silence)),
        None => Err(Failure::Lacking("settings of a window")),
    }
}

fn verdicts_of(alloc: Global, silence: Option<Silence>) -> Result<LocalWork, Failure> {
    match silence {
        Some(silence) => Ok(LocalWork::Verdicts(heard(alloc, silence)?)),
        None => Err(Failure::Lacking("settings of a window")),
    }
}

fn aboves_of(alloc: Global, above: Above) -> Result<LocalWork, Failure> {
    let entry = asked(alloc, above)?;
    let versions = versions(alloc, above, &entry)?;
    Ok(LocalWork::Aboves(entry, versions))
}

fn share_of(alloc: Global, texts: Texts, each: usize) -> Result<LocalWork, Failure> {
    let buffers = texts.count.checked_div(each).unwrap_or(0);
    let all = text_of(alloc, texts, each)?;
    Ok(LocalWork::ShareTexts(all, buffers, each))
}

// Makes the work of a task.
fn work_of(alloc: Global, task: LocalTask) -> Result<LocalWork, Failure> {
    match task {
        LocalTask::BuildRing => Ok(LocalWork::BuildRing(claimed(alloc)?)),
        LocalTask::MoveRing => Ok(LocalWork::MoveRing(Moving::of(alloc, claimed(alloc)?)?)),
        LocalTask::Places => places_of(alloc),
        LocalTask::Replicas(rf) => replicas_of(alloc, rf),
        LocalTask::Keys => Ok(LocalWork::Keys(ring(alloc)?)),
        LocalTask::Digests => Ok(LocalWork::Digests),
        LocalTask::MakeTexts(texts) => {
            Ok(LocalWork::MakeTexts(text_of(alloc, texts, 1)?, texts.count))
        }
        LocalTask::ShareTexts(texts, each) => share_of(alloc, texts, each),
        LocalTask::Put(texts) => Ok(LocalWork::Put(texts_of(alloc, texts)?, room_for(texts, 0))),
        LocalTask::Head(texts) => Ok(LocalWork::Head(texts_of(alloc, texts)?, room_for(texts, 7))),
        LocalTask::Arrivals => arrivals_of(silence()),
        LocalTask::Verdicts => verdicts_of(alloc, silence()),
        LocalTask::Aboves(above) => aboves_of(alloc, above),
    }
}

// Adds the case of a task.
fn add_case(
    alloc: Global,
    cases: &mut Vec<(CaseName, LocalWork)>,
    name: CaseName,
    task: LocalTask,
) -> Result<(), Failure> {
    let work = work_of(alloc, task)?;
    Ok(cases.push((name, work))?)
}

/// Makes the cases of rings, texts, windows and entries.
pub(crate) fn local_cases(alloc: Global) -> Result<Vec<(CaseName, LocalWork)>, Failure> {
    let mut cases = Vec::new(alloc);
    for (work, on, tag, task) in LOCAL {
        add_case(alloc, &mut cases, CaseName { work, on, tag }, task)?;
    }
    Ok(cases)
}
