//! Cases of gossip made ready: the inputs of each task.

use crate::cases::{GossipTask, SHAPED, SMALL, SMALL_SHAPE, WIDE, WIDE_SHAPE};
use crate::frames::spoilt;
use crate::gossip::{answered, first_answer};
use crate::messages::{Brings, Opens, Said, ack2_of, held_in, message, tables_of};
use crate::work::GossipWork;
use bytes::Bytes;
use cg_frames::encode;
use cg_measure::{CaseName, Failure, Held, Shape};
use cg_table::Table;
use cg_testing::cluster;
use std::alloc::Global;

fn frame(alloc: Global, tables: &[Table], said: Said) -> Result<Bytes, Failure> {
    Ok(encode(alloc, &message(alloc, tables, said)?)?)
}

fn check(alloc: Global, tables: &[Table], said: Said) -> Result<GossipWork, Failure> {
    let message = message(alloc, tables, said)?;
    Ok(GossipWork::Check(spoilt(alloc, &message)?))
}

fn copy(alloc: Global, tables: &[Table], held: Held) -> Result<Table, Failure> {
    Ok(held_in(tables, held)?.copy(alloc)?)
}

fn open(alloc: Global, tables: &[Table]) -> Result<GossipWork, Failure> {
    let cluster = cluster(alloc)?;
    Ok(GossipWork::Open(copy(alloc, tables, Held::Plain)?, cluster))
}

fn answer(
    alloc: Global,
    tables: &[Table],
    held: Held,
    opens: Opens,
) -> Result<GossipWork, Failure> {
    let cluster = cluster(alloc)?;
    let frame = frame(alloc, tables, Said::Syn(opens))?;
    let table = copy(alloc, tables, held)?;
    let room = answered(alloc, &table, &cluster, &frame, 0)?.len();
    Ok(GossipWork::Answer(table, cluster, frame, room))
}

fn take_ack(
    alloc: Global,
    tables: &[Table],
    held: Held,
    brings: Brings,
) -> Result<GossipWork, Failure> {
    let frame = frame(alloc, tables, Said::Ack(brings))?;
    Ok(GossipWork::TakeAck(copy(alloc, tables, held)?, frame))
}

fn take_ack2(
    alloc: Global,
    tables: &[Table],
    held: Held,
    brings: Brings,
) -> Result<GossipWork, Failure> {
    let ack2 = ack2_of(alloc, tables, brings)?;
    Ok(GossipWork::TakeAck2(copy(alloc, tables, held)?, ack2))
}

fn exchange(
    alloc: Global,
    tables: &[Table],
    opener: Held,
    answerer: Held,
) -> Result<GossipWork, Failure> {
    let cluster = cluster(alloc)?;
    let opener = copy(alloc, tables, opener)?;
    let answerer = copy(alloc, tables, answerer)?;
    let room = first_answer(alloc, &opener, &answerer, &cluster, 0)?.len();
    Ok(GossipWork::Exchange(opener, answerer, cluster, room))
}

// Makes the work of a task on these tables.
fn work_of(alloc: Global, tables: &[Table], task: GossipTask) -> Result<GossipWork, Failure> {
    match task {
        GossipTask::Encode(said) => Ok(GossipWork::Encode(message(alloc, tables, said)?)),
        GossipTask::Decode(said) => Ok(GossipWork::Decode(frame(alloc, tables, said)?)),
        GossipTask::Check(said) => check(alloc, tables, said),
        GossipTask::Open => open(alloc, tables),
        GossipTask::Answer(held, opens) => answer(alloc, tables, held, opens),
        GossipTask::TakeAck(held, brings) => take_ack(alloc, tables, held, brings),
        GossipTask::TakeAck2(held, brings) => take_ack2(alloc, tables, held, brings),
        GossipTask::Exchange(opener, answerer) => exchange(alloc, tables, opener, answerer),
    }
}

// Adds the case of a task on these tables.
fn add_case(
    alloc: Global,
    cases: &mut Vec<(CaseName, GossipWork)>,
    name: CaseName,
    tables: &[Table],
    task: GossipTask,
) -> Result<(), Failure> {
    let work = work_of(alloc, tables, task)?;
    Ok(cases.push((name, work))?)
}

/// Makes the cases of a SYN and of heartbeats.
pub(crate) fn small(alloc: Global) -> Result<Vec<(CaseName, GossipWork)>, Failure> {
    let tables = tables_of(alloc, SMALL_SHAPE)?;
    let mut cases = Vec::new(alloc);
    for (work, on, tag, task) in SMALL {
        add_case(alloc, &mut cases, CaseName { work, on, tag }, &tables, task)?;
    }
    Ok(cases)
}

// Makes the cases of these tasks, which have this tag.
fn tagged(
    alloc: Global,
    tag: &'static str,
    tables: &[Table],
    tasks: &[(&'static str, &'static str, GossipTask)],
) -> Result<Vec<(CaseName, GossipWork)>, Failure> {
    let mut cases = Vec::new(alloc);
    for &(work, on, task) in tasks {
        add_case(alloc, &mut cases, CaseName { work, on, tag }, tables, task)?;
    }
    Ok(cases)
}

/// Makes the cases at tables of a shape, which has this tag.
pub(crate) fn shaped(
    alloc: Global,
    tag: &'static str,
    shape: Shape,
) -> Result<Vec<(CaseName, GossipWork)>, Failure> {
    tagged(alloc, tag, &tables_of(alloc, shape)?, &SHAPED)
}

/// Makes the cases at full tables.
pub(crate) fn wide(alloc: Global) -> Result<Vec<(CaseName, GossipWork)>, Failure> {
    tagged(alloc, "512x16x64", &tables_of(alloc, WIDE_SHAPE)?, &WIDE)
}
