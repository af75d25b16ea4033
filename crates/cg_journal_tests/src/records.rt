//! Events that make receipts and records, and receipts that are confirmed or not.
//!
//! Each call is tried once, with ample memory.
//!
//! A is 10.0.0.1:7000 and B 10.0.0.2:7000; the cluster is c1. A history is A's at generation 9. That of the examples has
//! two records: caller 1 sets key 1 to NORMAL, and then caller 2 beats.

use crate::samples::applied;
use cg_core::{Event, Reply};
use cg_exchange::syn;
use cg_history::{History, Item, Receipt, UnconfirmedReceipt, confirms};
use cg_messages::{Ack2, OwnerDelta};
use cg_testing::{
    A, B, bare_delta, cluster, endpoint, expect_eq, generation, key, settings, version,
};
use cg_types::{Cluster, Fault, StateText};
use std::alloc::Global;
use std::test::Fail;

fn begun(alloc: Global) -> Result<History, Fail> {
    Ok(History::begin(alloc, endpoint(A), generation(9), settings(alloc)?)?)
}

// The events here: a SYN of another cluster, an ACK2 of a number of endpoints from B on, and others.
#[derive(Clone, Copy)]
enum Of {
    Set,
    Remove,
    Beat,
    Opening,
    ForeignSyn,
    Ack2(u16),
}

fn event(alloc: Global, of: Of) -> Result<Event, Fail> {
    match of {
        Of::Set => Ok(Event::Set {
            key: key(1),
            text: StateText::new(alloc, "NORMAL")?,
        }),
        Of::Remove => Ok(Event::Remove { key: key(1) }),
        Of::Beat => Ok(Event::Beat),
        Of::Opening => Ok(Event::Opening),
        Of::ForeignSyn => foreign_syn(alloc),
        Of::Ack2(count) => ack2_about(alloc, count),
    }
}

fn foreign_syn(alloc: Global) -> Result<Event, Fail> {
    let history = begun(alloc)?;
    let foreign = Cluster::new(alloc, "c2")?;
    let m = syn(alloc, history.node().table(), &foreign)?;
    Ok(Event::Syn { m })
}

fn ack2_about(alloc: Global, count: u16) -> Result<Event, Fail> {
    let mut deltas = Vec::new(alloc);
    for number in 0..count {
        deltas.push(OwnerDelta {
            endpoint: endpoint(B.saturating_add(number)),
            delta: bare_delta(alloc, (1, 0, 1))?,
        })?;
    }
    let m = Ack2::new(deltas).ok_or("an ACK2")?;
    Ok(Event::Ack2 { now: 1000, m })
}

// The history of events, each for its caller.
fn history_of(alloc: Global, events: &[(Of, u32)]) -> Result<History, Fail> {
    let mut history = begun(alloc)?;
    for (of, caller) in events {
        let event = event(alloc, *of)?;
        applied(alloc, &mut history, *caller, event)?;
    }
    Ok(history)
}

// ---- records

// A caller, a number, and the version of a reply that is one.
type Numbers = (u32, u64, Option<u32>);

fn numbers(receipt: &Receipt) -> Numbers {
    let at = match &receipt.reply {
        Reply::Done(version) => Some(version.get()),
        _ => None,
    };
    (receipt.caller, receipt.number, at)
}

// The number of owners that a record puts, and `true` if the last of them is B.
fn owners_put(item: &Item) -> (usize, bool) {
    let rows = item.puts.rows();
    let last = match rows.last() {
        Some(row) => row.endpoint() == endpoint(B),
        None => false,
    };
    (rows.len(), last)
}

// The receipt of a last event, or its fault; the number of records then; and the puts of the last record.
type Told = (Result<Numbers, Fault>, usize, (usize, bool));

fn told(alloc: Global, before: &[(Of, u32)], last: (Of, u32)) -> Result<Told, Fail> {
    let (of, caller) = last;
    let event = event(alloc, of)?;
    let mut history = history_of(alloc, before)?;
    let done = match applied(alloc, &mut history, caller, event) {
        Ok(receipt) => Ok(numbers(&receipt)),
        Err(fault) => Err(fault),
    };
    let records = history.records();
    let put = match records.last() {
        Some(item) => owners_put(item),
        None => (usize::MAX, false),
    };
    Ok((done, records.len(), put))
}

const TWO: &[(Of, u32)] = &[(Of::Set, 1), (Of::Beat, 2)];

// The events before the last one, the last one, and its outcome.
const TOLD: [(&[(Of, u32)], (Of, u32), Told); 9] = [
    (&[], (Of::Set, 1), (Ok((1, 1, Some(2))), 1, (1, false))),
    (
        &[(Of::Set, 1)],
        (Of::Beat, 2),
        (Ok((2, 2, Some(3))), 2, (1, false)),
    ),
    (
        &[(Of::Set, 1)],
        (Of::Remove, 2),
        (Ok((2, 2, Some(3))), 2, (1, false)),
    ),
    (&[], (Of::Beat, 1), (Ok((1, 1, Some(2))), 1, (1, false))),
    (&[], (Of::Opening, 1), (Ok((1, 1, None)), 1, (0, false))),
    (&[], (Of::Ack2(1), 1), (Ok((1, 1, None)), 1, (1, true))),
    // refused events make no record
    (
        &[(Of::Set, 1), (Of::Remove, 1)],
        (Of::Remove, 1),
        (Err(Fault::NoSuchKey), 2, (1, false)),
    ),
    (
        TWO,
        (Of::ForeignSyn, 1),
        (Err(Fault::OtherCluster), 2, (1, false)),
    ),
    (
        TWO,
        (Of::Ack2(512), 1),
        (Err(Fault::TableFull), 2, (1, false)),
    ),
];

#[test]
fn events_make_receipts_and_records(rt: HostRuntime) -> Result<(), Fail> {
    for (place, (before, last, due)) in TOLD.into_iter().enumerate() {
        let told = told(rt.alloc(), before, last)?;
        expect_eq!(told, due, "row {place}")?;
    }
    Ok(())
}

// ---- confirming

// The event of a receipt, the version of its reply, its caller and its number.
type Row = (Of, u32, u32, u64);

fn receipts(alloc: Global, rows: &[Row]) -> Result<Vec<Receipt>, Fail> {
    let mut receipts = Vec::new(alloc);
    for (of, at, caller, number) in rows {
        receipts.push(Receipt {
            caller: *caller,
            number: *number,
            event: event(alloc, *of)?,
            reply: Reply::Done(version(*at)),
        })?;
    }
    Ok(receipts)
}

// The place and the number of the fault of the first receipt that is not confirmed.
fn unconfirmed(confirmed: Result<(), UnconfirmedReceipt>) -> Option<(usize, u8)> {
    match confirmed {
        Ok(()) => None,
        Err(unconfirmed) => Some((unconfirmed.place, unconfirmed.fault.number())),
    }
}

// The same of receipts that the records of the examples' history are to confirm.
fn unconfirmed_receipt(alloc: Global, rows: &[Row]) -> Result<Option<(usize, u8)>, Fail> {
    let receipts = receipts(alloc, rows)?;
    let history = history_of(alloc, TWO)?;
    Ok(unconfirmed(confirms(history.folded(), history.records(), &receipts)))
}

// The receipts of its records.
const SET: Row = (Of::Set, 2, 1, 1);

const BEAT: Row = (Of::Beat, 3, 2, 2);

const UNCONFIRMED: [(&[Row], Option<(usize, u8)>); 10] = [
    // callers are confirmed apart, the numbers of each have to rise
    (&[SET, BEAT], None),
    (&[BEAT, SET], None),
    (&[SET, SET], Some((1, 16))),
    (&[SET, BEAT, SET], Some((2, 16))),
    // another caller, number, reply and event
    (&[(Of::Set, 2, 2, 1)], Some((0, 16))),
    (&[(Of::Set, 2, 1, 0)], Some((0, 16))),
    (&[SET, (Of::Beat, 3, 2, 3)], Some((1, 16))),
    (&[SET, (Of::Beat, 2, 2, 2)], Some((1, 16))),
    (&[SET, (Of::Opening, 3, 2, 2)], Some((1, 16))),
    (&[(Of::Remove, 2, 1, 1)], Some((0, 16))),
];

// The receipts of `count` beats of a history by two callers in turn.
fn beats(alloc: Global, history: &mut History, count: u32) -> Result<Vec<Receipt>, Fail> {
    let mut receipts = Vec::new(alloc);
    for turn in 0..count {
        receipts.push(applied(alloc, history, turn % 2, Event::Beat)?)?;
    }
    Ok(receipts)
}

// Of `count` beats by two callers in turn: the number of records, and the first unconfirmed receipt of all receipts,
// and of them with the last one's number changed.
fn confirmed_of(
    alloc: Global,
    count: u32,
) -> Result<(usize, Option<(usize, u8)>, Option<(usize, u8)>), Fail> {
    let mut history = begun(alloc)?;
    let mut receipts = beats(alloc, &mut history, count)?;
    let all = unconfirmed(history.confirms(&receipts));
    if let Some(last) = receipts.last_mut() {
        last.number = 1;
    }
    let changed = unconfirmed(history.confirms(&receipts));
    Ok((history.records().len(), all, changed))
}

#[test]
fn receipts_are_confirmed(rt: HostRuntime) -> Result<(), Fail> {
    for (place, (rows, due)) in UNCONFIRMED.into_iter().enumerate() {
        let unconfirmed = unconfirmed_receipt(rt.alloc(), rows)?;
        expect_eq!(unconfirmed, due, "row {place}")?;
    }
    let confirmed = confirmed_of(rt.alloc(), 100_000)?;
    expect_eq!(confirmed, (100_000, None, Some((99_999, 16))))
}

#[test]
fn an_unconfirmed_receipt_says_where(rt: HostRuntime) -> Result<(), Fail> {
    let fault = Fault::Stranger;
    let told = format!(in rt.alloc(); "{}", UnconfirmedReceipt { place: 2, fault })?;
    expect_eq!(
        told.as_str(),
        "receipt 2, counted from 0, is not confirmed: 16 Stranger"
    )
}
