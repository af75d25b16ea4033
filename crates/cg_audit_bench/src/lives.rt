//! Lives to audit: pairs of endpoints that exchange what they hold, over and over.

use anyhow::{Context, Result};
use cg_audit::Lives;
use cg_core::Event;
use cg_history::History;
use cg_messages::BorrowedMessage;
use cg_testing::{endpoint, generation, settings};
use std::alloc::{AllocError, Global};
use std::hint::black_box;

/// The approximate number of items, and the number of endpoints.
#[derive(Clone, Copy)]
pub(crate) struct Size {
    pub(crate) items: u32,
    pub(crate) endpoints: u16,
}

// The time of each arrival, in milliseconds.
const NOW: u64 = 2000;

// The number of events of a beat and an exchange.
const EXCHANGE: u32 = 5;

fn begun(alloc: Global, number: u16) -> Result<History> {
    Ok(History::begin(alloc, endpoint(number), generation(5), settings(alloc)?)?)
}

// Returns the event that hands a message over.
fn arrival(alloc: Global, message: BorrowedMessage<'_>) -> Result<Event, AllocError> {
    Ok(match message {
        BorrowedMessage::Syn(m) => Event::Syn { m: m.copy(alloc)? },
        BorrowedMessage::Ack(m) => Event::Ack {
            now: NOW,
            m: m.copy(alloc)?,
        },
        BorrowedMessage::Ack2(m) => Event::Ack2 {
            now: NOW,
            m: m.copy(alloc)?,
        },
    })
}

// Returns the event that hands over the message sent last.
fn handed(alloc: Global, from: &History) -> Result<Event> {
    let last = from.records().last().context("a record")?;
    let message = last.reply.message().context("a message")?;
    Ok(arrival(alloc, message)?)
}

fn done(alloc: Global, history: &mut History, event: Event) -> Result<()> {
    black_box(history.apply(alloc, 0, event)?);
    Ok(())
}

// Beats the opener, and has the two exchange what they hold.
fn exchange(alloc: Global, opener: &mut History, answerer: &mut History) -> Result<()> {
    done(alloc, opener, Event::Beat)?;
    done(alloc, opener, Event::Opening)?;
    let syn = handed(alloc, opener)?;
    done(alloc, answerer, syn)?;
    let ack = handed(alloc, answerer)?;
    done(alloc, opener, ack)?;
    let ack2 = handed(alloc, opener)?;
    done(alloc, answerer, ack2)
}

fn life(alloc: Global, number: u16, history: History) -> Result<Lives> {
    let mut histories = Vec::with_capacity(alloc, 1)?;
    histories.push(history)?;
    Lives::new(endpoint(number), histories).context("lives")
}

// Adds the lives of two endpoints after this number of exchanges.
fn add_pair(alloc: Global, all: &mut Vec<Lives>, first: u16, exchanges: u32) -> Result<()> {
    let second = first.wrapping_add(1);
    let mut opener = begun(alloc, first)?;
    let mut answerer = begun(alloc, second)?;
    for _ in 0..exchanges {
        exchange(alloc, &mut opener, &mut answerer)?;
    }
    all.push(life(alloc, first, opener)?)?;
    all.push(life(alloc, second, answerer)?)?;
    Ok(())
}

/// Returns the lives of this number of endpoints, two by two, with about this number of items in all.
pub(crate) fn all_lives(alloc: Global, size: Size) -> Result<Vec<Lives>> {
    let pairs = size.endpoints / 2;
    let each = size.items.checked_div(u32::from(pairs)).unwrap_or(0);
    let mut all = Vec::new(alloc);
    for pair in 0..pairs {
        add_pair(alloc, &mut all, pair.wrapping_mul(2), each / EXCHANGE)?;
    }
    Ok(all)
}
