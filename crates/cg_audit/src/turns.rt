//! The search for an order by turns: at each turn the least endpoint goes whose next item can go.

ghost use Rattle.std.specs.Prelude.{◌≡◌, ◌<◌, ◌==◌, ◌++◌, ◌&&◌, IsTrue, IfOk, IfSome, Some, length, map, is_some, nat_lt, slice_get, slice_index};
ghost use Rattle.std.specs.Option.{option_map, option_to_list};
ghost use Rattle.cg_messages.specs.Borrowed.{borrowed_message};
ghost use Rattle.cg_audit.specs.Turns.{endpoints_of};
ghost use Rattle.cg_audit.specs.Index.{HaveTheSame};
ghost use Rattle.cg_audit.specs.Steps.{run_item};
ghost use Rattle.cg_audit.specs.Audit.{life_item};
ghost use Rattle.cg_audit.specs.Lives.{differ};
ghost use Rattle.cg_audit.specs.Tracks as spec;
ghost use Rattle.cg_audit.specs.Tracks.{IsFound, IsNext, better_place, found_of, goes, heads_left, ready_item, track_at, track_of, tracks};

use crate::cursor::{Cursor, advanced, cursors, first};
use crate::index::SentMessages;
use crate::item::{AuditFault, LifeItem, Order};
use crate::lives::Lives;
use cg_messages::BorrowedMessage;
use cg_types::Endpoint;
use std::alloc::{AllocError, Global};

// Returns `true` if there is no message, or if it was sent.
fn can_go(handled: Option<BorrowedMessage<'_>>, sent: &SentMessages<'_>) -> bool
    ensures { result ≡ goes sent.now (option_map borrowed_message handled.entry) }
{
    match handled {
        None => true,
        Some(message) => sent.contains(message),
    }
}

// Returns `true` if the next item of some lives can go.
fn is_ready(lives: &Lives, cursor: Cursor, sent: &SentMessages<'_>) -> bool
    ensures { result ≡ is_some (ready_item sent.now (track_at lives.now cursor).left) }
{
    match first(lives, cursor) {
        None => false,
        Some(step) => can_go(step.handled, sent),
    }
}

fn endpoint_at(lives: &[Lives], place: usize) -> Endpoint
    requires { place < length lives.now }
    ensures { result ≡ slice_index (endpoints_of lives.now) place }
{
    lives[place].endpoint()
}

fn is_less(one: Endpoint, other: Endpoint) -> bool
    ensures { result ≡ nat_lt one other }
{
    one < other
}

// Returns `true` if the endpoint at a place is less than the one that was chosen, or if none was.
fn is_before(lives: &[Lives], place: usize, chosen: Option<usize>) -> bool
    requires place { place < length lives.now }
    requires chosen { IfSome chosen (λ c. c < length lives.now) }
    ensures { result ≡ spec.is_before (endpoints_of lives.now) place chosen }
{
    match chosen {
        None => true,
        Some(chosen) => is_less(endpoint_at(lives, place), endpoint_at(lives, chosen)),
    }
}

fn lives_at(lives: &[Lives], place: usize) -> &Lives
    requires { place < length lives.now }
    ensures { slice_get lives.now place ≡ Some result.now }
{
    &lives[place]
}

fn cursor_at(cursors: &[Cursor], place: usize) -> Cursor
    requires { place < length cursors.now }
    ensures { slice_get cursors.now place ≡ Some result }
{
    cursors[place]
}

// Returns `true` if the next item of the lives at a place can go.
fn is_ready_at(lives: &[Lives], cursors: &[Cursor], sent: &SentMessages<'_>, place: usize) -> bool
    requires count { length cursors.now ≡ length lives.now }
    requires place { place < length lives.now }
    ensures { result ≡ spec.is_ready sent.now (tracks lives.now cursors.now) place }
{
    let one = lives_at(lives, place);
    let cursor = cursor_at(cursors, place);
    is_ready(one, cursor, sent)
}

// Returns `true` if the item at a place goes before the one that was chosen.
fn is_better(
    lives: &[Lives],
    cursors: &[Cursor],
    sent: &SentMessages<'_>,
    place: usize,
    chosen: Option<usize>,
) -> bool
    requires count { length cursors.now ≡ length lives.now }
    requires place { place < length lives.now }
    requires chosen { IfSome chosen (λ c. c < length lives.now) }
    ensures { result
        ≡ (spec.is_before (endpoints_of lives.now) place chosen
        && spec.is_ready sent.now (tracks lives.now cursors.now) place) }
{
    is_before(lives, place, chosen) && is_ready_at(lives, cursors, sent, place)
}

// Returns the place that goes, of the chosen one and another.
fn better(
    lives: &[Lives],
    cursors: &[Cursor],
    sent: &SentMessages<'_>,
    place: usize,
    chosen: Option<usize>,
) -> Option<usize>
    requires count { length cursors.now ≡ length lives.now }
    requires place { place < length lives.now }
    requires chosen { IfSome chosen (λ c. c < length lives.now) }
    ensures { result
        ≡ better_place sent.now (endpoints_of lives.now) (tracks lives.now cursors.now) place chosen }
{
    if is_better(lives, cursors, sent, place, chosen) {
        Some(place)
    } else {
        chosen
    }
}

// Returns the place of the least endpoint whose next item can go, if one can.
fn next(lives: &[Lives], cursors: &[Cursor], sent: &SentMessages<'_>) -> Option<usize>
    requires { length cursors.now ≡ length lives.now }
    ensures { IsNext sent.now (tracks lives.now cursors.now) result }
{
    let mut chosen = None;
    for place in 0..lives.len() {
        chosen = better(lives, cursors, sent, place, chosen);
    }
    chosen
}

// Returns the number of items, or the greatest number if there are more.
fn count_of(lives: &[Lives]) -> usize {
    let mut count: usize = 0;
    for one in lives {
        for history in one.histories() {
            count = count.saturating_add(history.records().len());
        }
    }
    count
}

// Returns the messages sent, with one more message, if there is one.
fn with_message<'a>(
    sent: SentMessages<'a>,
    message: Option<BorrowedMessage<'a>>,
) -> Result<SentMessages<'a>, AllocError>
    ensures { IfOk result (λ s.
        HaveTheSame s (sent.entry ++ option_to_list (option_map borrowed_message message.entry))) }
{
    match message {
        None => Ok(sent),
        Some(message) => sent.with(message),
    }
}

// Returns the next item of each endpoint that has one.
fn heads(alloc: Global, lives: &[Lives], cursors: &[Cursor]) -> Result<Vec<LifeItem>, AllocError>
    requires { length cursors.now ≡ length lives.now }
    ensures { IfOk result (λ v. v.items ≡ map life_item (heads_left (tracks lives.now cursors.now))) }
{
    let mut heads = Vec::new(alloc);
    for place in 0..lives.len() {
        let one = lives_at(lives, place);
        let cursor = cursor_at(cursors, place);
        match first(one, cursor) {
            None => {}
            Some(step) => heads.push(step.item)?,
        }
    }
    Ok(heads)
}

fn is_empty(heads: &[LifeItem]) -> bool
    ensures { result ≡ (length heads.now == 0) }
{
    heads.is_empty()
}

/// Returns the order of all items by turns, or the heads that are left if no item can go.
pub(crate) fn by_turns(alloc: Global, lives: &[Lives]) -> Result<Order, AuditFault>
    requires { IsTrue (differ lives.now) }
    ensures { IsFound (found_of (map track_of lives.now)) result }
{
    let mut cursors = cursors(alloc, lives)?;
    let mut sent = SentMessages::none(alloc, count_of(lives))?;
    let mut items = Vec::new(alloc);
    while let Some(place) = next(lives, &cursors, &sent) {
        let one = lives_at(lives, place);
        let cursor = cursor_at(&cursors, place);
        let Some(step) = first(one, cursor) else {
            unreachable!()
        };
        items.push(step.item)?;
        sent = with_message(sent, step.sent)?;
        cursors[place] = advanced(one, cursor);
    }
    let heads = heads(alloc, lives, &cursors)?;
    if is_empty(&heads) {
        return Ok(Order { items });
    }
    Err(AuditFault::Stuck(heads))
}
