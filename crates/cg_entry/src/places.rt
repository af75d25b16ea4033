//! Lists of at most 16 places, without memory of their own.

ghost use Rattle.std.specs.Prelude.{◌≡◌, ◌<◌, ◌≤◌, ◌-◌, ◌&&◌, ◌++◌, [], ◌∷◌, insert, length, map, nat_le, nat_lt, slice_set, suc, take, if◌then◌else◌};
ghost use Rattle.std.specs.List.{filter, range_with_len, AllByRecursion};
ghost use Rattle.cg_entry.specs.Block.{bumped, closed, lowered};

use std::marker::Model;

// At most 16 numbers, which are places in a vector.
#[derive(Debug, Drop)]
pub(crate) struct Places {
    slots: [u8; 16],
    count: u8,
}

impl Model for Places {
    ghost use Rattle.std.specs.Prelude.{List, ℕ, take, ◌≤◌};
    ghost use Rattle.std.specs.Coded.{coded_list, coded_ℕ};

    ghost Value = { List ℕ };

    ghost coded = { coded_list coded_ℕ };

    ghost view = { λ p. take p.count p.slots };

    ghost invariant = { λ p. p.count ≤ 16 };
}

// A place, once the element at `at` is taken out.
fn closed_place(place: u8, at: u8) -> u8
    ensures { result ≡ if nat_lt at place then place - 1 else place }
{
    if place > at { place - 1 } else { place }
}

// All slots, once the element at `at` is taken out: also those behind the count, so that there is no branch.
fn closed_slots(before: [u8; 16], at: u8) -> [u8; 16]
    ensures { result ≡ closed at before }
{
    let mut slots = before;
    for number in 0..16 {
        slots[number] = closed_place(slots[number], at);
    }
    slots
}

// A slot, once an element is put at `at`. One that is no place stays.
fn bumped_slot(slot: u8, at: u8) -> u8
    ensures { result ≡ if nat_lt slot 16 && nat_le at slot then suc slot else slot }
{
    if slot < 16 && at <= slot {
        slot + 1
    } else {
        slot
    }
}

// All slots, once an element is put at `at`: also those behind the count.
fn bumped_slots(before: [u8; 16], at: u8) -> [u8; 16]
    ensures { result ≡ map (λ p. (if nat_lt p 16 && nat_le at p then suc p else p)) before }
{
    let mut slots = before;
    for number in 0..16 {
        slots[number] = bumped_slot(slots[number], at);
    }
    slots
}

impl Places {
    pub(crate) fn none() -> Places
        ensures { result ≡ [] }
    {
        Places {
            slots: [0; 16],
            count: 0,
        }
    }

    // The places of a vector of `count` elements, in its own order.
    pub(crate) fn first(count: u8) -> Places
        requires { count ≤ 16 }
        ensures { result ≡ range_with_len 0 count }
    {
        Places {
            slots: [0, 1, 2, 3, 4, 5, 6, 7, 8, 9, 10, 11, 12, 13, 14, 15],
            count,
        }
    }

    pub(crate) fn as_slice(&self) -> &[u8]
        ensures value { result.now ≡ self.now }
        ensures few { length result.now ≤ 16 }
    {
        &self.slots[..self.count as usize]
    }

    pub(crate) fn push(&mut self, place: u8)
        requires { length self.old < 16 }
        ensures { self.new ≡ self.old ++ place ∷ [] }
    {
        self.slots[self.count as usize] = place;
        self.count += 1;
    }

    pub(crate) fn copy(&self) -> Places
        ensures { result ≡ self.now }
    {
        Places {
            slots: self.slots,
            count: self.count,
        }
    }

    // The places with another one at this number.
    pub(crate) fn set(&mut self, number: usize, place: u8)
        requires { number < length self.old }
        ensures { self.new ≡ slice_set self.old number place }
    {
        self.slots[number] = place;
    }

    // The first places, up to this number.
    fn front(&self, number: usize) -> Places
        requires { number ≤ length self.now }
        ensures { result ≡ take number self.now }
    {
        Places {
            slots: self.slots,
            count: number as u8,
        }
    }

    // The places with one more at this number, before those from there on.
    pub(crate) fn with(&self, number: usize, place: u8) -> Places
        requires few { length self.now < 16 }
        requires within { number ≤ length self.now }
        ensures { result ≡ insert self.now number place }
    {
        let mut more = self.front(number);
        more.push(place);
        for next in &self.as_slice()[number..] {
            more.push(*next);
        }
        more
    }

    // The places from `from` on, in a vector that begins there.
    pub(crate) fn lowered(&self, from: u8) -> Places
        ensures { result ≡ lowered from self.now }
    {
        let mut lower = Places::none();
        for place in self.as_slice() {
            if *place >= from {
                lower.push(*place - from);
            }
        }
        lower
    }

    // The same places, once the element at `at` is taken out.
    pub(crate) fn closed(&self, at: u8) -> Places
        ensures { result ≡ closed at self.now }
    {
        Places {
            slots: closed_slots(self.slots, at),
            count: self.count,
        }
    }

    // The places once the element at `at`, whose place has this number, is taken out and another one put at the end.
    pub(crate) fn moved(&self, number: usize, at: u8, last: u8) -> Places
        requires { number < length self.now }
        ensures { result ≡ slice_set (closed at self.now) number last }
    {
        let mut places = self.closed(at);
        places.set(number, last);
        places
    }

    // The same places, once an element is put at `at`.
    pub(crate) fn bumped(&self, at: u8) -> Places
        requires { AllByRecursion (λ p. p < 16) self.now }
        ensures { result ≡ bumped at self.now }
    {
        Places {
            slots: bumped_slots(self.slots, at),
            count: self.count,
        }
    }

    // The same places, once an element is put at `at` in a vector of `count`: behind all, none is moved.
    pub(crate) fn make_room(&mut self, at: u8, count: u8)
        requires few { count ≤ 16 }
        requires within { AllByRecursion (λ p. p < count) self.old }
        ensures { self.new ≡ bumped at self.old }
    {
        if count <= at {
            return;
        }
        *self = self.bumped(at);
    }
}
