//! A log of records, which exists in proofs alone, and the prefixes of it that were seen.

ghost use Rattle.std.specs.Prelude.{◌≡◌, ◌+◌, ◌*◌, ◌<◌, ◌≤◌, ◌^◌, ◌++◌, ◌∷◌, [], length, IfSome, MatchBool};
ghost use mathlib.Core.List.{IsPrefix};
ghost use Rattle.logbook.specs.Pages.{nib, may_write};
ghost use Rattle.cg_locked.specs.Log.{head_of};

use crate::name::Name;
use cg_history::Item;
use logbook::{Gain, Offer, Pen, Plain, Play, Rule, Seen, Start, Word};
use std::marker::{Model, PhantomData};

/// The rule of the log.
pub struct Law;

impl Rule<Item, u64> for Law {
    ghost use Rattle.std.specs.Prelude.{[]};
    ghost use base.Fml.{ftrue};
    ghost use Rattle.cg_locked.specs.Log.{IsKept};

    ghost holds = { λ cells log. IsKept cells log };

    ghost first = { [] };

    ghost hinted = { λ n log. Unit {0} };

    ghost shows = { λ log. [] };

    ghost keeps = { λ names log. ftrue };

    ghost moves = { λ ask before after answer. Unit {0} };
}

/// A trade of nothing between callers.
pub struct Nothing;

impl Gain<Item, u64> for Nothing {
    ghost use base.Fml.{ftrue};

    ghost after = { λ names about answer. ftrue };
}

/// A step that prepares a place for a record.
pub struct Prepare;

impl Play<Item, u64> for Prepare {
    ghost use Rattle.cg_locked.specs.Log.{Prepares};

    ghost then = { Prepares };
}

impl Plain<(), Item, u64> for Prepare {
    ghost use Rattle.std.specs.Prelude.{None};
    ghost use Rattle.cg_locked.specs.Log.{no_item};

    ghost ask = { λ u. no_item };

    ghost state = { λ u. None };
}

/// A step that adds a record.
pub struct Add;

impl Play<Item, u64> for Add {
    ghost use Rattle.cg_locked.specs.Log.{Adds};

    ghost then = { Adds };
}

impl Plain<Item, Item, u64> for Add {
    ghost use Rattle.std.specs.Prelude.{None};

    ghost ask = { λ item. item };

    ghost state = { λ item. None };
}

/// A step that looks at all records.
pub struct Look;

impl Play<Item, u64> for Look {
    ghost use Rattle.cg_locked.specs.Log.{Looks};

    ghost then = { Looks };
}

/// An empty log, under no name yet. Contracts see which book it is.
#[derive(Drop)]
pub(crate) struct OpenedLog {
    head: Word<Item, u64, Law>,
    seen: Seen<Item, u64, Law>,
}

impl Model for OpenedLog {
    ghost use Rattle.std.specs.Prelude.{◌≡◌, []};
    ghost use Rattle.logbook.specs.Pages.{Book, book_coded};
    ghost use Rattle.cg_locked.specs.Log.{head_of};

    ghost Value = { Book };

    ghost coded = { book_coded };

    ghost view = { λ o. o.seen.book };

    ghost invariant = { λ o. (o.seen.log ≡ []) × (o.head ≡ head_of o.seen.book) };
}

// Prepares the place behind the records, and returns the right to it. `None` if there are more records.
fn prepared(head: &Word<Item, u64, Law>, seen: &Seen<Item, u64, Law>, word: u64) -> Option<Pen>
    requires head { head.now ≡ head_of seen.now.book }
    requires word { word ≤ 2 * length seen.now.log + 1 }
    requires room { word < 2 ^ 63 }
    ensures book { IfSome result (λ p. p.book ≡ seen.now.book) }
    ensures place { IfSome result (λ p. (p.nib ≡ nib may_write p.nib.key 0)
        × (p.nib.key + length seen.now.log ≡ word + 2)) }
{
    let mut seen = seen.again();
    let mut offer: Offer<Item, u64, Law, Nothing> = seen.plain::<Nothing, (), Prepare>(&());
    let mut pen = seen.no_pen();
    let found = head.compare_exchange::<Prepare, Nothing>(
        word,
        word + 1,
        &mut seen,
        &mut offer,
        &mut pen,
    );
    if found != word {
        return None;
    }
    let _place: Word<Item, u64, Law> = Word::tracked(0, &mut pen);
    Some(pen)
}

impl OpenedLog {
    /// Opens an empty log.
    pub(crate) fn new() -> OpenedLog {
        let (seen, mut first, _second) = Seen::open(Start::alone(), 0, 0);
        OpenedLog {
            head: Word::tracked(0, &mut first),
            seen,
        }
    }

    /// Returns the log of a name, with no records. Nobody else has the log, so it is never refused, though no proof says
    /// so.
    pub(crate) fn named<N: Name>(self) -> Option<Log<N>>
        requires { self ≡ N.log }
        ensures { IfSome result (λ l. l ≡ []) }
    {
        let OpenedLog { head, seen } = self;
        let Some(place) = prepared(&head, &seen, 0) else {
            return None;
        };
        Some(Log {
            len: 0,
            head,
            place,
            seen,
            of: PhantomData,
        })
    }
}

/// The log of a name. Its only bytes are the number of its records and a word. The place behind the records is its own,
/// so that nobody else adds one. Contracts see the records.
#[derive(Drop)]
pub(crate) struct Log<N: Name> {
    len: u64,
    head: Word<Item, u64, Law>,
    place: Pen,
    seen: Seen<Item, u64, Law>,
    of: PhantomData<N>,
}

impl<N: Name> Model for Log<N> {
    ghost use Rattle.std.specs.Prelude.{◌≡◌, List, length};
    ghost use Rattle.std.specs.Coded.{coded_list};
    ghost use Rattle.cg_history.specs.declared.item.Item.{Item};
    ghost use Rattle.cg_history.specs.Items.{item_code};
    ghost use Rattle.cg_locked.specs.Log.{head_of, place_behind};

    ghost Value = { List Item };

    ghost coded = { coded_list item_code };

    ghost view = { λ l. l.seen.log };

    ghost invariant = { λ l. (l.len ≡ length l.seen.log) × (l.seen.book ≡ N.log) × (l.head ≡ head_of N.log)
        × (l.place.book ≡ N.log) × (l.place.nib ≡ place_behind l.seen.log) };
}

/// A prefix of a name's log, which was seen. It has no bytes. Contracts see its records.
#[derive(Drop)]
pub(crate) struct Front<N: Name> {
    seen: Seen<Item, u64, Law>,
    of: PhantomData<N>,
}

impl<N: Name> Model for Front<N> {
    ghost use Rattle.std.specs.Prelude.{◌≡◌, List};
    ghost use Rattle.std.specs.Coded.{coded_list};
    ghost use Rattle.cg_history.specs.declared.item.Item.{Item};
    ghost use Rattle.cg_history.specs.Items.{item_code};

    ghost Value = { List Item };

    ghost coded = { coded_list item_code };

    ghost view = { λ f. f.seen.log };

    ghost invariant = { λ f. f.seen.book ≡ N.log };
}

impl<N: Name> Log<N> {
    /// Returns all records, as a prefix.
    pub(crate) fn front(&self) -> Front<N>
        ensures { result ≡ self.now }
    {
        Front {
            seen: self.seen.again(),
            of: PhantomData,
        }
    }

    /// Finds that the log begins with a prefix that was seen.
    pub(crate) fn meet(&mut self, front: &Front<N>)
        ensures same { self.new ≡ self.old }
        ensures begins { IsPrefix front.now self.new }
    {
        let mut all = self.seen.again();
        all.learn(&front.seen);
        let mut offer: Offer<Item, u64, Law, Nothing> = all.plain::<Nothing, (), Prepare>(&());
        self.head
            .compare_exchange::<Look, Nothing>(0, 0, &mut all, &mut offer, &mut self.place);
    }
}

/// Nobody else adds a record, so `add` always does, up to 2^62 records, though no proof says so.
impl<N: Name> cg_history::Log for Log<N> {
    ghost told = { λ l. l };

    fn add(&mut self, item: &Item) -> bool {
        if self.len >= 1 << 62 {
            return false;
        }
        let word = 2 * self.len + 2;
        let Some(next) = prepared(&self.head, &self.seen, word - 1) else {
            return false;
        };
        let mut seen = self.seen.again();
        let mut offer: Offer<Item, u64, Law, Nothing> = seen.plain::<Nothing, Item, Add>(item);
        let found = self
            .head
            .compare_exchange::<Add, Nothing>(
                word,
                word + 1,
                &mut seen,
                &mut offer,
                &mut self.place,
            );
        if found != word {
            return false;
        }
        self.len += 1;
        self.place = next;
        self.seen = seen;
        true
    }
}
