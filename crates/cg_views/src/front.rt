//! Prefixes of the operations that were appended, which exist in proofs alone.

ghost use Rattle.std.specs.Prelude.{◌≡◌, ◌<◌, ◌≤◌, ◌^◌, ◌++◌, ◌∷◌, [], length, MatchBool};
ghost use mathlib.Core.List.{IsPrefix};
ghost use Rattle.cg_views.specs.Law.{head_of};

use cg_table::Puts;
use logbook::{Gain, Offer, Plain, Play, Rule, Seen, Start, Word};
use std::marker::{Brand, Model};

/// The rule of the book of operations.
pub struct Law;

impl Rule<Puts, u64> for Law {
    ghost use Rattle.std.specs.Prelude.{[]};
    ghost use base.Fml.{ftrue};
    ghost use Rattle.cg_views.specs.Law.{IsKept};

    ghost holds = { λ cells log. IsKept cells log };

    ghost first = { [] };

    ghost hinted = { λ n log. Unit {0} };

    ghost shows = { λ log. [] };

    ghost keeps = { λ names log. ftrue };

    ghost moves = { λ ask before after answer. Unit {0} };
}

/// A trade of nothing between callers.
pub struct Nothing;

impl Gain<Puts, u64> for Nothing {
    ghost use base.Fml.{ftrue};

    ghost after = { λ names about answer. ftrue };
}

/// A step that adds an operation.
pub struct Add;

impl Play<Puts, u64> for Add {
    ghost use Rattle.cg_views.specs.Law.{Adds};

    ghost then = { Adds };
}

impl Plain<Puts, Puts, u64> for Add {
    ghost use Rattle.std.specs.Prelude.{None};

    ghost ask = { λ puts. puts };

    ghost state = { λ puts. None };
}

/// The views that a publisher and its passes belong to: their book, and the table that they open with.
pub trait Naming {
    ghost use Rattle.logbook.specs.Pages.{Book};
    ghost use Rattle.cg_table.specs.Values.{TableValue};

    ghost book: { Book };

    ghost opening: { TableValue };
}

impl Naming for Brand {
    ghost use Rattle.cg_entry.specs.Entry.{starting_entry};
    ghost use Rattle.cg_table.specs.Table.{lone_table};

    ghost book = { record { number = 0; log_name = 0; cells_name = 0 } };

    ghost opening = { lone_table 0 (starting_entry 0) };
}

/// An empty book. Contracts see which book it is.
#[derive(Drop)]
pub struct Opened {
    head: Word<Puts, u64, Law>,
    seen: Seen<Puts, u64, Law>,
}

impl Model for Opened {
    ghost use Rattle.std.specs.Prelude.{◌≡◌, []};
    ghost use Rattle.logbook.specs.Pages.{Book};
    ghost use Rattle.cg_views.specs.Law.{head_of};

    ghost Value = { Book };

    ghost view = { λ o. o.seen.book };

    ghost invariant = { λ o. (o.seen.log ≡ []) × (o.head ≡ head_of o.seen.book) };
}

impl Opened {
    /// Opens an empty book.
    pub fn new() -> Opened {
        let (seen, mut first, _second) = Seen::open(Start::alone(), 0, 0);
        Opened {
            head: Word::tracked(0, &mut first),
            seen,
        }
    }

    /// Returns the book's word, and the prefix that has seen nothing.
    pub fn begin(self) -> (Head, Front)
        ensures head { result.0.head.book ≡ self }
        ensures front { result.1 ≡ record { of = self; all = [] } }
    {
        let Opened { head, seen } = self;
        (Head { head }, Front { len: 0, seen })
    }
}

/// The word of the book: the number of its operations. The publisher alone holds it.
#[derive(Drop)]
pub struct Head {
    head: Word<Puts, u64, Law>,
    ghost head_is: { head ≡ head_of head.book },
}

/// A prefix of a book's operations. Its only bytes are their number. Contracts see the book and the operations.
#[derive(Drop)]
pub struct Front {
    len: u64,
    seen: Seen<Puts, u64, Law>,
}

impl Model for Front {
    ghost use Rattle.std.specs.Prelude.{◌≡◌, length};
    ghost use Rattle.cg_views.specs.Lists.{FrontValue, front_code};

    ghost Value = { FrontValue };

    ghost coded = { front_code };

    ghost view = { λ f. record { of = f.seen.book; all = f.seen.log } };

    ghost invariant = { λ f. f.len ≡ length f.seen.log };
}

impl Front {
    /// The number of its operations.
    pub fn len(&self) -> u64
        ensures { result ≡ length self.now.all }
    {
        self.len
    }

    /// Returns a copy.
    pub fn again(&self) -> Front
        ensures { result ≡ self.now }
    {
        Front {
            len: self.len,
            seen: self.seen.again(),
        }
    }

    /// Returns `true` if the other has no more operations. Of two prefixes of one book the shorter begins the longer.
    pub fn reaches(&self, other: &Front) -> bool
        requires { other.now.of ≡ self.now.of }
        ensures { MatchBool result (IsPrefix other.now.all self.now.all) (IsPrefix self.now.all other.now.all) }
    {
        let mut both = self.seen.again();
        both.learn(&other.seen);
        other.len <= self.len
    }

    /// Adds an operation if all were seen, and returns whether it did. It did not if the book has more.
    pub fn add(&mut self, book: &Head, puts: &Puts) -> bool
        requires book { book.now.head.book ≡ self.old.of }
        requires room { length self.old.all < 2 ^ 62 }
        ensures { MatchBool result
            (self.new ≡ record { of = self.old.of; all = self.old.all ++ puts.now ∷ [] }) (self.new ≡ self.old) }
    {
        let mut seen = self.seen.again();
        let mut offer: Offer<Puts, u64, Law, Nothing> = seen.plain::<Nothing, Puts, Add>(puts);
        let mut pen = seen.no_pen();
        let len = self.len;
        let found = book
            .head
            .compare_exchange::<Add, Nothing>(len, len + 1, &mut seen, &mut offer, &mut pen);
        if found != len {
            return false;
        }
        self.len = len + 1;
        self.seen = seen;
        true
    }
}
