//! A log that is told of each record before a history keeps it.

ghost use Rattle.std.specs.Prelude.{◌≡◌, ◌++◌, ◌∷◌, [], List, MatchBool};
ghost use Rattle.cg_history.specs.declared.item.Item.{Item as ItemValue};

use crate::item::Item;

/// A log of records, which is told of each one before a history keeps it.
pub trait Log {
    // the records that it was told, the first one first
    ghost told: { Self → List ItemValue };

    /// Takes a record in, and returns whether it did. If it did not, nothing changes.
    fn add(&mut self, item: &Item) -> bool
        ensures { MatchBool result (told self.new ≡ told self.old ++ item.now ∷ []) (self.new ≡ self.old) };
}
