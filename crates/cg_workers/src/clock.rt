//! The clock from which a node's times are read.

ghost use Rattle.std.specs.Prelude.{ℕ};

/// A clock of milliseconds. It may be read by many threads.
pub trait Milliseconds {
    // the times that a clock shows
    ghost shows: { Self → ℕ → Type 0 } = { λ c n. Unit {0} };

    /// Returns the present time, in milliseconds since a time of the clock's own.
    fn now(&self) -> u64
        ensures { shows self.now result };
}
