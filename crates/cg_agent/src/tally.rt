//! The exchanges that broke off, as a line tells of them.

ghost use Rattle.std.specs.Prelude.{◌≡◌, ◌+◌, ◌-◌, ◌^◌, None, Some, min};

use cg_types::Fault;

/// The exchanges that broke off since the last line about them: how many, and the fault of the last one.
#[derive(Clone, Copy, Drop)]
pub(crate) struct Tally {
    pub(crate) count: u64,
    pub(crate) last: Option<Fault>,
}

impl Tally {
    /// Begins with none.
    pub(crate) fn new() -> Tally
        ensures { result ≡ record { count = 0; last = None } }
    {
        Tally {
            count: 0,
            last: None,
        }
    }

    /// Counts one that broke off by this fault.
    pub(crate) fn add(&mut self, fault: Fault)
        ensures { self.new ≡ record { count = min (self.old.count + 1) (2 ^ 64 - 1); last = Some fault } }
    {
        self.count = self.count.saturating_add(1);
        self.last = Some(fault);
    }

    /// Returns what was counted, and begins anew.
    pub(crate) fn take(&mut self) -> Tally
        ensures result { result ≡ self.old }
        ensures anew { self.new ≡ record { count = 0; last = None } }
    {
        let counted = *self;
        *self = Tally::new();
        counted
    }
}
