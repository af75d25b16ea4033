//! The greatest number so far, for each group of callers.

ghost use Rattle.std.specs.Prelude.{◌≡◌, ℕ, ◌≤◌};
ghost use Rattle.cg_history.specs.Greatest.{greatest_of_caller};

/// The number of groups of callers. Callers are of one group if they leave the same remainder by it.
const GROUPS: usize = 1024;

/// The greatest number so far of each group of callers.
#[derive(Drop)]
pub(crate) struct Greatest {
    numbers: [u64; GROUPS],
}

impl Greatest {
    /// Each is 0 before any number came.
    pub(crate) fn new() -> Greatest {
        Greatest {
            numbers: [0; GROUPS],
        }
    }

    /// The greatest number so far of a caller's group.
    pub(crate) fn of(&self, caller: u32) -> u64
        ensures { result ≡ greatest_of_caller self.now caller }
    {
        self.numbers[caller as usize % GROUPS]
    }

    /// Takes in a number of a caller.
    pub(crate) fn raise(&mut self, caller: u32, number: u64)
        ensures own { number ≤ greatest_of_caller self.new caller }
        ensures kept { (other : ℕ) → greatest_of_caller self.old other ≤ greatest_of_caller self.new other }
    {
        let group = caller as usize % GROUPS;
        self.numbers[group] = self.numbers[group].max(number);
    }
}
