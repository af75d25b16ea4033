//! Outcomes of deltas.

ghost use Rattle.std.specs.Prelude.{◌≡◌};
ghost use Rattle.cg_entry.specs.Took.{took_name};

/// The outcome of a delta about an owner: taken, old, a gap or own. An old delta brings nothing new, and at a gap the
/// holder lacks something below the delta. An own delta is about the holder's own endpoint, which no delta changes.
#[derive(Clone, Copy, Debug, PartialEq, Eq)]
pub enum Took {
    Taken,
    Old,
    Gap,
    Own,
}

impl Took {
    /// The outcome's name: `took`, `old`, `gap` or `own`.
    pub fn name(self) -> &'static str
        ensures { result.now ≡ took_name self }
    {
        match self {
            Took::Taken => "took",
            Took::Old => "old",
            Took::Gap => "gap",
            Took::Own => "own",
        }
    }
}
