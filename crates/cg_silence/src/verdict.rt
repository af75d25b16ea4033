//! Verdicts.

ghost use Rattle.std.specs.Prelude.{◌≡◌};
ghost use Rattle.cg_silence.specs.Verdict.{verdict_name};

/// A window's verdict on its endpoint at a time.
#[derive(Clone, Copy, Debug, PartialEq, Eq)]
pub enum Verdict {
    /// The time since the last arrival is within the threshold.
    Alive,
    /// The time since the last arrival is over the threshold.
    Silent,
    /// Nothing arrived yet.
    Unheard,
}

impl Verdict {
    /// The verdict's name: `Alive`, `Silent` or `Unheard`.
    pub fn name(self) -> &'static str
        ensures { result.now ≡ verdict_name self }
    {
        match self {
            Verdict::Alive => "Alive",
            Verdict::Silent => "Silent",
            Verdict::Unheard => "Unheard",
        }
    }
}
