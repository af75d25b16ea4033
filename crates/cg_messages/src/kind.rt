//! The kinds of messages.

ghost use Rattle.std.specs.Prelude.{◌≡◌};
ghost use Rattle.cg_messages.specs.Kind.{kind_name};

/// The kind of a message: one of the three of an exchange.
#[derive(Clone, Copy, Debug, PartialEq, Eq)]
pub enum Kind {
    Syn,
    Ack,
    Ack2,
}

impl Kind {
    /// The kind's name: `syn`, `ack` or `ack2`.
    pub fn name(self) -> &'static str
        ensures { result.now ≡ kind_name self }
    {
        match self {
            Kind::Syn => "syn",
            Kind::Ack => "ack",
            Kind::Ack2 => "ack2",
        }
    }
}
