//! The ends of a reading that finds no settings.

ghost use Rattle.std.specs.Prelude.{◌≡◌, None};
ghost use Rattle.cg_settings_file.specs.Seen.{stop_of, told_key};
ghost use Rattle.cg_settings_file.specs.declared.stop.Stop.TheVariants as stops;

use cg_types::Fault;

/// The end of the reading of a table that holds no settings.
#[derive(Clone, Copy, Debug)]
pub(crate) enum Stop<'a> {
    /// Memory is refused.
    Memory,
    /// This key is refused.
    Key(&'a str),
}

impl<'a> From<&'a str> for Stop<'a> {
    ghost from_gives = { λ key stop. stop ≡ stops.Key key };

    fn from(key: &'a str) -> Stop<'a> {
        Stop::Key(key)
    }
}

/// The fault of a text that holds no settings, and the key at which it came, if it is of one.
#[derive(Debug, Drop)]
pub struct Unset {
    /// The fault.
    pub fault: Fault,
    /// The key.
    pub key: Option<String>,
}

/// The end of the reading at a key whose value has this fault.
pub(crate) fn stop_at(key: &str, fault: Fault) -> Stop<'_>
    ensures { result ≡ stop_of key.entry fault }
{
    match fault {
        Fault::OutOfMemory => Stop::Memory,
        _ => Stop::Key(key),
    }
}

/// A fault that is of no key.
pub(crate) fn without_key(fault: Fault) -> Unset
    ensures fault { result.fault ≡ fault }
    ensures key { told_key result ≡ None }
{
    Unset { fault, key: None }
}
