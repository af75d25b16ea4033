//! Faults, with their numbers, names and lines.

ghost use Rattle.std.specs.Prelude.{◌≡◌, IfOk, Some, string_bytes};
ghost use Rattle.cg_types.specs.declared.fault.Fault.TheVariants.{OutOfMemory};
ghost use Rattle.cg_types.specs.Fault.{fault_number, fault_name, cause_name, fault_shown, fault_text};

use std::alloc::{AllocError, AllocFailed, Global};
use std::fmt;
use thiserror::Error;

/// A cause of a bad frame: what is wrong at an offset of it. It is written as its name.
#[derive(Clone, Copy, Debug, PartialEq, Eq, Error)]
pub enum Cause {
    /// The length of a frame is over its limit.
    Length,
    /// A field does not fit into the frame.
    Short,
    /// The layout byte is not a known one.
    Layout,
    /// The kind byte is not a known one.
    Kind,
    /// A name is too long, empty or not plain text.
    Name,
    /// A count is over its limit.
    Count,
    /// A port is 0.
    Endpoint,
    /// A member of a list is not greater than the one before it.
    Order,
    /// A generation is out of its range.
    Generation,
    /// A version is out of its range, or not greater than the version that its delta is above.
    Version,
    /// The version that a delta is above is out of its range.
    Above,
    /// A heartbeat version is out of its range.
    Heartbeat,
    /// A key is out of its range.
    Key,
    /// A text is too long or not plain text.
    Text,
    /// A delta carries nothing newer than the version that it is above.
    Empty,
    /// Bytes are left after the last field.
    Rest,
    /// The message is of another kind than expected.
    Unexpected,
}

/// A reason for which a call refuses its work. It is written as its number and its name, as `4 VersionsSpent`. A bad
/// frame is written with its offset and cause, as `12 BadFrame 22 Order`. Numbers 5, 6 and 7 are unused: the outcome of
/// a single delta is no fault.
#[derive(Clone, Copy, Debug, PartialEq, Eq, Error)]
pub enum Fault {
    /// The memory that an answer needs was refused.
    OutOfMemory,
    /// A text is not of the expected form.
    BadText,
    /// A text is longer than its limit.
    TooLong,
    /// The next version or generation would be over its limit.
    VersionsSpent,
    /// More endpoints would be held than a table may hold.
    TableFull,
    /// A message names another cluster or partitioner.
    OtherCluster,
    /// No message of this number was sent.
    NoSuchMessage,
    /// A generation is not greater than those before it.
    NotRising,
    /// The frame is wrong at a byte, counted from the first of its length, which is 0.
    BadFrame { place: usize, cause: Cause },
    /// The bytes end inside a frame.
    Truncated,
    /// A reader failed, or did not end within the bound on reads.
    ReadFault,
    /// A writer failed, or took no byte.
    WriteFault,
    /// A receipt is not in the history.
    Stranger,
    /// The histories are not of one run.
    Stuck,
    /// The requested records are folded into a base.
    Folded,
    /// No node runs at the endpoint.
    NoSuchNode,
    /// The key has no text.
    NoSuchKey,
}

/// The line of `OutOfMemory`, with its line feed. It takes no memory, as `Fault::line` does.
pub const OUT_OF_MEMORY_LINE: &[u8] = b"fault 1 OutOfMemory\n";

/// The line of `ReadFault`, with its line feed. It takes no memory, as `Fault::line` does.
pub const READ_FAULT_LINE: &[u8] = b"fault 14 ReadFault\n";

impl fmt::Display for Cause {
    ghost output = { λ c. Some (cause_name c) };

    fn fmt<W: fmt::Write>(&self, f: &mut fmt::Formatter<W>) -> fmt::Result {
        f.write_str(self.name())
    }
}

impl fmt::Display for Fault {
    ghost output = { λ f. Some (fault_shown f) };

    fn fmt<W: fmt::Write>(&self, f: &mut fmt::Formatter<W>) -> fmt::Result {
        match *self {
            Fault::BadFrame { place, cause } => write!(f, "12 BadFrame {place} {cause}"),
            _ => write!(f, "{} {}", self.number(), self.name()),
        }
    }
}

impl From<AllocError> for Fault {
    ghost from_gives = { λ _ e. e ≡ OutOfMemory };

    fn from(_e: AllocError) -> Fault {
        Fault::OutOfMemory
    }
}

impl<T: Drop> From<AllocFailed<T>> for Fault {
    ghost from_gives = { λ _ e. e ≡ OutOfMemory };

    fn from(_e: AllocFailed<T>) -> Fault {
        Fault::OutOfMemory
    }
}

impl Cause {
    /// The cause's name.
    pub fn name(self) -> &'static str
        ensures { result.now ≡ cause_name self }
    {
        match self {
            Cause::Length => "Length",
            Cause::Short => "Short",
            Cause::Layout => "Layout",
            Cause::Kind => "Kind",
            Cause::Name => "Name",
            Cause::Count => "Count",
            Cause::Endpoint => "Endpoint",
            Cause::Order => "Order",
            Cause::Generation => "Generation",
            Cause::Version => "Version",
            Cause::Above => "Above",
            Cause::Heartbeat => "Heartbeat",
            Cause::Key => "Key",
            Cause::Text => "Text",
            Cause::Empty => "Empty",
            Cause::Rest => "Rest",
            Cause::Unexpected => "Unexpected",
        }
    }
}

impl Fault {
    /// The fault's number, 1 to 20.
    pub fn number(self) -> u8
        ensures { result ≡ fault_number self }
    {
        match self {
            Fault::OutOfMemory => 1,
            Fault::BadText => 2,
            Fault::TooLong => 3,
            Fault::VersionsSpent => 4,
            Fault::TableFull => 8,
            Fault::OtherCluster => 9,
            Fault::NoSuchMessage => 10,
            Fault::NotRising => 11,
            Fault::BadFrame { .. } => 12,
            Fault::Truncated => 13,
            Fault::ReadFault => 14,
            Fault::WriteFault => 15,
            Fault::Stranger => 16,
            Fault::Stuck => 17,
            Fault::Folded => 18,
            Fault::NoSuchNode => 19,
            Fault::NoSuchKey => 20,
        }
    }

    /// The fault's name.
    pub fn name(self) -> &'static str
        ensures { result.now ≡ fault_name self }
    {
        match self {
            Fault::OutOfMemory => "OutOfMemory",
            Fault::BadText => "BadText",
            Fault::TooLong => "TooLong",
            Fault::VersionsSpent => "VersionsSpent",
            Fault::TableFull => "TableFull",
            Fault::OtherCluster => "OtherCluster",
            Fault::NoSuchMessage => "NoSuchMessage",
            Fault::NotRising => "NotRising",
            Fault::BadFrame { .. } => "BadFrame",
            Fault::Truncated => "Truncated",
            Fault::ReadFault => "ReadFault",
            Fault::WriteFault => "WriteFault",
            Fault::Stranger => "Stranger",
            Fault::Stuck => "Stuck",
            Fault::Folded => "Folded",
            Fault::NoSuchNode => "NoSuchNode",
            Fault::NoSuchKey => "NoSuchKey",
        }
    }

    /// Writes the fault's line, as `fault 12 BadFrame 22 Order`, with its line feed. `AllocError` if there is no memory
    /// for it.
    pub fn line(self, alloc: Global) -> Result<String, AllocError>
        ensures { IfOk result (λ text. string_bytes text ≡ fault_text self) }
    {
        format!(in alloc; "fault {self}\n")
    }
}
