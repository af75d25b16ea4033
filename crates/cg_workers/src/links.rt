//! Sources of links: listeners and dialers.

ghost use Rattle.std.specs.Prelude.{ℕ, Option, Result, IfErr};
ghost use Rattle.cg_types.specs.declared.fault.Fault.{Fault as FaultValue};
ghost use Rattle.cg_workers.specs.Workers.{IsLinkFault};

use cg_types::{Endpoint, Fault};
use std::io::{Read, Write};

/// A source of connections that others make.
pub trait Listen {
    /// The reader of a connection.
    type Reader: Read + Drop;

    /// The writer of a connection.
    type Writer: Write + Drop;

    // a listener, its answer, and the listener after it
    ghost accepts: { Self → Result (Option (Self.Reader × Self.Writer)) FaultValue → Self → Type 0 } = { λ l r m. Unit {0} };

    /// Returns the next connection, for which it may wait; `None` if no further one comes. Its faults are `OutOfMemory`
    /// and `ReadFault` alone.
    fn accept(&mut self) -> Result<Option<(Self::Reader, Self::Writer)>, Fault>
        ensures accepts { accepts self.old result self.new }
        ensures fault { IfErr result IsLinkFault };
}

/// A maker of connections to peers.
pub trait Dial {
    /// The reader of a connection.
    type Reader: Read + Drop;

    /// The writer of a connection.
    type Writer: Write + Drop;

    // a dialer, the endpoint that it is to reach, its answer, and the dialer after it
    ghost dials: { Self → ℕ → Result (Self.Reader × Self.Writer) FaultValue → Self → Type 0 } = { λ d p r e. Unit {0} };

    /// Makes a connection to an endpoint. Its faults are `OutOfMemory` and `ReadFault` alone.
    fn dial(&mut self, peer: Endpoint) -> Result<(Self::Reader, Self::Writer), Fault>
        ensures dials { dials self.old peer result self.new }
        ensures fault { IfErr result IsLinkFault };
}
