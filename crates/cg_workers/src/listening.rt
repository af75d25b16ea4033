//! Connections that come in over TCP.

ghost use Rattle.std.specs.Prelude.{◌≡◌, ◌⊎◌, IfOk, IfErr};
ghost use Rattle.cg_types.specs.declared.fault.Fault.TheVariants as faults;

use crate::accept_errors::is_passing_error;
use crate::connection_lines::Lines;
use crate::limits::{ACCEPT_PAUSE, first_byte_limit};
use crate::links::Listen;
use crate::side::{Side, end_in};
use crate::traffic::{Counting, Traffic};
use cg_types::{Endpoint, Fault};
use std::alloc::Global;
use std::io::{Eprint, Error, ErrorKind};
use std::net::{Net, OpenListener, SocketAddr, TcpListener, TcpStream};
use std::rt::Clock;
use std::sync::{Arc, Wait};
use std::time::Duration;
use std::{io, thread};

/// A listener over TCP. Each exchange ends a number of milliseconds after its connection was taken, and after
/// `first_byte_limit` of this number if no byte has come by then.
#[derive(Drop)]
pub struct Listener<'a, R: Net<Stream = TcpStream> + Clock> {
    rt: &'a R,
    alloc: Global,
    listener: R::Listener,
    counting: Counting,
    limit: u32,
    lines: Lines,
}

// The same counting, as an error of the system would tell it.
fn counting_again(counting: &Counting) -> io::Result<Counting> {
    match counting.copy() {
        Ok(counting) => Ok(counting),
        Err(_) => Err(Error::from(ErrorKind::OutOfMemory)),
    }
}

impl<'a, R: Net<Stream = TcpStream> + Clock> Listener<'a, R> {
    /// Listens at an endpoint, and gives each exchange `limit` milliseconds.
    pub fn open(rt: &'a R, alloc: Global, at: Endpoint, limit: u32) -> io::Result<Listener<'a, R>>
        ensures { IfOk result (λ l. l.limit ≡ limit) }
    {
        let address = SocketAddr::from((at.address(), at.port()));
        let listener = TcpListener::bind(rt, address)?;
        Ok(Listener {
            rt,
            alloc,
            listener,
            counting: Counting::none(),
            limit,
            lines: Lines::new(),
        })
    }

    /// Listens at an endpoint by `open`. `ReadFault` if that can't be, for example because another program listens
    /// there, which a line on standard error says; `OutOfMemory` if memory is refused.
    pub fn bind(
        rt: &'a R,
        alloc: Global,
        at: Endpoint,
        limit: u32,
    ) -> Result<Listener<'a, R>, Fault>
    where
        R: Eprint,
        ensures limit { IfOk result (λ l. l.limit ≡ limit) }
        ensures fault { IfErr result (λ f. (f ≡ faults.OutOfMemory) ⊎ (f ≡ faults.ReadFault)) }
    {
        match Listener::open(rt, alloc, at, limit) {
            Ok(listener) => Ok(listener),
            Err(error) => {
                let _ = eprintln!(rt; "cg: can't listen at {at}: {error}");
                match error.kind() {
                    ErrorKind::OutOfMemory => Err(Fault::OutOfMemory),
                    _ => Err(Fault::ReadFault),
                }
            }
        }
    }

    /// Makes another listener of the same connections, with the same limit: each connection comes to one of the two.
    pub fn again(&self) -> io::Result<Listener<'a, R>>
        ensures { IfOk result (λ l. l.limit ≡ self.now.limit) }
    {
        Ok(Listener {
            rt: self.rt,
            alloc: self.alloc,
            listener: self.listener.try_clone()?,
            counting: counting_again(&self.counting)?,
            limit: self.limit,
            lines: Lines::new(),
        })
    }

    /// Counts the bytes of its connections in this traffic.
    pub fn counting(self, traffic: Arc<Traffic, Global>) -> Listener<'a, R>
        ensures { result.limit ≡ self.entry.limit }
    {
        Listener {
            counting: Counting::of(traffic),
            ..self
        }
    }

    /// Returns the address at which it listens.
    pub fn address(&self) -> io::Result<SocketAddr> {
        self.listener.local_addr()
    }

    // Returns both sides of a connection that was just taken.
    fn sides(&self, stream: TcpStream) -> io::Result<(Side<'a, R>, Side<'a, R>)> {
        let end = end_in(self.rt, self.limit)?;
        let first_end = end_in(self.rt, first_byte_limit(self.limit))?.min(end);
        match Side::pair(self.rt, self.alloc, stream, &self.counting, first_end, end) {
            Ok(sides) => Ok(sides),
            Err(_) => Err(Error::from(ErrorKind::OutOfMemory)),
        }
    }
}

impl<'a, R: Net<Stream = TcpStream> + Clock + Eprint> Listener<'a, R> {
    // Prints a line about a connection that could not be taken, unless one was printed shortly before.
    fn tell(&mut self, error: &Error) {
        if self.lines.may_print(self.rt) {
            let _ = eprintln!(self.rt; "cg: a connection can't be taken: {error}");
        }
    }

    // Returns the next connection; `None` if one could not be taken.
    fn accept_one(&mut self) -> Result<Option<(Side<'a, R>, Side<'a, R>)>, Fault>
        ensures { IfErr result (λ f. f ≡ faults.ReadFault) }
    {
        let taken = match self.listener.accept() {
            Ok((stream, _)) => self.sides(stream),
            Err(error) => {
                if !is_passing_error(&error) {
                    let _ = eprintln!(self.rt; "cg: no further connection is taken: {error}");
                    return Err(Fault::ReadFault);
                }
                Err(error)
            }
        };
        match taken {
            Ok(sides) => Ok(Some(sides)),
            Err(error) => {
                self.tell(&error);
                Ok(None)
            }
        }
    }
}

/// Goes on after a connection that can't be taken, for example because its peer gave up, no descriptor is left or
/// memory is refused, and says so on standard error, in a line a second at most. After a pause it waits for the next
/// one, however often that takes. Any other failure is `ReadFault`, which it says there too.
impl<'a, R: Net<Stream = TcpStream> + Clock + Eprint + Wait> Listen for Listener<'a, R> {
    ghost use Rattle.std.specs.Prelude.{◌≡◌, IsSome, MatchResult};
    ghost use Rattle.cg_types.specs.declared.fault.Fault.TheVariants.{ReadFault};

    ghost accepts = { λ l r m. MatchResult r IsSome (λ f. f ≡ ReadFault) };

    type Reader = Side<'a, R>;

    type Writer = Side<'a, R>;

    fn accept(&mut self) -> Result<Option<(Side<'a, R>, Side<'a, R>)>, Fault> {
        let rt = self.rt;
        for _ in rt.forever() {
            match self.accept_one() {
                Ok(Some(sides)) => return Ok(Some(sides)),
                Ok(None) => thread::sleep(rt, Duration::from_millis(u64::from(ACCEPT_PAUSE))),
                Err(fault) => return Err(fault),
            }
        }
        unreachable!()
    }
}
