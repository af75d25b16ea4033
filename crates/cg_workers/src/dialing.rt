//! Connections that are made.

use crate::connection_lines::Lines;
use crate::links::Dial;
use crate::side::{Side, end_in, left_until};
use crate::traffic::{Counting, Traffic};
use cg_types::{Endpoint, Fault};
use std::alloc::Global;
use std::io;
use std::io::{Eprint, Error, ErrorKind};
use std::net::{Net, SocketAddr, TcpStream};
use std::rt::Clock;
use std::sync::Arc;
use std::time::Instant;

/// A dialer of peers over TCP. Dialing a peer and the exchange with it have one end time. It says on standard error that
/// a peer can't be dialed, once until it can be again, and then that it can, all in a line a second at most.
#[derive(Drop)]
pub struct Dialer<'a, R: Net<Stream = TcpStream> + Clock> {
    rt: &'a R,
    alloc: Global,
    limit: u32,
    counting: Counting,
    lines: Lines,
    // the peers of which the last line says that they can't be dialed
    gone: Vec<Endpoint>,
}

impl<'a, R: Net<Stream = TcpStream> + Clock> Dialer<'a, R> {
    /// Makes a dialer that gives dialing and an exchange `limit` milliseconds.
    pub fn new(rt: &'a R, alloc: Global, limit: u32) -> Dialer<'a, R> {
        Dialer {
            rt,
            alloc,
            limit,
            counting: Counting::none(),
            lines: Lines::new(),
            gone: Vec::new(alloc),
        }
    }

    /// Makes a dialer as `new` does, which prints nothing.
    pub fn silent(rt: &'a R, alloc: Global, limit: u32) -> Dialer<'a, R> {
        Dialer {
            lines: Lines::silent(),
            ..Dialer::new(rt, alloc, limit)
        }
    }

    /// Counts the bytes of its connections in this traffic.
    pub fn counting(self, traffic: Arc<Traffic, Global>) -> Dialer<'a, R> {
        Dialer {
            counting: Counting::of(traffic),
            ..self
        }
    }

    // Connects to a peer, before an end time.
    fn connect(&self, peer: Endpoint, end: Instant) -> io::Result<TcpStream> {
        let address = SocketAddr::from((peer.address(), peer.port()));
        let left = left_until(self.rt, end)?;
        TcpStream::connect_timeout(self.rt, &address, left)
    }
}

impl<'a, R: Net<Stream = TcpStream> + Clock + Eprint> Dialer<'a, R> {
    // Prints a line about a peer that can't be dialed, unless its last line says so, or one was printed shortly before.
    fn tell_gone(&mut self, peer: Endpoint, error: &Error) {
        if !self.gone.contains(&peer) && self.lines.may_print(self.rt) {
            let _ = eprintln!(self.rt; "cg: can't dial {peer}: {error}");
            let _ = self.gone.push(peer);
        }
    }

    // Prints a line about a peer that was dialed, if its last line says that it can't be, unless one was printed shortly
    // before.
    fn tell_back(&mut self, peer: Endpoint) {
        let Some(place) = self.gone.iter().position(|it| *it == peer) else {
            return;
        };
        if self.lines.may_print(self.rt) {
            let _ = eprintln!(self.rt; "cg: {peer} can be dialed again");
            self.gone.swap_remove(place);
        }
    }
}

impl<'a, R: Net<Stream = TcpStream> + Clock + Eprint> Dial for Dialer<'a, R> {
    ghost use Rattle.std.specs.Prelude.{◌≡◌, ◌⊎◌, IfErr};
    ghost use Rattle.cg_types.specs.declared.fault.Fault.TheVariants.{OutOfMemory, ReadFault};

    ghost dials = { λ d p r e. IfErr r (λ f. (f ≡ OutOfMemory) ⊎ (f ≡ ReadFault)) };

    type Reader = Side<'a, R>;

    type Writer = Side<'a, R>;

    fn dial(&mut self, peer: Endpoint) -> Result<(Side<'a, R>, Side<'a, R>), Fault> {
        let Ok(end) = end_in(self.rt, self.limit) else {
            return Err(Fault::ReadFault);
        };
        match self.connect(peer, end) {
            Ok(stream) => {
                self.tell_back(peer);
                Side::pair(self.rt, self.alloc, stream, &self.counting, end, end)
            }
            Err(error) => {
                self.tell_gone(peer, &error);
                match error.kind() {
                    ErrorKind::OutOfMemory => Err(Fault::OutOfMemory),
                    _ => Err(Fault::ReadFault),
                }
            }
        }
    }
}
