//! Sample connections over loopback.

use crate::nodes::Side;
use crate::waiting::{TURNS, is_raised, pause};
use cg_threads::{Dial, Listen};
use cg_types::{Endpoint, Fault};
use cg_workers::Milliseconds;
use std::io;
use std::io::{Empty, ErrorKind};
use std::net::{Net, SocketAddr, TcpListener, TcpStream};
use std::rt::Clock;
use std::sync::atomic::Ordering;
use std::time::Duration;

// A connection to read and to write, of which no call waits for more than all turns.
fn sides(stream: TcpStream) -> io::Result<(TcpStream, TcpStream)> {
    let limit = Duration::from_millis(u64::from(TURNS));
    stream.set_nonblocking(false)?;
    stream.set_read_timeout(Some(limit))?;
    stream.set_write_timeout(Some(limit))?;
    let twin = stream.try_clone()?;
    Ok((stream, twin))
}

// A listener on loopback for a node. It reports that it was asked, and waits until the node's operator has read.
#[derive(Drop)]
pub(crate) struct Listening<'a, R: Clock> {
    pub(crate) rt: &'a R,
    pub(crate) side: &'a Side,
    pub(crate) listener: TcpListener,
}

impl<'a, R: Clock> Listen for Listening<'a, R> {
    type Reader = TcpStream;

    type Writer = TcpStream;

    fn accept(&mut self) -> Result<Option<(TcpStream, TcpStream)>, Fault> {
        self.side.asked.store(true, Ordering::SeqCst);
        if !is_raised(self.rt, &self.side.read) {
            return Err(Fault::ReadFault);
        }
        for _ in 0..TURNS {
            match self.listener.accept() {
                Ok((stream, _)) => {
                    return match sides(stream) {
                        Ok(sides) => Ok(Some(sides)),
                        Err(_) => Err(Fault::ReadFault),
                    };
                }
                Err(error) => {
                    if error.kind() != ErrorKind::WouldBlock {
                        return Err(Fault::ReadFault);
                    }
                }
            }
            pause(self.rt);
        }
        Ok(None)
    }
}

// A dialer over loopback.
#[derive(Drop)]
pub(crate) struct Dialing<'a, R: Net<Stream = TcpStream>> {
    pub(crate) rt: &'a R,
}

impl<'a, R: Net<Stream = TcpStream>> Dial for Dialing<'a, R> {
    type Reader = TcpStream;

    type Writer = TcpStream;

    fn dial(&mut self, peer: Endpoint) -> Result<(TcpStream, TcpStream), Fault> {
        let address = SocketAddr::from((peer.address(), peer.port()));
        let limit = Duration::from_millis(u64::from(TURNS));
        let Ok(stream) = TcpStream::connect_timeout(self.rt, &address, limit) else {
            return Err(Fault::ReadFault);
        };
        match sides(stream) {
            Ok(sides) => Ok(sides),
            Err(_) => Err(Fault::ReadFault),
        }
    }
}

// A listener that nobody reaches, and a dialer that reaches nobody.
#[derive(Drop)]
pub(crate) struct Nobody;

impl Listen for Nobody {
    type Reader = Empty;

    type Writer = Empty;

    fn accept(&mut self) -> Result<Option<(Empty, Empty)>, Fault> {
        Ok(None)
    }
}

impl Dial for Nobody {
    type Reader = Empty;

    type Writer = Empty;

    fn dial(&mut self, _peer: Endpoint) -> Result<(Empty, Empty), Fault> {
        Err(Fault::ReadFault)
    }
}

// A clock that shows one time.
#[derive(Drop)]
pub(crate) struct Standing;

impl Milliseconds for Standing {
    fn now(&self) -> u64 {
        1000
    }
}

// A listener at a free port of 127.0.0.1, and the endpoint of that port.
pub(crate) fn bound<R: Net<Listener = TcpListener, Stream = TcpStream>>(
    rt: &R,
) -> io::Result<(TcpListener, Option<Endpoint>)> {
    let listener = TcpListener::bind(rt, SocketAddr::from(([127, 0, 0, 1], 0)))?;
    listener.set_nonblocking(true)?;
    let at = Endpoint::new([127, 0, 0, 1], listener.local_addr()?.port());
    Ok((listener, at))
}
