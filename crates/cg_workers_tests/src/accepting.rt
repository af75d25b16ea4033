//! Accepting: the errors after which it goes on, those that end it, and the lines on standard error.

use crate::ports::{at_port, free_endpoint};
use cg_testing::{expect, expect_eq};
use cg_types::{Endpoint, Fault};
use cg_workers::{Dial, Dialer, Listen, Listener};
use std::alloc::Global;
use std::fmt::Display;
use std::io;
use std::io::{Eprint, Error};
use std::net::{Net, OpenListener, SocketAddr, TcpListener, TcpStream};
use std::os::fd::{AsRawFd, RawFd};
use std::rt::Clock;
use std::sync::Wait;
use std::sync::atomic::{AtomicU64, Ordering};
use std::test::Fail;
use std::time::Duration;

// A listener that fails with each of these errors, by their numbers, before it takes a connection.
#[derive(Drop)]
struct Failing {
    listener: TcpListener,
    codes: &'static [i32],
    calls: AtomicU64,
}

impl OpenListener for Failing {
    type Stream = TcpStream;

    fn accept(&self) -> io::Result<(TcpStream, SocketAddr)> {
        let call = self.calls.fetch_add(1, Ordering::SeqCst) as usize;
        match self.codes.get(call) {
            Some(code) => Err(Error::from_raw_os_error(*code)),
            None => self.listener.accept(),
        }
    }
}

impl AsRawFd for Failing {
    fn as_raw_fd(&self) -> RawFd {
        self.listener.as_raw_fd()
    }
}

// A runtime whose listeners fail, whose time goes on only by sleeping, and whose lines on standard error are counted.
#[derive(Drop)]
struct Faulty<'a, R> {
    rt: &'a R,
    codes: &'static [i32],
    slept: AtomicU64,
    lines: AtomicU64,
}

impl<'a, R> Faulty<'a, R> {
    fn new(rt: &'a R, codes: &'static [i32]) -> Faulty<'a, R> {
        Faulty {
            rt,
            codes,
            slept: AtomicU64::new(0),
            lines: AtomicU64::new(0),
        }
    }
}

impl<'a, R: Net<Listener = TcpListener, Stream = TcpStream>> Net for Faulty<'a, R> {
    type Stream = TcpStream;

    type Listener = Failing;

    fn bind(&self, addr: SocketAddr) -> io::Result<Failing> {
        Ok(Failing {
            listener: self.rt.bind(addr)?,
            codes: self.codes,
            calls: AtomicU64::new(0),
        })
    }

    fn connect(&self, addr: SocketAddr) -> io::Result<TcpStream> {
        self.rt.connect(addr)
    }

    // Without it none is ever reached: by default it is unsupported.
    fn connect_timeout(&self, addr: SocketAddr, timeout: Duration) -> io::Result<TcpStream> {
        self.rt.connect_timeout(addr, timeout)
    }
}

impl<'a, R> Clock for Faulty<'a, R> {
    fn monotonic(&self) -> io::Result<Duration> {
        Ok(Duration::from_millis(self.slept.load(Ordering::SeqCst)))
    }

    fn since_1970(&self) -> io::Result<Duration> {
        self.monotonic()
    }

    fn sleep(&self, duration: Duration) {
        self.slept.fetch_add(
            u64::try_from(duration.as_millis()).unwrap_or(u64::MAX),
            Ordering::SeqCst,
        );
    }
}

impl<'a, R> Eprint for Faulty<'a, R> {
    fn eprint<D: Display + Drop>(&self, _value: D) -> io::Result<()> {
        Ok(())
    }

    fn eprintln<D: Display + Drop>(&self, _value: D) -> io::Result<()> {
        self.lines.fetch_add(1, Ordering::SeqCst);
        Ok(())
    }
}

impl<'a, R: Wait> Wait for Faulty<'a, R> {}

// Accepts a connection after these errors: its fault, if it ends so, the milliseconds slept, and the lines printed.
fn accepted<R: Net<Listener = TcpListener, Stream = TcpStream> + Clock + Eprint + Wait>(
    rt: &R,
    alloc: Global,
    codes: &'static [i32],
) -> Result<(Option<Fault>, u64, u64), Fail> {
    let to = free_endpoint(rt)?;
    let faulty = Faulty::new(rt, codes);
    let mut listener = Listener::bind(&faulty, alloc, to, 2000)?;
    let _link = Dialer::new(rt, alloc, 10000).dial(to)?;
    let fault = listener.accept().err();
    Ok((
        fault,
        faulty.slept.load(Ordering::SeqCst),
        faulty.lines.load(Ordering::SeqCst),
    ))
}

#[test]
fn it_goes_on_after_errors_of_one_connection_or_of_the_moment(rt: HostRuntime) -> Result<(), Fail> {
    let codes = &[
        1, 4, 12, 23, 24, 64, 71, 92, 95, 100, 101, 103, 104, 105, 112, 113,
    ];
    expect!(accepted(&rt, rt.alloc(), codes)? == (None, 1600, 2))
}

#[test]
fn it_goes_on_however_often_one_can_not_be_taken(rt: HostRuntime) -> Result<(), Fail> {
    expect!(accepted(&rt, rt.alloc(), &[24; 2001])? == (None, 200_100, 201))
}

#[test]
fn any_other_error_ends_it(rt: HostRuntime) -> Result<(), Fail> {
    for codes in [&[2], &[9], &[11], &[13], &[22], &[88]] {
        expect!(accepted(&rt, rt.alloc(), codes)? == (Some(Fault::ReadFault), 0, 1))?;
    }
    Ok(())
}

#[test]
fn its_end_is_told_after_each_other_line(rt: HostRuntime) -> Result<(), Fail> {
    expect!(accepted(&rt, rt.alloc(), &[24, 24, 22])? == (Some(Fault::ReadFault), 200, 2))
}

// Dials endpoints a number of times, 100 ms apart, and returns how often one was reached, and the lines printed by then.
fn dialed<R: Net<Listener = TcpListener, Stream = TcpStream>>(
    dialer: &mut Dialer<'_, Faulty<'_, R>>,
    faulty: &Faulty<'_, R>,
    peers: &[Endpoint],
    times: u32,
) -> (u32, u64) {
    let mut reached: u32 = 0;
    for _ in 0..times {
        for peer in peers {
            if dialer.dial(*peer).is_ok() {
                reached = reached.saturating_add(1);
            }
        }
        faulty.sleep(Duration::from_millis(100));
    }
    (reached, faulty.lines.load(Ordering::SeqCst))
}

#[test]
fn a_peer_is_told_once_when_it_is_gone_and_once_when_it_is_back(
    rt: HostRuntime,
) -> Result<(), Fail> {
    let to = free_endpoint(&rt)?;
    let faulty = Faulty::new(&rt, &[]);
    let mut dialer = Dialer::new(&faulty, rt.alloc(), 10000);
    expect!(dialed(&mut dialer, &faulty, &[to], 30) == (0, 1))?;
    let listener = Listener::bind(&rt, rt.alloc(), to, 2000)?;
    expect!(dialed(&mut dialer, &faulty, &[to], 3) == (3, 2))?;
    drop(listener);
    expect!(dialed(&mut dialer, &faulty, &[to], 30) == (0, 3))
}

#[test]
fn peers_that_are_gone_are_told_a_second_apart(rt: HostRuntime) -> Result<(), Fail> {
    let peers = [at_port(1)?, at_port(2)?];
    let faulty = Faulty::new(&rt, &[]);
    let mut dialer = Dialer::new(&faulty, rt.alloc(), 10000);
    expect!(dialed(&mut dialer, &faulty, &peers, 10) == (0, 1))?;
    expect!(dialed(&mut dialer, &faulty, &peers, 30) == (0, 2))
}

#[test]
fn a_silent_dialer_tells_of_nobody(rt: HostRuntime) -> Result<(), Fail> {
    let faulty = Faulty::new(&rt, &[]);
    let mut dialer = Dialer::silent(&faulty, rt.alloc(), 10000);
    expect!(dialed(&mut dialer, &faulty, &[at_port(1)?], 30) == (0, 0))
}
