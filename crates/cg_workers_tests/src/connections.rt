//! Connections over the loopback: an answer, an endpoint in use, nobody there, silent and slow peers.

use crate::ports::free_endpoint;
use cg_testing::{expect, expect_eq};
use cg_types::{Endpoint, Fault};
use cg_workers::{Dial, Dialer, Listen, Listener, Traffic};
use std::alloc::{AllocError, Global};
use std::io::{Eprint, ErrorKind, Read, Write};
use std::net::{Net, TcpStream};
use std::rt::Clock;
use std::sync::Arc;
use std::test::Fail;
use std::time::{Duration, Instant};
use std::{io, thread};

// Answers three bytes with the same bytes.
fn echo<L: Listen>(listener: &mut L) -> bool {
    let Ok(Some((mut reader, mut writer))) = listener.accept() else {
        return false;
    };
    let mut word = [0u8; 3];
    reader.read_exact(&mut word).is_ok() && writer.write_all(&word).is_ok()
}

// Sends three bytes, and returns the answer.
fn ask<D: Dial>(dialer: &mut D, to: Endpoint) -> Option<[u8; 3]> {
    let (mut reader, mut writer) = dialer.dial(to).ok()?;
    let mut word = [0u8; 3];
    writer.write_all(b"syn").ok()?;
    reader.read_exact(&mut word).ok()?;
    Some(word)
}

// Traffic of no bytes so far, to be shared.
fn shared_traffic(alloc: Global) -> Result<Arc<Traffic, Global>, AllocError> {
    Ok(Arc::new(alloc, Traffic::new())?)
}

#[test]
fn a_word_is_answered(rt: HostRuntime) -> Result<(), Fail> {
    let to = free_endpoint(&rt)?;
    let mut listener = Listener::bind(&rt, rt.alloc(), to, 2000)?;
    let mut dialer = Dialer::new(&rt, rt.alloc(), 2000);
    let (answered, asked) = thread::join(&rt, || echo(&mut listener), || ask(&mut dialer, to));
    expect!(answered)?;
    expect!(asked == Some(*b"syn"))
}

#[test]
fn another_listener_takes_the_same_connections(rt: HostRuntime) -> Result<(), Fail> {
    let to = free_endpoint(&rt)?;
    let first = Listener::open(&rt, rt.alloc(), to, 2000)?;
    let mut second = first.again()?;
    drop(first);
    let mut dialer = Dialer::new(&rt, rt.alloc(), 2000);
    let (answered, asked) = thread::join(&rt, || echo(&mut second), || ask(&mut dialer, to));
    expect!(answered)?;
    expect!(asked == Some(*b"syn"))
}

#[test]
fn bytes_of_both_sides_are_counted(rt: HostRuntime) -> Result<(), Fail> {
    let to = free_endpoint(&rt)?;
    let (taken, made) = (shared_traffic(rt.alloc())?, shared_traffic(rt.alloc())?);
    let first = Listener::open(&rt, rt.alloc(), to, 2000)?.counting(Arc::try_clone(&taken)?);
    let mut listener = first.again()?;
    let mut dialer = Dialer::new(&rt, rt.alloc(), 2000).counting(Arc::try_clone(&made)?);
    let (_, asked) = thread::join(&rt, || echo(&mut listener), || ask(&mut dialer, to));
    expect!(asked == Some(*b"syn"))?;
    expect_eq!((taken.read(), taken.written()), (3, 3))?;
    expect_eq!((made.read(), made.written()), (3, 3))
}

#[test]
fn a_place_is_taken_once(rt: HostRuntime) -> Result<(), Fail> {
    let at = free_endpoint(&rt)?;
    let _listener = Listener::bind(&rt, rt.alloc(), at, 2000)?;
    let again = Listener::open(&rt, rt.alloc(), at, 2000).err();
    expect!(matches!(again, Some(error) if error.kind() == ErrorKind::AddrInUse))?;
    expect!(Listener::bind(&rt, rt.alloc(), at, 2000).err() == Some(Fault::ReadFault))
}

#[test]
fn nobody_answers(rt: HostRuntime) -> Result<(), Fail> {
    let to = free_endpoint(&rt)?;
    let mut dialer = Dialer::new(&rt, rt.alloc(), 2000);
    expect!(dialer.dial(to).err() == Some(Fault::ReadFault))
}

// Reads three bytes that a peer does not send: the milliseconds that it took, and `true` if the read failed.
fn waited<R: Net<Stream = TcpStream> + Clock + Eprint>(
    rt: &R,
    alloc: Global,
    to: Endpoint,
) -> io::Result<(u128, bool)> {
    let began = Instant::now(rt)?;
    let mut dialer = Dialer::new(rt, alloc, 200);
    let Ok((mut reader, _writer)) = dialer.dial(to) else {
        return Err(io::Error::from(ErrorKind::Other));
    };
    let failed = reader.read_exact(&mut [0u8; 3]).is_err();
    Ok((began.elapsed(rt)?.as_millis(), failed))
}

// Takes a connection and sends `bytes` bytes, one every 300 ms.
fn drip<R: Clock, L: Listen>(rt: &R, listener: &mut L, bytes: u32) {
    let Ok(Some((_reader, mut writer))) = listener.accept() else {
        return;
    };
    for _ in 0..bytes {
        thread::sleep(rt, Duration::from_millis(300));
        let _ = writer.write_all(b"x");
    }
}

#[test]
fn a_silent_peer_is_left_at_the_end(rt: HostRuntime) -> Result<(), Fail> {
    let to = free_endpoint(&rt)?;
    let _listener = Listener::bind(&rt, rt.alloc(), to, 2000)?;
    let (lasted, failed) = waited(&rt, rt.alloc(), to)?;
    expect!(failed && lasted >= 199 && lasted < 30000, "{lasted}")
}

// Reads a byte at a time until a read fails: the milliseconds that it took, and the number of bytes.
fn dripped<R: Net<Stream = TcpStream> + Clock + Eprint>(
    rt: &R,
    alloc: Global,
    to: Endpoint,
) -> io::Result<(u128, u64)> {
    let began = Instant::now(rt)?;
    let mut dialer = Dialer::new(rt, alloc, 2000);
    let Ok((mut reader, _writer)) = dialer.dial(to) else {
        return Err(io::Error::from(ErrorKind::Other));
    };
    let mut read = 0;
    for index in 0..100 {
        if reader.read_exact(&mut [0u8; 1]).is_err() {
            break;
        }
        read = index + 1;
    }
    Ok((began.elapsed(rt)?.as_millis(), read))
}

#[test]
fn a_peer_that_drips_is_left_at_the_end(rt: HostRuntime) -> Result<(), Fail> {
    let to = free_endpoint(&rt)?;
    let alloc = rt.alloc();
    let mut listener = Listener::bind(&rt, alloc, to, 2000)?;
    let (_, read) = thread::join(
        &rt,
        || drip(&rt, &mut listener, 20),
        || dripped(&rt, alloc, to),
    );
    let (lasted, read) = read?;
    expect!(
        lasted >= 1999 && lasted < 30000 && read > 0 && read < 20,
        "{lasted} {read}"
    )
}

// Takes a connection and reads bytes, one at a time, until a read fails: the milliseconds that it took, and the number
// of bytes.
fn heard<R: Clock, L: Listen>(rt: &R, listener: &mut L) -> io::Result<(u128, u64)> {
    let Ok(Some((mut reader, _writer))) = listener.accept() else {
        return Err(io::Error::from(ErrorKind::Other));
    };
    let began = Instant::now(rt)?;
    let mut read = 0;
    for index in 0..100 {
        if reader.read_exact(&mut [0u8; 1]).is_err() {
            break;
        }
        read = index + 1;
    }
    Ok((began.elapsed(rt)?.as_millis(), read))
}

// Dials a listener, sends `bytes` bytes, one every 300 ms, the first at once, and hangs up after three seconds.
fn say<R: Net<Stream = TcpStream> + Clock + Eprint>(
    rt: &R,
    alloc: Global,
    to: Endpoint,
    bytes: u32,
) {
    let Ok((_reader, mut writer)) = Dialer::new(rt, alloc, 10000).dial(to) else {
        return;
    };
    for _ in 0..bytes {
        let _ = writer.write_all(b"x");
        thread::sleep(rt, Duration::from_millis(300));
    }
    thread::sleep(rt, Duration::from_millis(3000));
}

#[test]
fn a_peer_that_says_nothing_is_left_after_a_quarter(rt: HostRuntime) -> Result<(), Fail> {
    let to = free_endpoint(&rt)?;
    let alloc = rt.alloc();
    let mut listener = Listener::bind(&rt, alloc, to, 1600)?;
    let (heard, _) = thread::join(&rt, || heard(&rt, &mut listener), || say(&rt, alloc, to, 0));
    let (lasted, read) = heard?;
    expect!(lasted >= 380 && lasted < 1400 && read == 0, "{lasted}")
}

#[test]
fn a_peer_that_began_has_the_whole_time(rt: HostRuntime) -> Result<(), Fail> {
    let to = free_endpoint(&rt)?;
    let alloc = rt.alloc();
    let mut listener = Listener::bind(&rt, alloc, to, 1600)?;
    let (heard, _) = thread::join(&rt, || heard(&rt, &mut listener), || say(&rt, alloc, to, 1));
    let (lasted, read) = heard?;
    expect!(
        lasted >= 1580 && lasted < 2900 && read == 1,
        "{lasted} {read}"
    )
}

#[test]
fn a_caller_that_drips_is_left_at_the_end(rt: HostRuntime) -> Result<(), Fail> {
    let to = free_endpoint(&rt)?;
    let alloc = rt.alloc();
    let mut listener = Listener::bind(&rt, alloc, to, 1600)?;
    let (heard, _) = thread::join(
        &rt,
        || heard(&rt, &mut listener),
        || say(&rt, alloc, to, 20),
    );
    let (lasted, read) = heard?;
    expect!(
        lasted >= 1580 && lasted < 30000 && read > 0 && read < 20,
        "{lasted} {read}"
    )
}
