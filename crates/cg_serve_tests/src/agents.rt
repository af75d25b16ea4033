//! Lives of a node that runs until it is stopped, here by the end of standard input or over HTTP, and lives that are
//! prevented.

use cg_agent::agent;
use cg_life_samples::{free_port, generation_of, journal_of, remove_file, write_file};
use cg_testing::{expect, expect_eq};
use cg_types::{Endpoint, Generation};
use std::alloc::Global;
use std::fs::File;
use std::io::{BufRead, BufReader, Write};
use std::net::{Net, SocketAddr, TcpListener, TcpStream};
use std::rt::{Clock, Files};
use std::test::Fail;
use std::time::Duration;
use std::{io, thread};

// The line by which the end of standard input, which is empty here, stops a node.
const STOPS: &str = "stdin = \"stop\"\n";

// Writes the settings of a node whose journals are kept here, with these lines more. Its rounds are so far apart that the
// tests can read a journal of a minute.
fn settle<R: Files<File = File>>(
    rt: &R,
    alloc: Global,
    name: &str,
    port: u16,
    more: &str,
) -> Result<(), Fail> {
    let text = format!(in alloc;
        "cluster = \"c1\"\nlisten = \"127.0.0.1:{port}\"\ngeneration_file = \"{name}.generation\"\n\
         journals = \".\"\ninterval = 100\n{more}"
    )?;
    write_file(rt, alloc, name, "toml", text.as_bytes())
}

// Expects that the journal of a life in the greatest generation can be read, or that there is none.
fn is_of_the_last_life<R: Files<File = File>>(
    rt: &R,
    alloc: Global,
    port: u16,
) -> Result<(), Fail> {
    let name = format!(in alloc; "127.0.0.1:{port}.2147483647")?;
    let own = Endpoint::new([127, 0, 0, 1], port).ok_or("endpoint")?;
    let generation = Generation::new(2147483647).ok_or("generation")?;
    let Some((endpoint, lived, _records)) = journal_of(rt, alloc, name.as_str())? else {
        return Err("no journal".into());
    };
    expect!(endpoint == own && lived == generation)
}

#[test]
fn an_agent_lives_until_its_input_ends(rt: HostRuntime) -> Result<(), Fail> {
    let (alloc, name, file) = (rt.alloc(), "cg_agent_alone", "cg_agent_alone.toml");
    let port = free_port(&rt)?;
    settle(
        &rt,
        alloc,
        name,
        port,
        "receivers = 3\nkeep = 1\nstdin = \"stop\"\n",
    )?;
    write_file(&rt, alloc, name, "generation", b"2147483646\n")?;
    expect_eq!(agent(&rt, alloc, file), 0)?;
    expect!(generation_of(&rt, alloc, name)? == Ok(Some(2147483647)))?;
    is_of_the_last_life(&rt, alloc, port)?;
    // there is no greater generation
    expect_eq!(agent(&rt, alloc, file), 1)
}

// Sends a request over a connection, and returns the status line of the answer.
fn asked<R: Clock + Net<Stream = TcpStream>>(
    rt: &R,
    alloc: Global,
    port: u16,
    request: &[u8],
) -> io::Result<Vec<u8>> {
    let mut stream = TcpStream::connect(rt, SocketAddr::from(([127, 0, 0, 1], port)))?;
    stream.write_all(request)?;
    let mut line = Vec::new(alloc);
    BufReader::new(alloc, stream)?.read_until(b'\r', &mut line)?;
    Ok(line)
}

// Sends a request until it is answered, at most for ten seconds, and tests whether the status line is this.
fn is_answered<R: Clock + Net<Stream = TcpStream>>(
    rt: &R,
    alloc: Global,
    port: u16,
    request: &[u8],
    due: &[u8],
) -> bool {
    for _ in 0..100 {
        match asked(rt, alloc, port, request) {
            Ok(line) if line.as_slice() == due => return true,
            _ => thread::sleep(rt, Duration::from_millis(100)),
        }
    }
    false
}

// Tests whether a node is healthy once it has done a round, lets nobody stop it without the mark, and then stops.
fn is_stopped<R: Clock + Net<Stream = TcpStream>>(rt: &R, alloc: Global, port: u16) -> bool {
    let health = b"GET /health HTTP/1.1\r\nhost: localhost\r\n\r\n";
    let form = b"POST /stop HTTP/1.1\r\nhost: localhost\r\ncontent-length: 0\r\n\r\n";
    let stop =
        b"POST /stop HTTP/1.1\r\nhost: localhost\r\nx-cg-write: 1\r\ncontent-length: 0\r\n\r\n";
    is_answered(rt, alloc, port, health, b"HTTP/1.1 200 OK\r")
        && is_answered(rt, alloc, port, form, b"HTTP/1.1 403 Forbidden\r")
        && is_answered(rt, alloc, port, stop, b"HTTP/1.1 200 OK\r")
}

#[test]
fn an_agent_is_stopped_over_http(rt: HostRuntime) -> Result<(), Fail> {
    let (alloc, name, file) = (rt.alloc(), "cg_agent_web", "cg_agent_web.toml");
    let (port, web) = (free_port(&rt)?, free_port(&rt)?);
    let more = format!(in alloc; "http = \"127.0.0.1:{web}\"\nhttp_writes = true\n")?;
    settle(&rt, alloc, name, port, more.as_str())?;
    write_file(&rt, alloc, name, "generation", b"2147483646\n")?;
    let (status, stopped) = thread::join(
        &rt,
        || agent(&rt, alloc, file),
        || is_stopped(&rt, alloc, web),
    );
    expect_eq!((status, stopped), (0, true))?;
    is_of_the_last_life(&rt, alloc, port)
}

#[test]
fn an_agent_does_not_write_into_a_file_that_stands(rt: HostRuntime) -> Result<(), Fail> {
    let (alloc, name, file) = (rt.alloc(), "cg_agent_again", "cg_agent_again.toml");
    let port = free_port(&rt)?;
    settle(&rt, alloc, name, port, STOPS)?;
    write_file(&rt, alloc, name, "generation", b"2147483646\n")?;
    let standing = format!(in alloc; "127.0.0.1:{port}.2147483647")?;
    write_file(&rt, alloc, standing.as_str(), "journal", b"x")?;
    expect_eq!(agent(&rt, alloc, file), 1)?;
    remove_file(&rt, alloc, standing.as_str(), "journal")
}

#[test]
fn an_agent_is_prevented(rt: HostRuntime) -> Result<(), Fail> {
    let (alloc, name, file) = (rt.alloc(), "cg_agent_not", "cg_agent_not.toml");
    remove_file(&rt, alloc, name, "toml")?;
    expect_eq!(agent(&rt, alloc, file), 1)?;
    let listener = TcpListener::bind(&rt, "127.0.0.1:0")?;
    let port = listener.local_addr()?.port();
    settle(&rt, alloc, name, port, "keep = 0\n")?;
    expect_eq!(agent(&rt, alloc, file), 1)?;
    // now another program listens there
    settle(&rt, alloc, name, port, STOPS)?;
    expect_eq!(agent(&rt, alloc, file), 1)
}
