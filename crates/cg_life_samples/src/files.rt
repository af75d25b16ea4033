//! Files of a node that is served, by its name, in the folder where the tests run.

use cg_host::{read_file, replace, stored_generation};
use cg_journal::read_journal;
use cg_links::Counted;
use cg_types::{Endpoint, Fault, Generation};
use std::alloc::Global;
use std::fs::File;
use std::net::{Net, TcpListener, TcpStream};
use std::rt::Files;
use std::test::Fail;
use std::{fs, io};

/// Returns a port at which nobody listens.
pub fn free_port<R: Net<Listener = TcpListener, Stream = TcpStream>>(rt: &R) -> io::Result<u16> {
    let listener = TcpListener::bind(rt, "127.0.0.1:0")?;
    listener.local_addr().map(|at| at.port())
}

// The path of a node's file.
fn path_of(alloc: Global, name: &str, ending: &str) -> Result<String, Fail> {
    Ok(format!(in alloc; "{name}.{ending}")?)
}

/// Writes a node's file, as a whole.
pub fn write_file<R: Files<File = File>>(
    rt: &R,
    alloc: Global,
    name: &str,
    ending: &str,
    bytes: &[u8],
) -> Result<(), Fail> {
    let path = path_of(alloc, name, ending)?;
    replace(rt, alloc, path.as_str(), bytes)?;
    Ok(())
}

/// Writes the settings of a node that begins two rounds and takes no exchange, and returns their path.
pub fn write_settings<R: Files<File = File>>(
    rt: &R,
    alloc: Global,
    name: &str,
    port: u16,
) -> Result<String, Fail> {
    let text = format!(in alloc;
        "cluster = \"c1\"\nlisten = \"127.0.0.1:{port}\"\ngeneration_file = \"{name}.generation\"\n\
         journal = \"{name}.journal\"\nrounds = 2\nexchanges = 0\ninterval = 0\n"
    )?;
    write_file(rt, alloc, name, "toml", text.as_bytes())?;
    path_of(alloc, name, "toml")
}

/// Removes a node's file, if there is one.
pub fn remove_file<R: Files<File = File>>(
    rt: &R,
    alloc: Global,
    name: &str,
    ending: &str,
) -> Result<(), Fail> {
    let path = path_of(alloc, name, ending)?;
    let _ = fs::remove_file(rt, path.as_str());
    Ok(())
}

/// Reads the generation that a node kept, if it kept one; or returns the fault by which it can't be read.
pub fn generation_of<R: Files<File = File>>(
    rt: &R,
    alloc: Global,
    name: &str,
) -> Result<Result<Option<u32>, Fault>, Fail> {
    let path = path_of(alloc, name, "generation")?;
    Ok(match stored_generation(rt, alloc, path.as_str()) {
        Ok(Some(generation)) => Ok(Some(generation.get())),
        Ok(None) => Ok(None),
        Err(fault) => Err(fault),
    })
}

/// Reads the journal that a node left: its endpoint, its generation, and the number of its records; `None` if there is
/// no file. A journal that can't be read is a failure.
pub fn journal_of<R: Files<File = File>>(
    rt: &R,
    alloc: Global,
    name: &str,
) -> Result<Option<(Endpoint, Generation, usize)>, Fail> {
    let path = path_of(alloc, name, "journal")?;
    let Some(bytes) = read_file(rt, alloc, path.as_str(), 100000)? else {
        return Ok(None);
    };
    let Ok(history) = read_journal(alloc, &mut Counted::new(bytes.as_slice())) else {
        return Err(Fail::new("a journal that cannot be read"));
    };
    let base = history.base().table();
    let generation = base.own_entry().generation();
    Ok(Some((base.own(), generation, history.records().len())))
}
