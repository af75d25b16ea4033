//! Sample endpoints at the loopback that are free.

use cg_types::Endpoint;
use std::net::{Net, TcpListener, TcpStream};
use std::test::Fail;

/// An endpoint at which nobody listens.
pub(crate) fn free_endpoint<R: Net<Listener = TcpListener, Stream = TcpStream>>(
    rt: &R,
) -> Result<Endpoint, Fail> {
    let at = TcpListener::bind(rt, "127.0.0.1:0")?.local_addr()?;
    at_port(at.port())
}

/// The endpoint of a port at the loopback.
pub(crate) fn at_port(port: u16) -> Result<Endpoint, Fail> {
    Ok(Endpoint::new([127, 0, 0, 1], port).ok_or("endpoint")?)
}
