//! Connections that come in: exchanges answered or broken, and the end of the receiver's work.

use crate::samples::{SYN, SYN_AND_ACK2, Standing, owners, started};
use cg_testing::{B, expect_eq};
use cg_types::Fault;
use cg_workers::{Listen, answer_next, receiver};
use std::alloc::Global;
use std::test::Fail;

// The outcome of one call of a listener: a connection of which these bytes are read, none, or a fault.
type Coming = Result<Option<&'static [u8]>, Fault>;

// A listener with these outcomes, one call after the other, and then no connection.
#[derive(Drop)]
struct Script<'a> {
    alloc: Global,
    comings: &'a [Coming],
    calls: usize,
}

impl<'a> Listen for Script<'a> {
    type Reader = &'static [u8];

    type Writer = Vec<u8>;

    fn accept(&mut self) -> Result<Option<(&'static [u8], Vec<u8>)>, Fault> {
        let coming = self.comings.get(self.calls).copied();
        self.calls = self.calls.saturating_add(1);
        match coming {
            Some(Ok(Some(bytes))) => Ok(Some((bytes, Vec::new(self.alloc)))),
            Some(Err(Fault::OutOfMemory)) => Err(Fault::OutOfMemory),
            Some(Err(_)) => Err(Fault::ReadFault),
            _ => Ok(None),
        }
    }
}

// The number of connections that came to B, of its calls for one, and of owners that it holds at the end.
fn received(
    alloc: Global,
    comings: &[Coming],
    exchanges: u32,
) -> Result<(u32, usize, usize), Fail> {
    let mut gate = started(alloc, B, 5)?;
    let mut listener = Script {
        alloc,
        comings,
        calls: 0,
    };
    let count = receiver(alloc, &mut gate, &mut listener, &Standing(1000), exchanges);
    Ok((count, listener.calls, owners(&gate)))
}

const WHOLE: Coming = Ok(Some(SYN_AND_ACK2));

#[test]
fn an_exchange_is_answered(rt: HostRuntime) -> Result<(), Fail> {
    expect_eq!(received(rt.alloc(), &[WHOLE], 1)?, (1, 1, 2))
}

#[test]
fn a_broken_exchange_ends_itself_alone(rt: HostRuntime) -> Result<(), Fail> {
    let alloc = rt.alloc();
    let short: Coming = Ok(Some(SYN));
    let noise: Coming = Ok(Some(b"\x00\x00\x00\x01\xff".as_slice()));
    let nothing: Coming = Ok(Some(b"".as_slice()));
    expect_eq!(received(alloc, &[short, noise, nothing], 3)?, (3, 3, 1))?;
    expect_eq!(received(alloc, &[short, noise, WHOLE], 3)?, (3, 3, 2))
}

#[test]
fn it_ends_where_none_comes_or_accepting_fails(rt: HostRuntime) -> Result<(), Fail> {
    let alloc = rt.alloc();
    expect_eq!(received(alloc, &[WHOLE, Ok(None), WHOLE], 3)?, (1, 2, 2))?;
    expect_eq!(
        received(alloc, &[Err(Fault::ReadFault), WHOLE], 3)?,
        (0, 1, 1)
    )
}

#[test]
fn no_more_come_than_are_wanted(rt: HostRuntime) -> Result<(), Fail> {
    let alloc = rt.alloc();
    expect_eq!(received(alloc, &[WHOLE], 0)?, (0, 0, 1))?;
    expect_eq!(
        received(alloc, &[Ok(Some(SYN)), WHOLE, WHOLE], 2)?,
        (2, 2, 2)
    )
}

// The outcome of waiting for one connection, and the number of owners that B holds then: the fault that broke the
// exchange off, if one came and one did.
fn came_next(alloc: Global, coming: Coming) -> Result<(Option<Option<Fault>>, usize), Fail> {
    let mut gate = started(alloc, B, 5)?;
    let mut listener = Script {
        alloc,
        comings: &[coming],
        calls: 0,
    };
    let came = answer_next(alloc, &mut gate, &mut listener, &Standing(1000));
    Ok((came, owners(&gate)))
}

#[test]
fn the_next_exchange_tells_what_broke_it_off(rt: HostRuntime) -> Result<(), Fail> {
    let alloc = rt.alloc();
    expect_eq!(came_next(alloc, WHOLE)?, (Some(None), 2))?;
    expect_eq!(came_next(alloc, Ok(Some(SYN)))?, (Some(None), 1))?;
    let cut = SYN.get(..9).ok_or("nine bytes")?;
    expect_eq!(
        came_next(alloc, Ok(Some(cut)))?,
        (Some(Some(Fault::Truncated)), 1)
    )?;
    expect_eq!(came_next(alloc, Ok(None))?, (None, 1))?;
    expect_eq!(came_next(alloc, Err(Fault::ReadFault))?, (None, 1))
}
