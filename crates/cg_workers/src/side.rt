//! One side of a connection.

ghost use Rattle.std.specs.Prelude.{◌≡◌, IfErr};
ghost use Rattle.std.specs.Io.{ReadsAtMost, WritesAtMost};
ghost use Rattle.cg_types.specs.declared.fault.Fault.TheVariants as faults;

use crate::limits::CALL_TRIES;
use crate::traffic::Counting;
use cg_types::Fault;
use std::alloc::Global;
use std::io;
use std::io::{ErrorKind, Read, Write};
use std::net::TcpStream;
use std::rt::Clock;
use std::sync::Arc;
use std::time::{Duration, Instant};

/// A connection, to read or to write. A call fails if it is made after the connection's end, or ends after it. Until
/// bytes came, a read fails after an end of its own.
#[derive(Drop)]
pub struct Side<'a, R: Clock> {
    rt: &'a R,
    stream: Arc<TcpStream, Global>,
    counting: Counting,
    read_end: Instant,
    end: Instant,
}

/// Returns the time a number of milliseconds from now.
pub(crate) fn end_in<R: Clock>(rt: &R, milliseconds: u32) -> io::Result<Instant> {
    let now = Instant::now(rt)?;
    match now.checked_add(Duration::from_millis(u64::from(milliseconds))) {
        Some(end) => Ok(end),
        None => Ok(now),
    }
}

/// Returns the time that is left until an end; `TimedOut` if none is.
pub(crate) fn left_until<R: Clock>(rt: &R, end: Instant) -> io::Result<Duration> {
    let left = end.saturating_duration_since(Instant::now(rt)?);
    if left.is_zero() {
        return Err(io::Error::from(ErrorKind::TimedOut));
    }
    Ok(left)
}

impl<'a, R: Clock> Side<'a, R> {
    /// Makes both sides of a connection that ends at a given time, and earlier if no byte came by `first_end`.
    /// `OutOfMemory` if there is no memory for them; the connection is then closed.
    pub(crate) fn pair(
        rt: &'a R,
        alloc: Global,
        stream: TcpStream,
        counting: &Counting,
        first_end: Instant,
        end: Instant,
    ) -> Result<(Side<'a, R>, Side<'a, R>), Fault>
        ensures { IfErr result (λ f. f ≡ faults.OutOfMemory) }
    {
        let read = counting.copy()?;
        let written = counting.copy()?;
        let stream = match Arc::new(alloc, stream) {
            Ok(stream) => stream,
            Err(_) => return Err(Fault::OutOfMemory),
        };
        let twin = match Arc::try_clone(&stream) {
            Ok(twin) => twin,
            Err(_) => return Err(Fault::OutOfMemory),
        };
        let reader = Side {
            rt,
            stream,
            counting: read,
            read_end: first_end,
            end,
        };
        let writer = Side {
            rt,
            stream: twin,
            counting: written,
            read_end: first_end,
            end,
        };
        Ok((reader, writer))
    }

    // Reads once, for no longer than is left.
    fn read_once(&self, buf: &mut [u8]) -> io::Result<usize>
        ensures { ReadsAtMost result buf.new }
    {
        self.stream
            .set_read_timeout(Some(left_until(self.rt, self.read_end)?))?;
        let mut stream = &*self.stream;
        stream.read(buf)
    }

    // Writes once, for no longer than is left.
    fn write_once(&self, buf: &[u8]) -> io::Result<usize>
        ensures { WritesAtMost result buf.now }
    {
        self.stream
            .set_write_timeout(Some(left_until(self.rt, self.end)?))?;
        let mut stream = &*self.stream;
        stream.write(buf)
    }
}

impl<'a, R: Clock> Read for Side<'a, R> {
    fn read(&mut self, buf: &mut [u8]) -> io::Result<usize> {
        for _ in 0..CALL_TRIES {
            match self.read_once(buf) {
                Ok(count) => {
                    if count > 0 {
                        self.read_end = self.end;
                    }
                    self.counting.add_read(count);
                    return Ok(count);
                }
                Err(error) => {
                    if error.kind() != ErrorKind::Interrupted {
                        return Err(error);
                    }
                }
            }
        }
        Err(io::Error::from(ErrorKind::Interrupted))
    }
}

impl<'a, R: Clock> Write for Side<'a, R> {
    fn write(&mut self, buf: &[u8]) -> io::Result<usize> {
        for _ in 0..CALL_TRIES {
            match self.write_once(buf) {
                Ok(count) => {
                    self.counting.add_written(count);
                    return Ok(count);
                }
                Err(error) => {
                    if error.kind() != ErrorKind::Interrupted {
                        return Err(error);
                    }
                }
            }
        }
        Err(io::Error::from(ErrorKind::Interrupted))
    }

    fn flush(&mut self) -> io::Result<()> {
        Ok(())
    }
}
