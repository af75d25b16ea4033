//! A link whose calls are counted.

ghost use Rattle.std.specs.Prelude.{◌≡◌, ℕ, List, Some};
ghost use Rattle.std.specs.Io.{ReadsAtMost, WritesAtMost};
ghost use Rattle.cg_links.specs.Counts.{one_more};
ghost use Rattle.std.specs.Io.KnownBytes.{Keeps, ReadConsumes, WriteAppends};

use std::io;
use std::io::{Read, Write};

/// A reader or a writer with three counts: its calls, those that failed, and its writes that took none of the bytes
/// that they were given. Each count stays at its greatest value, 2^64 - 1. It also knows whether all bytes that its
/// writes took were flushed.
#[derive(Drop)]
pub struct Counted<L> {
    link: L,
    calls: u64,
    failed: u64,
    idle: u64,
    flushed: bool,
}

/// Adds one, up to the greatest value.
pub(crate) fn count(counter: &mut u64)
    ensures { counter.new ≡ one_more counter.old }
{
    *counter = counter.saturating_add(1);
}

impl<L> Counted<L> {
    ghost use Rattle.cg_links.specs.Counted.{link_of, IsNew, calls_of, failed_of, idle_of, flushed_of};

    /// Wraps a link, with no call counted.
    pub fn new(link: L) -> Counted<L>
        ensures link { link_of result ≡ link }
        ensures counts { IsNew result }
    {
        Counted {
            link,
            calls: 0,
            failed: 0,
            idle: 0,
            flushed: true,
        }
    }

    /// The number of calls made.
    pub fn calls(&self) -> u64
        ensures { result ≡ calls_of self.now }
    {
        self.calls
    }

    /// The number of calls that failed.
    pub fn failed(&self) -> u64
        ensures { result ≡ failed_of self.now }
    {
        self.failed
    }

    /// The number of writes that took none of their bytes.
    pub fn idle(&self) -> u64
        ensures { result ≡ idle_of self.now }
    {
        self.idle
    }

    /// Returns `true` if no write took a byte since the last flush that did not fail, or since the link was wrapped.
    pub fn is_flushed(&self) -> bool
        ensures { result ≡ flushed_of self.now }
    {
        self.flushed
    }

    /// Returns the link.
    pub fn into_link(self) -> L
        ensures { result ≡ link_of self }
    {
        self.link
    }
}

impl<R: Read> Read for Counted<R> {
    ghost use Rattle.cg_links.specs.Counted.{link_of, calls_of, flushed_of, CountsRead};

    ghost remaining = { λ c. R.remaining (link_of c) };

    fn read(&mut self, buf: &mut [u8]) -> io::Result<usize>
        ensures bound { ReadsAtMost result buf.new }
        ensures bytes { ReadConsumes (R.remaining (link_of self.old)) (R.remaining (link_of self.new)) result buf.new }
        ensures calls { calls_of self.new ≡ one_more (calls_of self.old) }
        ensures counts { CountsRead self.old self.new result }
        ensures flushed { flushed_of self.new ≡ flushed_of self.old }
    {
        let result = self.link.read(buf);
        count(&mut self.calls);
        if result.is_err() {
            count(&mut self.failed);
        }
        result
    }
}

impl<W: Write> Write for Counted<W> {
    ghost use Rattle.cg_links.specs.Counted.{link_of, calls_of, CountsWrite, CountsFlush, AwaitsFlush, Flushes};

    ghost contents = { λ c. W.contents (link_of c) };

    fn write(&mut self, buf: &[u8]) -> io::Result<usize>
        ensures bound { WritesAtMost result buf.now }
        ensures bytes { WriteAppends (W.contents (link_of self.old)) (W.contents (link_of self.new)) result buf.now }
        ensures calls { calls_of self.new ≡ one_more (calls_of self.old) }
        ensures counts { CountsWrite self.old self.new result buf.now }
        ensures flushed { AwaitsFlush self.old self.new result }
    {
        let result = self.link.write(buf);
        count(&mut self.calls);
        match &result {
            Ok(0) => {
                if !buf.is_empty() {
                    count(&mut self.idle);
                }
            }
            Ok(_) => self.flushed = false,
            Err(_) => count(&mut self.failed),
        }
        result
    }

    fn flush(&mut self) -> io::Result<()>
        ensures bytes { Keeps (W.contents (link_of self.old)) (W.contents (link_of self.new)) }
        ensures calls { calls_of self.new ≡ one_more (calls_of self.old) }
        ensures counts { CountsFlush self.old self.new result }
        ensures flushed { Flushes self.old self.new result }
    {
        let result = self.link.flush();
        count(&mut self.calls);
        match &result {
            Ok(()) => self.flushed = true,
            Err(_) => count(&mut self.failed),
        }
        result
    }
}
