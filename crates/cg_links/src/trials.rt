//! Links for trials: one fails at one of its calls, one moves a byte a call, one takes nothing, and one counts its
//! calls.

ghost use Rattle.std.specs.Prelude.{◌≡◌, ◌≤◌, ◌↔◌, [], Ok, Some, length, max, IfOk, IsErr, IsOk, IsTrue};
ghost use Rattle.std.specs.Io.{ReadsAtMost, WritesAtMost};
ghost use Rattle.std.specs.Io.KnownBytes.{Keeps, ReadConsumes, WriteAppends};
ghost use Rattle.cg_links.specs.Counts.{one_more};

use crate::counted::count;
use std::io;
use std::io::{Read, Write};

/// A link of which one call fails and moves no byte; every other call is the link's own.
#[derive(Drop)]
pub struct FailingLink<L> {
    link: L,
    turn: u64,
    calls: u64,
}

impl<L> FailingLink<L> {
    ghost use Rattle.cg_links.specs.Trials.{link_of_failing, turn_of, calls_of_failing};

    /// Wraps a link whose call of this number fails, counted from 1 over reads, writes and flushes; number 0 means
    /// none.
    pub fn new(link: L, turn: u64) -> FailingLink<L>
        ensures link { link_of_failing result ≡ link }
        ensures turn { turn_of result ≡ turn }
        ensures calls { calls_of_failing result ≡ 0 }
    {
        FailingLink {
            link,
            turn,
            calls: 0,
        }
    }

    /// The number of calls made, up to 2^64 - 1.
    pub fn calls(&self) -> u64
        ensures { result ≡ calls_of_failing self.now }
    {
        self.calls
    }

    /// Returns the link.
    pub fn into_link(self) -> L
        ensures { result ≡ link_of_failing self }
    {
        self.link
    }

    // Counts a call, and returns `true` if it is the one that fails.
    fn fails_now(&mut self) -> bool
        ensures link { link_of_failing self.new ≡ link_of_failing self.old }
        ensures turn { turn_of self.new ≡ turn_of self.old }
        ensures calls { calls_of_failing self.new ≡ one_more (calls_of_failing self.old) }
        ensures is { IsTrue result ↔ (calls_of_failing self.new ≡ turn_of self.old) }
    {
        count(&mut self.calls);
        self.calls == self.turn
    }
}

fn broken() -> io::Error {
    io::Error::other("this call fails")
}

impl<R: Read> Read for FailingLink<R> {
    ghost use Rattle.cg_links.specs.Trials.{link_of_failing, turn_of, calls_of_failing};

    ghost remaining = { λ f. R.remaining (link_of_failing f) };

    fn read(&mut self, buf: &mut [u8]) -> io::Result<usize>
        ensures bound { ReadsAtMost result buf.new }
        ensures bytes { ReadConsumes (R.remaining (link_of_failing self.old))
            (R.remaining (link_of_failing self.new)) result buf.new }
        ensures calls { calls_of_failing self.new ≡ one_more (calls_of_failing self.old) }
        ensures turn { turn_of self.new ≡ turn_of self.old }
        ensures fails { calls_of_failing self.new ≡ turn_of self.old → IsErr result }
    {
        if self.fails_now() {
            return Err(broken());
        }
        self.link.read(buf)
    }
}

impl<W: Write> Write for FailingLink<W> {
    ghost use Rattle.cg_links.specs.Trials.{link_of_failing, turn_of, calls_of_failing};

    ghost contents = { λ f. W.contents (link_of_failing f) };

    fn write(&mut self, buf: &[u8]) -> io::Result<usize>
        ensures bound { WritesAtMost result buf.now }
        ensures bytes { WriteAppends (W.contents (link_of_failing self.old))
            (W.contents (link_of_failing self.new)) result buf.now }
        ensures calls { calls_of_failing self.new ≡ one_more (calls_of_failing self.old) }
        ensures turn { turn_of self.new ≡ turn_of self.old }
        ensures fails { calls_of_failing self.new ≡ turn_of self.old → IsErr result }
    {
        if self.fails_now() {
            return Err(broken());
        }
        self.link.write(buf)
    }

    fn flush(&mut self) -> io::Result<()>
        ensures bytes { Keeps (W.contents (link_of_failing self.old)) (W.contents (link_of_failing self.new)) }
        ensures calls { calls_of_failing self.new ≡ one_more (calls_of_failing self.old) }
        ensures turn { turn_of self.new ≡ turn_of self.old }
        ensures fails { calls_of_failing self.new ≡ turn_of self.old → IsErr result }
    {
        if self.fails_now() {
            return Err(broken());
        }
        self.link.flush()
    }
}

/// A link that gives at most one byte at each read, and takes at most one at each write.
#[derive(Drop)]
pub struct SlowLink<L> {
    link: L,
}

impl<L> SlowLink<L> {
    ghost use Rattle.cg_links.specs.Trials.{link_of_slow};

    /// Wraps a link, to move at most one byte a call.
    pub fn new(link: L) -> SlowLink<L>
        ensures { link_of_slow result ≡ link }
    {
        SlowLink { link }
    }

    /// Returns the link.
    pub fn into_link(self) -> L
        ensures { result ≡ link_of_slow self }
    {
        self.link
    }
}

impl<R: Read> Read for SlowLink<R> {
    ghost use Rattle.cg_links.specs.Trials.{link_of_slow};

    ghost remaining = { λ s. R.remaining (link_of_slow s) };

    fn read(&mut self, buf: &mut [u8]) -> io::Result<usize>
        ensures bound { ReadsAtMost result buf.new }
        ensures bytes { ReadConsumes (R.remaining (link_of_slow self.old))
            (R.remaining (link_of_slow self.new)) result buf.new }
        ensures one { IfOk result (λ n. n ≤ 1) }
    {
        let room = buf.len().min(1);
        self.link.read(&mut buf[..room])
    }
}

impl<W: Write> Write for SlowLink<W> {
    ghost use Rattle.cg_links.specs.Trials.{link_of_slow};

    ghost contents = { λ s. W.contents (link_of_slow s) };

    fn write(&mut self, buf: &[u8]) -> io::Result<usize>
        ensures bound { WritesAtMost result buf.now }
        ensures bytes { WriteAppends (W.contents (link_of_slow self.old))
            (W.contents (link_of_slow self.new)) result buf.now }
        ensures one { IfOk result (λ n. n ≤ 1) }
    {
        let front = buf.len().min(1);
        self.link.write(&buf[..front])
    }

    fn flush(&mut self) -> io::Result<()>
        ensures bytes { Keeps (W.contents (link_of_slow self.old)) (W.contents (link_of_slow self.new)) }
    {
        self.link.flush()
    }
}

/// A writer that takes no byte, and whose calls do not fail.
#[derive(Drop)]
pub struct FullLink;

impl Write for FullLink {
    ghost contents = { λ _. Some [] };

    fn write(&mut self, buf: &[u8]) -> io::Result<usize>
        ensures bound { WritesAtMost result buf.now }
        ensures bytes { WriteAppends (Some []) (Some []) result buf.now }
        ensures none { result ≡ Ok 0 }
    {
        Ok(0)
    }

    fn flush(&mut self) -> io::Result<()>
        ensures bytes { Keeps (Some []) (Some []) }
        ensures ok { IsOk result }
    {
        Ok(())
    }
}

/// A link that counts its own reads, writes and flushes, and keeps the most bytes that one read had room for. Each
/// count stays at its greatest value, 2^64 - 1.
#[derive(Drop)]
pub struct CountingLink<L> {
    link: L,
    reads: u64,
    writes: u64,
    flushes: u64,
    most_asked: usize,
}

impl<L> CountingLink<L> {
    ghost use Rattle.cg_links.specs.Trials.{link_of_counting, reads_of, writes_of, flushes_of, most_asked_of};

    /// Wraps a link, with no call counted.
    pub fn new(link: L) -> CountingLink<L>
        ensures link { link_of_counting result ≡ link }
        ensures reads { reads_of result ≡ 0 }
        ensures writes { writes_of result ≡ 0 }
        ensures flushes { flushes_of result ≡ 0 }
        ensures asked { most_asked_of result ≡ 0 }
    {
        CountingLink {
            link,
            reads: 0,
            writes: 0,
            flushes: 0,
            most_asked: 0,
        }
    }

    /// The number of reads made.
    pub fn reads(&self) -> u64
        ensures { result ≡ reads_of self.now }
    {
        self.reads
    }

    /// The number of writes made.
    pub fn writes(&self) -> u64
        ensures { result ≡ writes_of self.now }
    {
        self.writes
    }

    /// The number of flushes made.
    pub fn flushes(&self) -> u64
        ensures { result ≡ flushes_of self.now }
    {
        self.flushes
    }

    /// The most bytes that one read had room for.
    pub fn most_asked(&self) -> usize
        ensures { result ≡ most_asked_of self.now }
    {
        self.most_asked
    }

    /// Returns the link.
    pub fn into_link(self) -> L
        ensures { result ≡ link_of_counting self }
    {
        self.link
    }
}

impl<R: Read> Read for CountingLink<R> {
    ghost use Rattle.cg_links.specs.Trials.{link_of_counting, reads_of, most_asked_of};

    ghost remaining = { λ c. R.remaining (link_of_counting c) };

    fn read(&mut self, buf: &mut [u8]) -> io::Result<usize>
        ensures bound { ReadsAtMost result buf.new }
        ensures bytes { ReadConsumes (R.remaining (link_of_counting self.old))
            (R.remaining (link_of_counting self.new)) result buf.new }
        ensures reads { reads_of self.new ≡ one_more (reads_of self.old) }
        ensures asked { most_asked_of self.new ≡ max (most_asked_of self.old) (length buf.old) }
    {
        count(&mut self.reads);
        self.most_asked = self.most_asked.max(buf.len());
        self.link.read(buf)
    }
}

impl<W: Write> Write for CountingLink<W> {
    ghost use Rattle.cg_links.specs.Trials.{link_of_counting, writes_of, flushes_of};

    ghost contents = { λ c. W.contents (link_of_counting c) };

    fn write(&mut self, buf: &[u8]) -> io::Result<usize>
        ensures bound { WritesAtMost result buf.now }
        ensures bytes { WriteAppends (W.contents (link_of_counting self.old))
            (W.contents (link_of_counting self.new)) result buf.now }
        ensures writes { writes_of self.new ≡ one_more (writes_of self.old) }
        ensures flushes { flushes_of self.new ≡ flushes_of self.old }
    {
        count(&mut self.writes);
        self.link.write(buf)
    }

    fn flush(&mut self) -> io::Result<()>
        ensures bytes { Keeps (W.contents (link_of_counting self.old)) (W.contents (link_of_counting self.new)) }
        ensures writes { writes_of self.new ≡ writes_of self.old }
        ensures flushes { flushes_of self.new ≡ one_more (flushes_of self.old) }
    {
        count(&mut self.flushes);
        self.link.flush()
    }
}
