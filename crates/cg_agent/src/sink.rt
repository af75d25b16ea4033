//! The file of a journal, of which a life writes so many bytes at most.

ghost use Rattle.std.specs.Prelude.{◌≡◌, ◌+◌, ◌-◌, ◌<◌, ◌≤◌, ◌^◌, min, length, IsNone, IsSome, IfOk};

use std::fs::OpenFile;
use std::io;
use std::io::{Eprint, Write};

/// A journal's file, to which lines are written, each up to a flush. Once a line passes the bound, the file is cut behind
/// the line before, nothing more is written, and standard error says so. Without a file nothing is written.
#[derive(Drop)]
pub(crate) struct Sink<'a, R, F> {
    rt: &'a R,
    file: Option<F>,
    bound: u64,
    // the bytes of whole lines, and those of the line that is begun
    whole: u64,
    begun: u64,
}

impl<'a, R: Eprint, F: Write + OpenFile + Drop> Sink<'a, R, F> {
    /// Makes the sink of an empty file, to which this many bytes may be written.
    pub(crate) fn new(rt: &'a R, file: Option<F>, bound: u64) -> Sink<'a, R, F>
        ensures { (result.file ≡ file) × (result.bound ≡ bound) × (result.whole + result.begun ≡ 0) }
    {
        Sink {
            rt,
            file,
            bound,
            whole: 0,
            begun: 0,
        }
    }

    // Lets the file go, cut behind its last whole line, if these bytes of the next one have no room there.
    fn make_room(&mut self, length: usize)
        ensures full { self.old.bound < min (self.old.whole + self.old.begun + length) (2 ^ 64 - 1)
            → IsNone self.new.file }
        ensures room { min (self.old.whole + self.old.begun + length) (2 ^ 64 - 1) ≤ self.old.bound
            → self.new.file ≡ self.old.file }
        ensures same { (self.new.bound ≡ self.old.bound) × (self.new.whole ≡ self.old.whole)
            × (self.new.begun ≡ self.old.begun) }
    {
        let written = self.whole.saturating_add(self.begun);
        if written.saturating_add(length as u64) <= self.bound {
            return;
        }
        if let Some(file) = &self.file {
            if self.begun > 0 {
                let _cut = file.set_len(self.whole);
            }
            let _ = eprintln!(self.rt;
                "cg agent: the journal is full and ends here; the node goes on"
            );
        }
        self.file = None;
    }

    // Writes some of the bytes, all of which are of one line, or prints why it can't. Without a file it takes them all.
    fn write_some(&mut self, bytes: &[u8]) -> io::Result<usize>
        ensures count { IfOk result (λ n. n ≤ length bytes.now) }
        ensures full { self.old.bound < min (self.old.whole + self.old.begun + length bytes.now) (2 ^ 64 - 1)
            → IsNone self.new.file }
        ensures counted { IfOk result (λ n. IsSome self.new.file
            → self.new.begun ≡ min (self.old.begun + n) (2 ^ 64 - 1)) }
        ensures same { (self.new.bound ≡ self.old.bound) × (self.new.whole ≡ self.old.whole) }
    {
        self.make_room(bytes.len());
        let Some(file) = &mut self.file else {
            return Ok(bytes.len());
        };
        match file.write(bytes) {
            Ok(count) => {
                self.begun = self.begun.saturating_add(count as u64);
                Ok(count)
            }
            Err(error) => {
                let _ = eprintln!(self.rt; "cg agent: the journal can't be written: {error}");
                Err(error)
            }
        }
    }

    // Ends the line.
    fn end_line(&mut self)
        ensures line { (self.new.whole ≡ min (self.old.whole + self.old.begun) (2 ^ 64 - 1)) × (self.new.begun ≡ 0) }
        ensures same { (self.new.bound ≡ self.old.bound) × (self.new.file ≡ self.old.file) }
    {
        self.whole = self.whole.saturating_add(self.begun);
        self.begun = 0;
    }
}

impl<'a, R: Eprint, F: Write + OpenFile + Drop> Write for Sink<'a, R, F> {
    fn write(&mut self, buf: &[u8]) -> io::Result<usize> {
        self.write_some(buf)
    }

    fn flush(&mut self) -> io::Result<()> {
        self.end_line();
        match &mut self.file {
            Some(file) => file.flush(),
            None => Ok(()),
        }
    }
}
