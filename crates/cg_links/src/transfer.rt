//! Reading a link to its end, and writing all of some bytes to one, also flushed.

ghost use Rattle.std.specs.Prelude.{◌≡◌, ◌≤◌, ◌+◌, ℕ, List, ◌⊎◌, take, OnOk, OnErr, IfOk, IfErr, Err};
ghost use Rattle.std.specs.Io.KnownBytes.{Appends, Consumes, IsAtEnd};
ghost use Rattle.cg_links.specs.Counted.{link_of, calls_of, KeepsCounts, CountsCalls, CountsFailed, CountsIdle, IsFlushed};
ghost use Rattle.cg_types.specs.declared.fault.Fault.TheVariants as faults;

use crate::counted::Counted;
use cg_types::Fault;
use std::alloc::Global;
use std::io::{Read, Write};

/// Writes all of the bytes. It returns `WriteFault` if the writer failed or took none of the bytes left; then a prefix
/// of the bytes was written.
pub fn write_bytes<W: Write>(writer: &mut Counted<W>, bytes: &[u8]) -> Result<(), Fault>
    ensures ok { OnOk result (Appends (W.contents (link_of writer.old)) (W.contents (link_of writer.new)) bytes.now) }
    ensures kept { OnOk result (KeepsCounts writer.old writer.new) }
    ensures front { OnErr result ((n : ℕ)
        × Appends (W.contents (link_of writer.old)) (W.contents (link_of writer.new)) (take n bytes.now)) }
    ensures fault { IfErr result (λ f. f ≡ faults.WriteFault) }
    ensures caused { OnErr result (CountsFailed writer.old writer.new ⊎ CountsIdle writer.old writer.new) }
{
    let mut rest = bytes;
    while !rest.is_empty() {
        match writer.write(rest) {
            Ok(0) => return Err(Fault::WriteFault),
            Ok(n) => rest = &rest[n..],
            Err(_) => return Err(Fault::WriteFault),
        }
    }
    Ok(())
}

/// Writes all of the bytes, and flushes the writer. It returns `WriteFault` if that failed, or if the writer took none
/// of the bytes left; then a prefix of the bytes was written.
pub fn write_and_flush<W: Write>(writer: &mut Counted<W>, bytes: &[u8]) -> Result<(), Fault>
    ensures ok { OnOk result (Appends (W.contents (link_of writer.old)) (W.contents (link_of writer.new)) bytes.now) }
    ensures kept { OnOk result (KeepsCounts writer.old writer.new) }
    ensures flushed { OnOk result (IsFlushed writer.new) }
    ensures front { OnErr result ((n : ℕ)
        × Appends (W.contents (link_of writer.old)) (W.contents (link_of writer.new)) (take n bytes.now)) }
    ensures fault { IfErr result (λ f. f ≡ faults.WriteFault) }
    ensures caused { OnErr result (CountsFailed writer.old writer.new ⊎ CountsIdle writer.old writer.new) }
{
    match write_bytes(writer, bytes) {
        Ok(()) => {}
        Err(fault) => return Err(fault),
    }
    match writer.flush() {
        Ok(()) => Ok(()),
        Err(_) => Err(Fault::WriteFault),
    }
}

/// The most reads that are made to reach a link's end.
pub const MOST_READS: u32 = u32::MAX;

/// Reads all that the link has left. It returns `OutOfMemory` if the bytes find no room; `ReadFault` if a read failed,
/// or if `MOST_READS` reads did not meet the end.
pub fn read_all<R: Read>(alloc: Global, reader: &mut Counted<R>) -> Result<Vec<u8>, Fault>
    ensures ok { IfOk result (λ v.
        Consumes (R.remaining (link_of reader.old)) (R.remaining (link_of reader.new)) v.items) }
    ensures end { OnOk result (IsAtEnd (R.remaining (link_of reader.new))) }
    ensures taken { OnErr result ((bytes : List ℕ)
        × Consumes (R.remaining (link_of reader.old)) (R.remaining (link_of reader.new)) bytes) }
    ensures kept { OnOk result (KeepsCounts reader.old reader.new) }
    ensures fault { IfErr result (λ f. (f ≡ faults.OutOfMemory) ⊎ (f ≡ faults.ReadFault)) }
    // a failed read is never reported as want of memory
    ensures memory { (result ≡ Err faults.OutOfMemory) → KeepsCounts reader.old reader.new }
    ensures caused { (result ≡ Err faults.ReadFault)
        → CountsFailed reader.old reader.new ⊎ CountsCalls reader.old reader.new MOST_READS }
    ensures turns { calls_of reader.new ≤ calls_of reader.old + MOST_READS }
{
    let mut bytes = Vec::new(alloc);
    let mut chunk = [0u8; 4096];
    for _ in 0..MOST_READS {
        match reader.read(&mut chunk) {
            Ok(0) => return Ok(bytes),
            Ok(n) => bytes.extend_from_slice(&chunk[..n])?,
            Err(_) => return Err(Fault::ReadFault),
        }
    }
    Err(Fault::ReadFault)
}
