//! The work of an operator, over its lines.

ghost use Rattle.std.specs.Prelude.{◌≡◌, ◌≤◌, ◌+◌, IfErr};
ghost use Rattle.cg_links.specs.Counted.{link_of, calls_of};
ghost use Rattle.cg_links.specs.declared.transfer.TheConstants.{MOST_READS};
ghost use Rattle.cg_views.specs.Lists.{StartsWith};
ghost use Rattle.cg_locked.specs.Seats.{GoesOn, IsOperatorFault};
ghost use Rattle.cg_operator.specs.Operating.{Operates, TellsLine};
ghost use Rattle.cg_operator.specs.Steps.{at_of};

use crate::answering::answer;
use cg_links::{Counted, Next, TakeLine, take_lines, write_and_flush};
use cg_locked::{Name, SeatGate};
use cg_types::Fault;
use cg_views::Pass;
use std::alloc::Global;
use std::io::{Read, Write};
use std::sync::Wait;

// An operator between two lines.
#[derive(Drop)]
pub(crate) struct Operating<'a, 'b, N: Name, R: Wait, W> {
    pub gate: &'a mut SeatGate<'b, N, R>,
    pub pass: &'a mut Pass<N>,
    pub writer: &'a mut Counted<W>,
}

// Carries out a line, and writes the text that it shows. `quit` stops the reading.
fn tell_line<N: Name, R: Wait, W: Write>(
    alloc: Global,
    gate: &mut SeatGate<'_, N, R>,
    pass: &mut Pass<N>,
    writer: &mut Counted<W>,
    line: &[u8],
) -> Result<Next, Fault>
    ensures { TellsLine W.contents N.start N.opening (record { gate = gate.old; pass = pass.old; writer = writer.old })
        line.now (record { gate = gate.new; pass = pass.new; writer = writer.new }) result }
{
    match answer(alloc, gate, pass, line) {
        Ok(Some(text)) => match write_and_flush(writer, text.as_bytes()) {
            Ok(()) => Ok(Next::More),
            Err(fault) => Err(fault),
        },
        Ok(None) => Ok(Next::Stop),
        Err(fault) => Err(fault),
    }
}

impl<'a, 'b, N: Name, R: Wait, W: Write> TakeLine for Operating<'a, 'b, N, R, W> {
    ghost use Rattle.cg_operator.specs.Steps.{TakesStep, QuitsStep, RefusesStep};

    ghost takes = { TakesStep W.contents N.start N.opening };

    ghost ends = { QuitsStep W.contents N.start N.opening };

    ghost refuses = { RefusesStep W.contents N.start N.opening };

    fn take_line(&mut self, alloc: Global, line: &[u8]) -> Result<Next, Fault> {
        match tell_line(alloc, self.gate, self.pass, self.writer, line) {
            Ok(next) => Ok(next),
            Err(fault) => Err(fault),
        }
    }
}

// Carries out the lines that a reader has left.
fn operate_lines<N: Name, R: Wait, W: Write, I: Read>(
    alloc: Global,
    operating: &mut Operating<'_, '_, N, R, W>,
    reader: &mut Counted<I>,
) -> Result<(), Fault>
    ensures gate { operating.new.gate.ghost_name ≡ operating.old.gate.ghost_name }
    ensures pass { operating.new.pass.ghost_name ≡ operating.old.pass.ghost_name }
    ensures writer { operating.new.writer.ghost_name ≡ operating.old.writer.ghost_name }
    ensures done { Operates W.contents N.start N.opening
        (I.remaining (link_of reader.old)) (I.remaining (link_of reader.new))
        reader.old reader.new (at_of operating.old) (at_of operating.new) result }
    ensures turns { calls_of reader.new ≤ calls_of reader.old + MOST_READS }
{
    take_lines(alloc, operating, reader)
}

/// Carries out the lines that a reader has left, one after the other, until `quit`, the end or a fault. The text that a
/// line shows is written and flushed before the next line is done.
///
/// `gossipinfo`, `ring`, `digests` and `replicas RF TEXT` show what the pass reads, with no lock. `set KEY TEXT` sets a
/// key of the node, and `remove KEY` removes its text. Each shows `version N` once the pass has learnt the `Told` of the
/// change, or `version N unpublished` if no memory was found to publish it. A line that can't be read shows
/// `fault 2 BadText` or `fault 3 TooLong`, and a refused change `fault 4 VersionsSpent` or `fault 20 NoSuchKey`.
///
/// `OutOfMemory` if memory runs out; `ReadFault` if a read fails or 4,294,967,295 reads were made; `WriteFault` if the
/// writer fails or takes no byte; `NoSuchNode` if there is nothing to read any more. With `OutOfMemory` and
/// `WriteFault` the change of that line may have been done, and nothing else.
pub fn operate<N: Name, R: Wait, I: Read, W: Write>(
    alloc: Global,
    reader: &mut Counted<I>,
    writer: &mut Counted<W>,
    gate: &mut SeatGate<'_, N, R>,
    pass: &mut Pass<N>,
) -> Result<(), Fault>
    // The lines that are done, and the text written of each.
    ensures lines { Operates W.contents N.start N.opening
        (I.remaining (link_of reader.old)) (I.remaining (link_of reader.new))
        reader.old reader.new (record { gate = gate.old; pass = pass.old; writer = writer.old })
        (record { gate = gate.new; pass = pass.new; writer = writer.new }) result }
    ensures gate { GoesOn gate.old gate.new }
    ensures later { StartsWith pass.new pass.old }
    ensures fault { IfErr result IsOperatorFault }
    ensures turns { calls_of reader.new ≤ calls_of reader.old + MOST_READS }
{
    let mut operating = Operating { gate, pass, writer };
    operate_lines(alloc, &mut operating, reader)
}
