//! Lines that are done and written, one after the other.

ghost use Rattle.std.specs.Prelude.{◌≡◌, ◌≤◌, ◌+◌, ◌⊎◌, [], ◌∷◌, MatchResult};
ghost use Rattle.cg_links.specs.Counted.{link_of, calls_of};
ghost use Rattle.cg_links.specs.declared.transfer.TheConstants.{MOST_READS};
ghost use Rattle.cg_sim.specs.Script.{first_play};
ghost use Rattle.cg_sim.specs.Told.{AreTold, IsUntold, BreaksOff};
ghost use Rattle.cg_sim.specs.Simulated.{IsPlayed, FailsInTurn};

use crate::play::Play;
use cg_links::{Counted, Next, TakeLine, take_lines, write_and_flush};
use cg_types::Fault;
use std::alloc::Global;
use std::io::{Read, Write};

/// A script between two lines, with the room for a line's text and the writer of all texts.
#[derive(Drop)]
pub(crate) struct Telling<'a, W> {
    pub play: &'a mut Play,
    pub text: &'a mut String,
    pub writer: &'a mut Counted<W>,
}

// Does a line, and writes its text, which `text` then holds.
fn tell_line<W: Write>(
    alloc: Global,
    play: &mut Play,
    text: &mut String,
    writer: &mut Counted<W>,
    line: &[u8],
) -> Result<(), Fault>
    ensures { MatchResult result
        (λ _. AreTold play.old play.new (line.now ∷ [])
        (W.contents (link_of writer.old)) (W.contents (link_of writer.new)) writer.old writer.new)
        (λ f. IsUntold (W.contents (link_of writer.old)) (W.contents (link_of writer.new)) writer.old writer.new f
        ⊎ BreaksOff play.old (line.now ∷ [])
        (W.contents (link_of writer.old)) (W.contents (link_of writer.new)) writer.old writer.new f) }
{
    text.clear();
    match play.line(alloc, text, line) {
        Ok(()) => write_and_flush(writer, text.as_bytes()),
        Err(_) => Err(Fault::OutOfMemory),
    }
}

impl<'a, W: Write> TakeLine for Telling<'a, W> {
    ghost use Rattle.cg_links.specs.Taken.{NeverEnds};
    ghost use Rattle.cg_sim.specs.Steps.{TakesStep, RefusesStep};

    ghost takes = { TakesStep W.contents };

    ghost ends = { NeverEnds };

    ghost refuses = { RefusesStep W.contents };

    fn take_line(&mut self, alloc: Global, line: &[u8]) -> Result<Next, Fault> {
        match tell_line(alloc, self.play, self.text, self.writer, line) {
            Ok(()) => Ok(Next::More),
            Err(fault) => Err(fault),
        }
    }
}

/// Does each line of a script, from its first one on, and writes its text.
pub(crate) fn tell_lines<R: Read, W: Write>(
    alloc: Global,
    telling: &mut Telling<'_, W>,
    reader: &mut Counted<R>,
) -> Result<(), Fault>
    requires { telling.old.play.now ≡ first_play }
    ensures writer { telling.new.writer.ghost_name ≡ telling.old.writer.ghost_name }
    ensures told { MatchResult result
        (λ _. IsPlayed
        (R.remaining (link_of reader.old)) (R.remaining (link_of reader.new))
        (W.contents (link_of telling.old.writer.now)) (W.contents (link_of telling.new.writer.now))
        reader.old reader.new telling.old.writer.now telling.new.writer.now)
        (λ f. FailsInTurn
        (R.remaining (link_of reader.old)) (R.remaining (link_of reader.new))
        (W.contents (link_of telling.old.writer.now)) (W.contents (link_of telling.new.writer.now))
        reader.old reader.new telling.old.writer.now telling.new.writer.now f) }
    ensures turns { calls_of reader.new ≤ calls_of reader.old + MOST_READS }
{
    take_lines(alloc, telling, reader)
}
