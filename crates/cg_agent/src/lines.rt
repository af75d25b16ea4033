//! Standard input: an operator's lines, or its end.

ghost use Rattle.std.specs.Prelude.{◌≡◌};
ghost use Rattle.cg_agent.specs.Lines.{fault_told, Obeyed, DoneLine, DoneLines};
ghost use Rattle.cg_agent.specs.Worked.{LeftByLines};

use crate::limits::LINE_MOST;
use crate::site::Site;
use crate::standard_input::StandardInput;
use cg_ahead_seats::AheadGate;
use cg_core::Event;
use cg_locked::{Name, Seat};
use cg_operator::{OperatorCommand, read_command, table_text};
use cg_text::View;
use cg_types::Fault;
use cg_views::Pass;
use cg_web::change;
use std::alloc::Global;
use std::io::{BufRead, BufReader, Input, Print, Read, Write};
use std::sync::Wait;

// Returns a view of the table that a pass reads, as text.
fn show<N: Name>(alloc: Global, pass: &mut Pass<N>, view: View) -> Result<String, Fault> {
    let snapshot = match pass.read() {
        Ok(snapshot) => snapshot,
        Err(fault) => return Err(fault),
    };
    match table_text(alloc, snapshot.table(), view) {
        Ok(text) => Ok(text),
        Err(_) => Err(Fault::OutOfMemory),
    }
}

// Carries out a command, and returns the text that it shows, or `None` if it is the end.
fn obey<N: Name, W: Write + Drop, R: Wait>(
    alloc: Global,
    gate: &mut AheadGate<'_, N, W, R>,
    pass: &mut Pass<N>,
    command: OperatorCommand,
) -> Result<Option<String>, Fault>
    ensures { Obeyed N.start N.opening.own command (fault_told result) gate.old gate.new }
{
    let text = match command {
        OperatorCommand::Show(view) => show(alloc, pass, view),
        OperatorCommand::Set { key, text } => change(alloc, gate, pass, Event::Set { key, text }),
        OperatorCommand::Remove { key } => change(alloc, gate, pass, Event::Remove { key }),
        OperatorCommand::Quit => return Ok(None),
    };
    match text {
        Ok(text) => Ok(Some(text)),
        Err(fault) => Err(fault),
    }
}

// Carries out a line, and returns the text that it shows, or `None` if it is the end.
fn carry_out<N: Name, W: Write + Drop, R: Wait>(
    alloc: Global,
    gate: &mut AheadGate<'_, N, W, R>,
    pass: &mut Pass<N>,
    line: &[u8],
) -> Result<Option<String>, Fault>
    ensures { DoneLine N.start N.opening.own line.now gate.old gate.new }
{
    match read_command(alloc, line) {
        Ok(command) => obey(alloc, gate, pass, command),
        Err(fault) => Err(fault),
    }
}

// Carries out a line, and prints what it shows. Returns `false` if it is the end.
fn answer<N: Name, W: Write + Drop, R: Wait + Print>(
    rt: &R,
    alloc: Global,
    gate: &mut AheadGate<'_, N, W, R>,
    pass: &mut Pass<N>,
    line: &[u8],
) -> bool
    ensures { DoneLine N.start N.opening.own line.now gate.old gate.new }
{
    match carry_out(alloc, gate, pass, line) {
        Ok(Some(text)) => {
            let _ = print!(rt; "{text}");
            true
        }
        Ok(None) => false,
        Err(fault) => {
            let _ = println!(rt; "fault {fault}");
            true
        }
    }
}

// Returns the next line that a reader has, without its line feed, and an empty one in place of one that is too long: no
// part of that is done. `None` at the end, or if the reader fails.
fn next_line<I: BufRead>(alloc: Global, reader: &mut I) -> Option<Vec<u8>> {
    let mut line = Vec::new(alloc);
    match reader.by_ref().take(LINE_MOST).read_until(b'\n', &mut line) {
        Ok(count) if count > 0 => {}
        _ => return None,
    }
    if line.last() == Some(&b'\n') {
        let _feed = line.pop();
    } else if line.len() as u64 == LINE_MOST {
        let _rest = reader.skip_until(b'\n');
        line.clear();
    }
    Some(line)
}

// Carries out the lines that a reader has, until `quit`, the end or the node's end.
fn do_lines_at<N: Name, W: Write + Drop, R: Wait + Print, C, I: BufRead + Drop>(
    rt: &R,
    alloc: Global,
    site: &Site<N, W, C>,
    gate: &mut AheadGate<'_, N, W, R>,
    pass: &mut Pass<N>,
    reader: I,
)
    ensures { DoneLines N.start N.opening.own gate.old gate.new }
{
    let mut reader = reader;
    for _ in rt.forever() {
        let Some(line) = next_line(alloc, &mut reader) else {
            break;
        };
        if site.is_ending() || !answer(rt, alloc, gate, pass, &line) {
            break;
        }
    }
}

// Carries out the lines of standard input at a gate.
fn do_input<N: Name, W: Write + Drop, R: Wait + Input + Print, C>(
    rt: &R,
    alloc: Global,
    site: &Site<N, W, C>,
    gate: &mut AheadGate<'_, N, W, R>,
    pass: &mut Pass<N>,
)
    ensures { DoneLines N.start N.opening.own gate.old gate.new }
{
    let input = StandardInput {
        reader: rt.reader(),
        is_ending: &site.is_ending,
    };
    match BufReader::new(alloc, input) {
        Ok(reader) => do_lines_at(rt, alloc, site, gate, pass, reader),
        Err(_) => {
            let _ = println!(rt; "fault {}", Fault::OutOfMemory);
        }
    }
}

/// Carries out the lines of standard input, until `quit` or the end; then the node is to end.
pub(crate) fn do_lines<N: Name, W: Write + Drop, R: Wait + Input + Print, C>(
    rt: &R,
    alloc: Global,
    site: &Site<N, W, C>,
    seat: Seat<N>,
    pass: Pass<N>,
) -> Seat<N>
    ensures parts { result.parts ≡ seat.parts }
    ensures left { LeftByLines N.start N.opening.own seat result }
{
    let mut pass = pass;
    let mut gate = AheadGate::new(rt, &site.shared, seat);
    do_input(rt, alloc, site, &mut gate, &mut pass);
    site.end();
    gate.into_seat()
}

/// Reads standard input to its end; then the node is to end.
pub(crate) fn wait_for_end<N: Name, W: Write + Drop, R: Wait + Input, C>(
    rt: &R,
    site: &Site<N, W, C>,
) {
    let mut input = StandardInput {
        reader: rt.reader(),
        is_ending: &site.is_ending,
    };
    let mut piece = [0u8; 256];
    for _ in rt.forever() {
        match input.read(&mut piece) {
            Ok(count) if count > 0 => {}
            _ => break,
        }
    }
    site.end();
}
