//! The answers to the lines of the operator.

ghost use Rattle.std.specs.Prelude.{ℕ, ◌≡◌, ◌⊎◌, List, Some, None, Ok, Err, IfOk, IfErr, OnErr, MatchResult, option_map, string_bytes};
ghost use Rattle.cg_types.specs.declared.fault.Fault.TheVariants as faults;
ghost use Rattle.cg_table.specs.Puts.{with_puts};
ghost use Rattle.cg_core.specs.declared.reply.Reply.{Reply as ReplyValue};
ghost use Rattle.cg_core.specs.declared.reply.Reply.TheVariants as replies;
ghost use Rattle.cg_core.specs.Replies.{IsDone, IsReplyTo};
ghost use Rattle.cg_views.specs.Lists.{StartsWith};
ghost use Rattle.cg_locked.specs.Seats.{last_reply};
ghost use Rattle.cg_operator.specs.Shown.{table_lines};
ghost use Rattle.cg_operator.specs.Commands.{command_in};
ghost use Rattle.cg_operator.specs.Doing.{TellsChange, Changes, ChangeRunsOut, AnswersLine, Unanswered};

use crate::command::OperatorCommand;
use crate::reading::read_command;
use crate::shown::{add_unpublished, table_text};
use cg_core::{Event, Reply};
use cg_engine::Gate;
use cg_locked::{Name, SeatGate};
use cg_text::{View, add_version};
use cg_types::{Fault, Version};
use cg_views::{Pass, Told};
use std::alloc::{AllocError, Global};
use std::sync::Wait;

// Returns a view of the table that a pass reads, as text.
fn show<N: Name>(alloc: Global, pass: &mut Pass<N>, view: View) -> Result<String, Fault>
    ensures later { StartsWith pass.new pass.old }
    ensures text { IfOk result (λ text. string_bytes text ≡ table_lines (with_puts N.opening pass.new) view) }
    ensures gone { (result ≡ Err faults.NoSuchNode) → pass.new ≡ pass.old }
    ensures err { IfErr result (λ f. (f ≡ faults.NoSuchNode) ⊎ (f ≡ faults.OutOfMemory)) }
{
    let snapshot = match pass.read() {
        Ok(snapshot) => snapshot,
        Err(fault) => return Err(fault),
    };
    match table_text(alloc, snapshot.table(), view) {
        Ok(text) => Ok(text),
        Err(_) => Err(Fault::OutOfMemory),
    }
}

// Returns the answer to a change of a key, once the pass has learnt the `Told` of the change.
fn tell_change<N: Name>(
    alloc: Global,
    pass: &mut Pass<N>,
    told: Option<Told<N>>,
    version: Version,
) -> Result<String, AllocError>
    ensures later { StartsWith pass.new pass.old }
    ensures text { IfOk result (λ text. TellsChange version told pass.old pass.new (string_bytes text)) }
    ensures err { OnErr result ((text : List ℕ) × TellsChange version told pass.old pass.new text) }
{
    let mut text = String::new(alloc);
    match told {
        Some(told) => {
            pass.learn(told);
            add_version(&mut text, version)?;
        }
        None => add_unpublished(&mut text, version)?,
    }
    Ok(text)
}

// Returns the version that the last event, a change, was given.
fn version_of<N: Name, R: Wait>(gate: &SeatGate<'_, N, R>) -> Version
    requires { (version : ℕ) × (last_reply gate.now.receipts ≡ Some (replies.Done version)) }
    ensures { last_reply gate.now.receipts ≡ Some (replies.Done result) }
{
    match gate.reply() {
        Some(reply) => match reply {
            Reply::Done(version) => *version,
            _ => unreachable!(),
        },
        None => unreachable!(),
    }
}

// Changes a key by an event, a Set or a Remove, and returns the answer.
fn change<N: Name, R: Wait>(
    alloc: Global,
    gate: &mut SeatGate<'_, N, R>,
    pass: &mut Pass<N>,
    event: Event,
) -> Result<String, Fault>
    requires { (reply : ReplyValue) → IsReplyTo event reply → IsDone reply }
    ensures { MatchResult result
        (λ shown. Changes N.start N.opening.own event gate.old pass.old (string_bytes shown) gate.new pass.new)
        (λ f. (f ≡ faults.OutOfMemory)
        × ChangeRunsOut N.start N.opening.own event gate.old pass.old gate.new pass.new) }
{
    match gate.event(alloc, event) {
        Ok(()) => {
            let version = version_of(gate);
            let told = gate.told();
            match tell_change(alloc, pass, told, version) {
                Ok(shown) => Ok(shown),
                Err(_) => Err(Fault::OutOfMemory),
            }
        }
        Err(Fault::OutOfMemory) => Err(Fault::OutOfMemory),
        Err(fault) => Ok(fault.line(alloc)?),
    }
}

// Carries out a command, and returns the text that it shows, or `None` if it is the end.
fn obey<N: Name, R: Wait>(
    alloc: Global,
    gate: &mut SeatGate<'_, N, R>,
    pass: &mut Pass<N>,
    command: OperatorCommand,
) -> Result<Option<String>, Fault>
    ensures { MatchResult result
        (λ text. AnswersLine N.start N.opening (Ok command) gate.old pass.old
        (option_map string_bytes text) gate.new pass.new)
        (λ f. Unanswered N.start N.opening (Ok command) gate.old pass.old gate.new pass.new f) }
{
    match command {
        OperatorCommand::Show(view) => match show(alloc, pass, view) {
            Ok(text) => Ok(Some(text)),
            Err(fault) => Err(fault),
        },
        OperatorCommand::Set { key, text } => {
            match change(alloc, gate, pass, Event::Set { key, text }) {
                Ok(text) => Ok(Some(text)),
                Err(fault) => Err(fault),
            }
        }
        OperatorCommand::Remove { key } => {
            match change(alloc, gate, pass, Event::Remove { key }) {
                Ok(text) => Ok(Some(text)),
                Err(fault) => Err(fault),
            }
        }
        OperatorCommand::Quit => Ok(None),
    }
}

/// Carries out the command in a line, and returns the text that it shows, or `None` if it is the end.
pub(crate) fn answer<N: Name, R: Wait>(
    alloc: Global,
    gate: &mut SeatGate<'_, N, R>,
    pass: &mut Pass<N>,
    line: &[u8],
) -> Result<Option<String>, Fault>
    ensures { MatchResult result
        (λ text. AnswersLine N.start N.opening (command_in line.now) gate.old pass.old
        (option_map string_bytes text) gate.new pass.new)
        (λ f. Unanswered N.start N.opening (command_in line.now) gate.old pass.old gate.new pass.new f) }
{
    match read_command(alloc, line) {
        Ok(command) => obey(alloc, gate, pass, command),
        Err(Fault::OutOfMemory) => Err(Fault::OutOfMemory),
        Err(fault) => Ok(Some(fault.line(alloc)?)),
    }
}
