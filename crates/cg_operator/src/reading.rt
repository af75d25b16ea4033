//! Reading a line of the operator.

ghost use Rattle.std.specs.Prelude.{◌≡◌};
ghost use Rattle.cg_text.specs.Gives.{Gives};
ghost use Rattle.cg_operator.specs.Commands as spec;

use crate::command::OperatorCommand;
use cg_text::{View, count_before, is_word, key_before, state_text_in, text_in};
use cg_tokens::token_of;
use cg_types::{Fault, StateKey, cut};
use std::alloc::Global;

#[tactic(auto, unfolding(crate::specs::Commands::replicas_line))]
fn replicas_line(words: &[u8]) -> Option<OperatorCommand>
    ensures { result ≡ spec.replicas_line words.now }
{
    let (rf, rest) = count_before(words)?;
    let text = text_in(rest)?;
    let token = token_of(text.as_bytes());
    Some(OperatorCommand::Show(View::Replicas { token, rf }))
}

#[tactic(auto, unfolding(crate::specs::Commands::set_line))]
fn set_line(alloc: Global, words: &[u8]) -> Result<OperatorCommand, Fault>
    ensures { Gives (λ o. o) result (spec.set_line words.now) }
{
    let Some((key, text)) = key_before(words) else {
        return Err(Fault::BadText);
    };
    match state_text_in(alloc, text) {
        Ok(text) => Ok(OperatorCommand::Set { key, text }),
        Err(fault) => Err(fault),
    }
}

#[tactic(auto, unfolding(crate::specs::Commands::remove_line))]
fn remove_line(words: &[u8]) -> Option<OperatorCommand>
    ensures { result ≡ spec.remove_line words.now }
{
    let key = StateKey::from_bytes(words)?;
    Some(OperatorCommand::Remove { key })
}

// Reads the command of a line of one word.
#[tactic(auto, unfolding(crate::specs::Commands::bare_command))]
fn bare_command(word: &[u8]) -> Option<OperatorCommand>
    ensures { result ≡ spec.bare_command word.now }
{
    if is_word(word, "gossipinfo") {
        return Some(OperatorCommand::Show(View::Gossipinfo));
    }
    if is_word(word, "ring") {
        return Some(OperatorCommand::Show(View::Ring));
    }
    if is_word(word, "digests") {
        return Some(OperatorCommand::Show(View::Digests));
    }
    if is_word(word, "quit") {
        return Some(OperatorCommand::Quit);
    }
    None
}

// Returns the command of a line that takes no memory, or `BadText` if there is none.
fn or_unreadable(command: Option<OperatorCommand>) -> Result<OperatorCommand, Fault>
    ensures { result ≡ spec.or_unreadable command }
{
    match command {
        Some(command) => Ok(command),
        None => Err(Fault::BadText),
    }
}

// Reads the command of a line of more words: its first word, and the words after it.
#[tactic(auto, unfolding(crate::specs::Commands::command_behind))]
fn command_behind(alloc: Global, word: &[u8], words: &[u8]) -> Result<OperatorCommand, Fault>
    ensures { Gives (λ o. o) result (spec.command_behind word.now words.now) }
{
    if is_word(word, "replicas") {
        return or_unreadable(replicas_line(words));
    }
    if is_word(word, "set") {
        return set_line(alloc, words);
    }
    if is_word(word, "remove") {
        return or_unreadable(remove_line(words));
    }
    Err(Fault::BadText)
}

/// Reads a line of the operator, without its line feed: `gossipinfo`, `ring`, `digests`, `replicas RF TEXT`,
/// `set KEY TEXT`, `remove KEY` or `quit`. RF is 0 to 2^64 - 1, KEY 1 to 16, TEXT the rest of the line, which may be empty.
///
/// `TooLong` and `BadText` if only the text of a `set` is refused: over 4,096 bytes, or with control characters.
/// `BadText` if anything else can't be read, such as another word, a word too few or too many, or a text that is not
/// UTF-8. `OutOfMemory` if the text finds no memory.
#[tactic(auto, unfolding(crate::specs::Commands::command_in))]
pub fn read_command(alloc: Global, line: &[u8]) -> Result<OperatorCommand, Fault>
    ensures { Gives (λ o. o) result (spec.command_in line.now) }
{
    match cut(line, b' ') {
        Some((word, words)) => command_behind(alloc, word, words),
        None => or_unreadable(bare_command(line)),
    }
}
