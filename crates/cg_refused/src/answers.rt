//! The answers of calls, and their short texts.

use cg_core::Reply;
use cg_history::Receipt;
use cg_messages::Outcome;
use cg_types::{Endpoint, Fault};
use cg_world::Shown;
use std::alloc::{AllocError, Global};
use std::fmt::Write;

/// The answer of a call.
#[derive(Debug, Drop)]
pub(crate) enum Answer {
    /// Nothing but that it is done.
    Done,
    /// The reply of a node.
    Replied(Reply),
    /// The outcome of an action.
    Acted(Shown),
    /// The outcomes of a run of actions.
    Ran(Vec<Result<Shown, Fault>>),
    /// The receipt of a record.
    Recorded(Receipt),
    /// An event was entered; and whether it was told.
    Entered { is_told: bool },
}

fn add_peers(text: &mut String, peers: &[Endpoint]) -> Result<(), AllocError> {
    text.push_str("round")?;
    for peer in peers {
        write!(text, " {peer}")?;
    }
    Ok(())
}

fn add_outcomes(text: &mut String, outcomes: &[Outcome]) -> Result<(), AllocError> {
    for place in 0..outcomes.len() {
        if place > 0 {
            text.push_str(", ")?;
        }
        let Outcome { endpoint, took } = outcomes[place];
        let took = took.name();
        write!(text, "{took} {endpoint}")?;
    }
    Ok(())
}

fn add_reply(text: &mut String, reply: &Reply) -> Result<(), AllocError> {
    match reply {
        Reply::Done(version) => {
            let version = version.get();
            write!(text, "version {version}")
        }
        Reply::Round { peers, .. } => add_peers(text, peers.endpoints()),
        Reply::Sent(message) => text.push_str(message.kind().name()),
        Reply::Both { outcomes, .. } => {
            add_outcomes(text, outcomes.as_slice())?;
            text.push_str(", ack2")
        }
        Reply::Took(outcomes) => add_outcomes(text, outcomes.as_slice()),
    }
}

fn add_shown(text: &mut String, shown: &Shown) -> Result<(), AllocError> {
    match &shown.reply {
        Some(reply) => add_reply(text, reply)?,
        None => text.push_str("started")?,
    }
    match shown.sent {
        Some(number) => write!(text, ", message {number}"),
        None => Ok(()),
    }
}

fn add_answers(text: &mut String, answers: &[Result<Shown, Fault>]) -> Result<(), AllocError> {
    for place in 0..answers.len() {
        if place > 0 {
            text.push_str("; ")?;
        }
        match &answers[place] {
            Ok(shown) => add_shown(text, shown)?,
            Err(fault) => write!(text, "{fault}")?,
        }
    }
    Ok(())
}

impl Answer {
    /// Returns a line with the parts of the answer that tell most.
    pub(crate) fn short(&self, alloc: Global) -> Result<String, AllocError> {
        let mut text = String::new(alloc);
        match self {
            Answer::Done => text.push_str("done")?,
            Answer::Replied(reply) => add_reply(&mut text, reply)?,
            Answer::Acted(shown) => add_shown(&mut text, shown)?,
            Answer::Ran(answers) => add_answers(&mut text, answers)?,
            Answer::Recorded(receipt) => {
                let number = receipt.number;
                write!(text, "record {number}, ")?;
                add_reply(&mut text, &receipt.reply)?
            }
            Answer::Entered { is_told: true } => text.push_str("told")?,
            Answer::Entered { is_told: false } => text.push_str("not told")?,
        }
        Ok(text)
    }
}
