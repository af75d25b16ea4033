//! The texts of actions, and of views of nodes.

ghost use Rattle.std.specs.Prelude.{◌≡◌, ◌++◌, OnOk, string_bytes, option_map};
ghost use Rattle.cg_places.specs.Step.{message_of};
ghost use Rattle.cg_messages.specs.Kind.{kind_of};
ghost use Rattle.cg_sim.specs.Script.{reply_lines, sent_lines, answer_lines, shown_lines, node_lines};

use cg_core::{Node, Reply};
use cg_messages::Kind;
use cg_text::{
    View, add_digests, add_gossipinfo, add_message, add_outcomes, add_replicas, add_ring,
    add_round, add_started, add_version,
};
use cg_world::{Action, Shown};
use std::alloc::{AllocError, Global};

// Adds the text of a node's answer, except for the message that it sends.
fn add_reply(text: &mut String, reply: &Reply) -> Result<(), AllocError>
    ensures { OnOk result (string_bytes text.new ≡ string_bytes text.old ++ reply_lines reply.now) }
{
    match reply {
        Reply::Done(version) => add_version(text, *version),
        Reply::Round { peers, .. } => add_round(text, peers.endpoints()),
        Reply::Sent(_) => Ok(()),
        Reply::Both { outcomes, .. } => add_outcomes(text, outcomes.as_slice()),
        Reply::Took(outcomes) => add_outcomes(text, outcomes.as_slice()),
    }
}

// Returns the kind of the message that a reply sends, if it sends one.
fn sent_kind(reply: &Reply) -> Option<Kind>
    ensures { result ≡ option_map kind_of (message_of reply.now) }
{
    match reply {
        Reply::Done(_) | Reply::Took(_) => None,
        Reply::Round { .. } => Some(Kind::Syn),
        Reply::Sent(message) => Some(message.kind()),
        Reply::Both { .. } => Some(Kind::Ack2),
    }
}

// Adds the number and the kind of the message that was sent, if one was.
fn add_sent(text: &mut String, reply: &Reply, sent: Option<u64>) -> Result<(), AllocError>
    ensures { OnOk result (string_bytes text.new ≡ string_bytes text.old ++ sent_lines sent (message_of reply.now)) }
{
    let Some(number) = sent else {
        return Ok(());
    };
    let Some(kind) = sent_kind(reply) else {
        return Ok(());
    };
    add_message(text, number, kind)
}

fn add_answer(text: &mut String, shown: &Shown) -> Result<(), AllocError>
    ensures { OnOk result (string_bytes text.new
        ≡ string_bytes text.old ++ answer_lines shown.now.reply shown.now.sent) }
{
    let Some(reply) = &shown.reply else {
        return Ok(());
    };
    add_reply(text, reply)?;
    add_sent(text, reply, shown.sent)
}

/// Adds the text of an action that is done.
pub(crate) fn add_shown(text: &mut String, action: &Action, shown: &Shown) -> Result<(), AllocError>
    ensures { OnOk result (string_bytes text.new ≡ string_bytes text.old ++ shown_lines action.now shown.now) }
{
    match action {
        Action::Start(node, generation) => add_started(text, *node, *generation),
        Action::Local(_, _) => add_answer(text, shown),
        Action::Deliver { .. } => add_answer(text, shown),
    }
}

/// Adds the text of a view of a node.
pub(crate) fn add_view(
    alloc: Global,
    text: &mut String,
    node: &Node,
    view: View,
) -> Result<(), AllocError>
    ensures { OnOk result (string_bytes text.new ≡ string_bytes text.old ++ node_lines node.now view) }
{
    match view {
        View::Gossipinfo => add_gossipinfo(text, node.table()),
        View::Ring => add_ring(text, node.ring()),
        View::Digests => add_digests(text, node.table()),
        View::Replicas { token, rf } => {
            add_replicas(alloc, text, node.ring(), token, rf as usize)
        }
    }
}
