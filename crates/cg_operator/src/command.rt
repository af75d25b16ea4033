//! The commands of an operator.

use cg_text::View;
use cg_types::{StateKey, StateText};

/// A command of the operator: the request of one line.
#[derive(Debug, Drop)]
pub enum OperatorCommand {
    /// `gossipinfo`, `ring`, `digests` or `replicas RF TEXT`: shows something.
    Show(View),
    /// `set KEY TEXT`: sets a key of the node.
    Set { key: StateKey, text: StateText },
    /// `remove KEY`: removes the text of a key of the node.
    Remove { key: StateKey },
    /// `quit`: ends the reading of lines.
    Quit,
}
