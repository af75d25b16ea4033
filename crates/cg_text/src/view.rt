//! A view of a node.

use cg_tokens::Token;

/// A view of a node, which a line shows.
#[derive(Clone, Copy, Debug, PartialEq, Eq)]
pub enum View {
    /// The entry that the node holds of each endpoint.
    Gossipinfo,
    /// The positions of its ring.
    Ring,
    /// The generation and the newest version that the node holds of each endpoint.
    Digests,
    /// The endpoints that keep the keys of this token, at most `rf` of them.
    Replicas { token: Token, rf: u64 },
}
