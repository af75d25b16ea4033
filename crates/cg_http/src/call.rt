//! Calls, and the resources at which they are made.

ghost use Rattle.std.specs.Prelude.{◌≡◌, bytes_eq, ◌||◌};
ghost use Rattle.cg_http.specs.Calls as spec;

use cg_text::{View, is_word};
use cg_tokens::Token;
use cg_types::{StateKey, StateText};

/// A resource, which a path names.
#[derive(Clone, Copy, Debug)]
pub(crate) enum Resource {
    /// `/`
    Page,
    /// `/status`
    Status,
    /// `/gossipinfo`, `/ring`, `/digests`
    Printed(View),
    /// `/replicas`
    Replicas,
    /// `/metrics`
    Metrics,
    /// `/health`
    Health,
    /// `/states/KEY`, by the key's number or its name
    State(StateKey),
    /// `/stop`
    Stop,
}

/// The methods of a resource.
#[derive(Clone, Copy, Debug, PartialEq, Eq)]
pub enum Methods {
    /// `GET` and `HEAD`
    Read,
    /// `PUT` and `DELETE`
    Change,
    /// `POST`
    Post,
}

/// A call: what a request asks for.
#[derive(Debug, Drop)]
pub enum Call {
    /// The page.
    Page,
    /// The status as JSON.
    Status,
    /// A view of the table, as plain text.
    Printed(View),
    /// The endpoints that keep the keys of this token, at most `rf` of them, as a list in JSON.
    ReplicaList { token: Token, rf: u64 },
    /// The metrics.
    Metrics,
    /// The health: if rounds go on.
    Health,
    /// Sets a key of the node.
    Set { key: StateKey, text: StateText },
    /// Removes the text of a key of the node.
    Remove { key: StateKey },
    /// Stops the node.
    Stop,
}

impl Resource {
    /// The methods of this resource.
    pub(crate) fn methods(&self) -> Methods
        ensures { result ≡ spec.methods_of self.now }
    {
        match *self {
            Resource::State(_) => Methods::Change,
            Resource::Stop => Methods::Post,
            _ => Methods::Read,
        }
    }
}

impl Methods {
    /// Returns `true` if the method is one of these.
    #[tactic(auto, unfolding(crate::specs::Calls::has_method))]
    pub(crate) fn has(self, method: &[u8]) -> bool
        ensures { result ≡ spec.has_method self method.now }
    {
        match self {
            Methods::Read => is_word(method, "GET") || is_word(method, "HEAD"),
            Methods::Change => is_word(method, "PUT") || is_word(method, "DELETE"),
            Methods::Post => is_word(method, "POST"),
        }
    }

    /// Returns `true` if these change something.
    pub(crate) fn are_writes(self) -> bool
        ensures { result ≡ spec.are_writes self }
    {
        match self {
            Methods::Read => false,
            Methods::Change | Methods::Post => true,
        }
    }

    /// The methods, as the header `allow` has them.
    #[tactic(auto, unfolding(crate::specs::Calls::allow_text))]
    pub fn allow(self) -> &'static str
        ensures { result.now ≡ spec.allow_text self }
    {
        match self {
            Methods::Read => "GET, HEAD",
            Methods::Change => "PUT, DELETE",
            Methods::Post => "POST",
        }
    }
}
