//! Tokens of keys, the texts that endpoints have of theirs, and the ring of a table's tokens with replicas on it.
//!
//! A key's token is that of Apache Cassandra's `RandomPartitioner`, over MD5 (RFC 1321). The empty key is hashed like any
//! other. The replicas of a token are those of its `SimpleStrategy`.
#![tactic(auto)]

mod claims;
/// Laws of limits, rings and claims.
pub mod laws;
mod limits;
mod ring;
mod text;
mod token;

pub use claims::keeps_claims;
pub use limits::{TOKEN_COUNT_LIMIT, TOKEN_DIGITS, TOKEN_LIMIT};
pub use ring::Ring;
pub use text::{first_piece, read_tokens, tokens_in};
pub use token::{Token, token_of};
