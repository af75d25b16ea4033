//! The limits of a connection.

use cg_http::BODY_LIMIT;
use http_server::Config;
use http1::Limits;

/// The most bytes of a head, of the extensions of all chunks of a body, and of the trailers behind it.
const HEAD_LIMIT: usize = 16384;

/// While more bytes than this wait to be sent, no request is read.
const PENDING_LIMIT: usize = 65536;

/// The least room that a read is given.
const READ_SIZE: usize = 4096;

/// The limits of a connection.
pub(crate) const LIMITS: Config = Config {
    limits: Limits {
        max_head_len: HEAD_LIMIT,
        max_extensions_len: HEAD_LIMIT,
        max_trailers_len: HEAD_LIMIT,
    },
    max_body_len: BODY_LIMIT,
    max_pending: PENDING_LIMIT,
    read_size: READ_SIZE,
};
