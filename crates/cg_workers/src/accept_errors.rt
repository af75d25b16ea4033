//! Errors after which accepting goes on.

ghost use Rattle.std.specs.Prelude.{◌≡◌};
ghost use Rattle.std.specs.IoError.{raw_os_error};
ghost use Rattle.cg_workers.specs.AcceptErrors.{is_passing};

use std::io::Error;

// Linux's numbers of the errors that are of one connection, or of the moment.
const PASSING: [i32; 16] = [
    1, // EPERM, by a firewall
    4, // EINTR
    12, // ENOMEM
    23, // ENFILE
    24, // EMFILE
    64, // ENONET, as the next ones pending on the connection
    71, // EPROTO
    92, // ENOPROTOOPT
    95, // EOPNOTSUPP
    100, // ENETDOWN
    101, // ENETUNREACH
    103, // ECONNABORTED
    104, // ECONNRESET
    105, // ENOBUFS
    112, // EHOSTDOWN
    113, // EHOSTUNREACH
];

/// Tests whether an error of accepting is of one connection, or of the moment, so that the next one may be taken.
pub(crate) fn is_passing_error(error: &Error) -> bool
    ensures { result ≡ is_passing (raw_os_error error.now) }
{
    match error.raw_os_error() {
        Some(code) => PASSING.contains(&code),
        None => false,
    }
}
