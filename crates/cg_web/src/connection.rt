//! One connection, from its bytes to its answers.

ghost use Rattle.std.specs.Prelude.{◌≡◌};
ghost use Rattle.cg_web.specs.Requests.{DoneRequests, Speaks};

use crate::limits::LIMITS;
use crate::watch::Watch;
use crate::web::Web;
use cg_locked::Name;
use http_server::{Connection, serve};
use std::hash::RandomState;
use std::io::{self, Read, Write};
use std::sync::Wait;

/// Answers the requests of a connection, until it is done or fails. The keys are those of the maps of headers, whose
/// names the peer chooses.
pub fn answer_connection<N: Name, W: Write + Drop, R: Wait, S: Watch + Drop, I: Read, O: Write>(
    web: &mut Web<'_, N, W, R, S>,
    keys: RandomState,
    reader: &mut I,
    writer: &mut O,
) -> io::Result<()>
    // Keys were changed by events of these requests alone.
    ensures requests { DoneRequests N.start N.opening.own web.old.gate web.new.gate }
    ensures parts { web.new.gate.seat.parts ≡ web.old.gate.seat.parts }
    // The bytes that were written answer the bytes that were read.
    ensures spoken { Speaks N.start N.opening result (I.remaining reader.old) (I.remaining reader.new)
        (O.contents writer.old) (O.contents writer.new) web.old web.new }
{
    let mut connection = Connection::new(web.alloc(), keys, LIMITS);
    serve(&mut connection, web, reader, writer)
}
