//! The use of standard input.

ghost use Rattle.std.specs.Prelude.{◌≡◌, IfSome};
ghost use Rattle.cg_agent.specs.Seats.{parts_if, parts_read, LeftByReading};

use crate::lines::{do_lines, wait_for_end};
use crate::site::Site;
use cg_locked::{Name, Seat};
use cg_views::Pass;
use std::alloc::Global;
use std::io::{Input, Print, Write};
use std::sync::Wait;

/// The use of standard input: none, its end, or an operator's lines, from a seat and with a pass.
#[derive(Drop)]
pub(crate) enum Reading<N: Name> {
    Nothing,
    End,
    Lines(Seat<N>, Pass<N>),
}

/// Uses standard input, and returns the seat, if there is one. At its end the node is to end.
pub(crate) fn read_input<N: Name, W: Write + Drop, R: Wait + Input + Print, C>(
    rt: &R,
    alloc: Global,
    site: &Site<N, W, C>,
    reading: Reading<N>,
) -> Option<Seat<N>>
    ensures parts { parts_if result ≡ parts_read reading }
    ensures left { IfSome result (LeftByReading N.start N.opening.own reading) }
{
    match reading {
        Reading::Nothing => None,
        Reading::End => {
            wait_for_end(rt, site);
            None
        }
        Reading::Lines(seat, pass) => Some(do_lines(rt, alloc, site, seat, pass)),
    }
}
