//! The work of a node: it answers connections that come, begins rounds and sends them, by a clock and over TCP.
//!
//! The receiver and the sender work over any gate, any listener, any dialer and any clock, and neither ends for the
//! fault of one exchange. A link that waits forever makes its worker wait, so a listener and a dialer have to bound their
//! links, as those over TCP do. A ticker has a node tick through an `Enter`, and puts the round of each tick into the
//! channel that the sender takes from. The rounds taken out of the channel are a prefix of those put in: whole rounds,
//! each once, in their order.
//!
//! A socket's limit is for one call, so a peer that sends a byte now and then could hold a connection for ever. So each
//! call of a connection has the time that is left until its end, and a call after the end fails. Of a connection that
//! came, reads end sooner until the first byte has come.
#![tactic(auto)]

mod accept_errors;
mod breaking;
mod clock;
mod connection_lines;
mod dialing;
mod ends;
mod host;
/// Laws of the words, of the room for rounds, of a ticker's turns, and of a connection's limits.
pub mod laws;
mod limits;
mod links;
mod listening;
mod making;
mod passing;
mod putting;
mod receiving;
mod round;
mod rule;
mod sending;
mod side;
mod taking;
mod ticked;
mod ticking;
mod traffic;
mod turns;
mod words;

pub use clock::Milliseconds;
pub use dialing::Dialer;
pub use ends::{Putting, Taken, Taking};
pub use host::{HostClock, seconds_since_1970};
pub use limits::{
    ACCEPT_PAUSE, CALL_TRIES, LEAST_LIMIT, LINE_PAUSE, RESPOND_LIMIT, answer_limit,
    first_byte_limit, limit_for,
};
pub use links::{Dial, Listen};
pub use listening::Listener;
pub use making::{ROOM, rounds};
pub use receiving::{answer_next, receiver};
pub use round::Round;
pub use sending::{ROUNDS_AT_ONCE, reach, sender};
pub use side::Side;
pub use ticked::{Stop, Ticked};
pub use ticking::ticker;
pub use traffic::Traffic;
pub use turns::Turns;
pub use words::{generator, next_words};
