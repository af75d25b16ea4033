//! The rules of the messages of an exchange: the tables and answers that they lead to.
//!
//! Each rule is a function from tables and messages to tables and messages. The rules are the SYN of a table, the
//! answer to a SYN, and the taking of an ACK and of an ACK2.
#![tactic(auto)]

mod answers;
mod taking;
mod walking;

pub use answers::{answer_syn, borrowed_answer, syn};
pub use cg_messages::{Ack, Ack2, BorrowedAck, Message, Outcome, Request, Syn};
pub use taking::{take_ack, take_ack2};
