//! Requests over HTTP: the call that a request asks for, or why it is refused. No socket and no thread is used here.
//!
//! A target is a path and a query. The path is percent-decoded, and names what is read or changed. Only a call that
//! changes something looks at marks: it has to be allowed, to carry the header `x-cg-write: 1`, and to be sent to an
//! address or to `localhost`. So a page that a browser has from elsewhere can't make it.
#![tactic(auto)]

mod asking;
mod call;
mod paths;
mod queries;
mod refusal;
mod request;
mod writes;

pub use asking::{BODY_LIMIT, call_of};
pub use call::{Call, Methods};
pub use refusal::Refusal;
pub use request::Request;
