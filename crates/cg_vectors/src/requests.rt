//! Vectors of requests to `answer`, each on one line, and of their answers.

use crate::files::add_status;
use cg_links::Counted;
use cg_tool::answer;
use cg_types::Fault;
use percent_encoding::percent_decode;
use std::alloc::Global;

// Reads the bytes that a text spells: a percent sign and two digits are one of them, and `-` alone is none.
fn request_in(alloc: Global, given: &str) -> Result<Vec<u8>, Fault> {
    let mut request = Vec::new(alloc);
    if given != "-" {
        percent_decode(given.as_bytes()).append_to(&mut request)?;
    }
    Ok(request)
}

/// Answers the request that a text spells, with a line more if the status is not 0 after an ACK or not 1 after a fault.
pub fn answer_text(alloc: Global, given: &str) -> Result<Vec<u8>, Fault> {
    let request = request_in(alloc, given)?;
    let mut reader = Counted::new(request.as_slice());
    let mut writer = Counted::new(Vec::new(alloc));
    let status = answer(alloc, &mut reader, &mut writer);
    let mut text = writer.into_link();
    let due = if text.as_slice().starts_with(b"fault ") {
        1
    } else {
        0
    };
    add_status(&mut text, status, due)?;
    Ok(text)
}
