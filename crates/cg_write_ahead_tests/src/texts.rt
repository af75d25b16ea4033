//! Journals that were written ahead, against the text of the same history.

use crate::boards::{event_of, new_history, what_is_left};
use cg_history::History;
use cg_journal::write_journal;
use cg_links::Counted;
use cg_testing::expect_eq;
use std::alloc::Global;
use std::test::Fail;

// The text of a history that does the events of all letters.
fn text_of(alloc: Global, letters: &[u8]) -> Result<Vec<u8>, Fail> {
    let mut history: History = new_history(alloc)?;
    for letter in letters {
        let _receipt = history.apply(alloc, 1, event_of(alloc, *letter)?)?;
    }
    let mut sink = Counted::new(Vec::new(alloc));
    write_journal(alloc, &history, &mut sink)?;
    Ok(sink.into_link())
}

#[test]
fn each_record_has_its_line(rt: HostRuntime) -> Result<(), Fail> {
    let alloc = rt.alloc();
    let done = what_is_left(&rt, alloc, 0, 10, b"bsob")?;
    let text = text_of(alloc, b"bsob")?;
    expect_eq!(
        (
            done.answers.as_slice(),
            done.counted,
            done.torn,
            done.text == text
        ),
        (&[0u8, 0, 0, 0][..], 4, false, true)
    )
}

#[test]
fn a_life_without_records_has_its_first_line(rt: HostRuntime) -> Result<(), Fail> {
    let alloc = rt.alloc();
    let done = what_is_left(&rt, alloc, 0, 10, b"")?;
    expect_eq!(
        done.text.as_slice(),
        &b"life 10.0.0.1:7000 9 1000 2000 60000 18421 - c1\n"[..]
    )
}

#[test]
fn a_refused_event_has_no_line(rt: HostRuntime) -> Result<(), Fail> {
    let alloc = rt.alloc();
    let done = what_is_left(&rt, alloc, 0, 10, b"brs")?;
    let text = text_of(alloc, b"bs")?;
    expect_eq!(
        (done.counted, done.torn, done.text == text),
        (2, false, true)
    )
}
