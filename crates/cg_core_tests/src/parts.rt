//! Parts of a node by themselves: windows, and the choice of a round's peers.

use cg_core::choose_peers;
use cg_entry::Took;
use cg_messages::Outcome;
use cg_silence::{Silence, Verdict, Windows, any_taken, was_taken};
use cg_testing::{B, C, endpoint, expect, expect_eq};
use std::alloc::Global;
use std::test::Fail;

fn outcome(took: Took) -> Outcome {
    Outcome {
        endpoint: endpoint(B),
        took,
    }
}

fn is_taken(took: Took) -> bool {
    was_taken(&outcome(took))
}

#[test]
fn taken_deltas_alone_are_taken(_rt: HostRuntime) -> Result<(), Fail> {
    let taken = (is_taken(Took::Taken), is_taken(Took::Old));
    let others = (is_taken(Took::Gap), is_taken(Took::Own));
    expect_eq!((taken, others), ((true, false), (false, false)))?;
    let some = [outcome(Took::Old), outcome(Took::Taken)];
    let none = [outcome(Took::Old), outcome(Took::Gap)];
    expect_eq!((any_taken(&some), any_taken(&none)), (true, false))
}

// What windows say of an endpoint: its last arrival, and the verdict at a time.
type Said = (Option<u64>, Verdict);

// What is said of B's window, and of C, which has none, after one outcome of B at time 0.
fn said(alloc: Global, took: Took, now: u64) -> Result<(Said, Said), Fail> {
    let none = Windows::none(alloc, Silence::default());
    let windows = none.after(alloc, &[outcome(took)], 0)?;
    let (b, c) = (endpoint(B), endpoint(C));
    Ok((
        (windows.last_arrival(b), windows.verdict(b, now)),
        (windows.last_arrival(c), windows.verdict(c, now)),
    ))
}

#[test]
fn a_taken_delta_is_an_arrival(rt: HostRuntime) -> Result<(), Fail> {
    for (took, now, due) in [
        (Took::Taken, 1, (Some(0), Verdict::Alive)),
        (Took::Taken, 50001, (Some(0), Verdict::Silent)),
        (Took::Gap, 1, (None, Verdict::Unheard)),
    ] {
        let said = said(rt.alloc(), took, now)?;
        expect_eq!(said, (due, (None, Verdict::Unheard)))?;
    }
    Ok(())
}

// Tests whether these words choose B and C, if B is live, C is silent and C is the only seed; or B alone without seeds.
fn are_chosen(alloc: Global, words: [u64; 4]) -> Result<bool, Fail> {
    let (live, silent) = ([endpoint(B)], [endpoint(C)]);
    let both = choose_peers(alloc, &live, &silent, &silent, &words)?;
    let one = choose_peers(alloc, &live, &[], &[], &words)?;
    Ok(both.as_slice() == &[live[0], silent[0]][..] && one.as_slice() == &live[..])
}

#[test]
fn words_choose_peers(rt: HostRuntime) -> Result<(), Fail> {
    for words in [[7, 3, 5, 9], [7, 2, 5, 9]] {
        expect!(are_chosen(rt.alloc(), words)?)?;
    }
    Ok(())
}
