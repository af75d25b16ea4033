//! Journals that are read, and written again.
//!
//! A is 10.0.0.1:7000 at generation 9 and B 10.0.0.2:7000 at generation 5, of cluster c1. A opens; B answers the SYN; A
//! takes the ACK and B the ACK2.

use crate::audited::{A, A_2, A_3, B, B_2, B_3};
use crate::samples::{applied, history_in};
use cg_core::Event;
use cg_history::History;
use cg_journal::{every_event_fits, every_history_fits, write_journal};
use cg_links::Counted;
use cg_testing::expect_eq;
use std::alloc::Global;
use std::test::Fail;

// The numbers of a history: its node's generation, the number of owners that it holds, the newest version at the start,
// the number of records, and `true` if all callers are 0.
type Told = (u32, usize, u32, usize, bool);

fn told(history: &History) -> Told {
    let node = history.node().table();
    let base = history.base().table();
    let records = history.records();
    every_history_fits(history);
    for record in records {
        every_event_fits(&record.event);
    }
    (
        node.own_entry().generation().get(),
        node.owners().len(),
        base.own_entry().newest().get(),
        records.len(),
        records.iter().all(|record| record.caller == 0),
    )
}

// The history in a text; if it is to go on, after caller 7 made it beat.
fn history_of(alloc: Global, text: &str, goes_on: bool) -> Result<History, Fail> {
    let mut history = history_in(alloc, text.as_bytes())?;
    if goes_on {
        applied(alloc, &mut history, 7, Event::Beat)?;
    }
    Ok(history)
}

// The journal of a history.
fn journal_of(alloc: Global, history: &History) -> Result<String, Fail> {
    let mut writer = Counted::new(Vec::new(alloc));
    write_journal(alloc, history, &mut writer)?;
    Ok(String::from_utf8(writer.into_link())?)
}

// The numbers of the history in a text, and its journal; if it is to go on, after caller 7 made it beat.
fn written_again(alloc: Global, text: &str, goes_on: bool) -> Result<(Told, String), Fail> {
    let history = history_of(alloc, text, goes_on)?;
    Ok((told(&history), journal_of(alloc, &history)?))
}

const A_AND_BEAT: &str = "life 10.0.0.1:7000 9 1000 2000 60000 18421 - c1\n\
open\n\
ack 1000 00000027030200010a0000011b58000000090000000000010a0000021b5800000005000000000000000100\n\
beat\n";

// Each kind of local event, seeds, and other settings of silence.
const LOCAL: &str = "life 10.0.0.3:7000 2147483647 1 7 8 9 10.0.0.1:7000,10.0.0.2:7000 a b \n\
beat\nset 16 6e6f\nset 1 -\nremove 16\nremove 1\ntick 0 1 2 3 18446744073709551615\nopen\n";

// Upper-case digits are read, and the last line feed may be missing.
const CAPITALS: &str = "life 10.0.0.1:7000 9 1000 2000 60000 18421 - c1\nset 3 4A4b";

const SMALL: &str = "life 10.0.0.1:7000 9 1000 2000 60000 18421 - c1\nset 3 4a4b\n";

// B takes A's text at key 1 and then the tombstone in its place. The first two frames are in layouts 1 and 2; the last
// can only be in layout 3.
const TOMBSTONE: &str = "life 10.0.0.2:7000 5 1000 2000 60000 18421 - c1\n\
syn 0000001601010263310100010a0000011b580000000900000003\n\
ack2 1000 00000024020300010a0000011b5800000009000000000000000101010000000300064e4f524d414c\n\
ack2 2000 0000001e030300010a0000011b58000000090000000300000001010100000004ffff\n";

const TOMBSTONE_3: &str = "life 10.0.0.2:7000 5 1000 2000 60000 18421 - c1\n\
syn 0000001603010263310100010a0000011b580000000900000003\n\
ack2 1000 00000024030300010a0000011b5800000009000000000000000101010000000300064e4f524d414c\n\
ack2 2000 0000001e030300010a0000011b58000000090000000300000001010100000004ffff\n";

// The text that is read, `true` if it goes on, its numbers, and the text that is written.
const WRITTEN: [(&str, bool, Told, &str); 12] = [
    // frames are read in each layout, and written in layout 3
    (A, false, (9, 2, 1, 2, true), A_3),
    (B, false, (5, 2, 1, 2, true), B_3),
    (A_2, false, (9, 2, 1, 2, true), A_3),
    (B_2, false, (5, 2, 1, 2, true), B_3),
    (A_3, false, (9, 2, 1, 2, true), A_3),
    (B_3, false, (5, 2, 1, 2, true), B_3),
    (TOMBSTONE, false, (5, 2, 1, 3, true), TOMBSTONE_3),
    (TOMBSTONE_3, false, (5, 2, 1, 3, true), TOMBSTONE_3),
    (LOCAL, false, (2147483647, 1, 1, 7, true), LOCAL),
    (CAPITALS, false, (9, 1, 1, 1, true), SMALL),
    // callers are left out
    (A, true, (9, 2, 1, 3, false), A_AND_BEAT),
    (A_AND_BEAT, false, (9, 2, 1, 3, true), A_AND_BEAT),
];

#[test]
fn journals_are_written_as_they_were_read(rt: HostRuntime) -> Result<(), Fail> {
    for (text, goes_on, due, again) in WRITTEN {
        let (told, written) = written_again(rt.alloc(), text, goes_on)?;
        expect_eq!((told, written.as_str()), (due, again))?;
    }
    Ok(())
}
