//! Lines of journals that can't be read, and the number and the fault that are reported of each.

use cg_journal::{Unread, read_journal, read_journal_telling};
use cg_links::Counted;
use cg_testing::expect_eq;
use cg_tool::Journals;
use cg_types::Fault;
use std::alloc::Global;
use std::test::Fail;

// The line in which reading ends and the number of the fault, or the number of records that were read: of a journal
// alone, and of one of some journals, which report no records.
type End = (Result<usize, (u64, u8)>, Result<(), (u64, u8)>);

fn end_of(alloc: Global, text: &[u8]) -> End {
    let alone = match read_journal_telling(alloc, &mut Counted::new(text)) {
        Ok(history) => Ok(history.records().len()),
        Err(unread) => Err((unread.line, unread.fault.number())),
    };
    let mut journals = Journals::new(alloc);
    let among_others = match journals.read(alloc, &mut Counted::new(text)) {
        Ok(()) => Ok(()),
        Err(unread) => Err((unread.line, unread.fault.number())),
    };
    (alone, among_others)
}

// The same of a part of a text, which is repeated `times` times between two others.
fn end_of_line(
    alloc: Global,
    front: &str,
    line: &str,
    times: u32,
    behind: &str,
) -> Result<End, Fail> {
    let mut text = String::from_str(alloc, front)?;
    for _ in 0..times {
        text.push_str(line)?;
    }
    text.push_str(behind)?;
    Ok(end_of(alloc, text.as_bytes()))
}

const LIFE: &str = "life 10.0.0.1:7000 9 1000 2000 60000 18421 - c1\n";

const LIFE_AND_BEAT: &str = "life 10.0.0.1:7000 9 1000 2000 60000 18421 - c1\nbeat\n";

const LIFE_BEAT_AND_SET: &str = "life 10.0.0.1:7000 9 1000 2000 60000 18421 - c1\nbeat\nset 1 ";

const LIFE_AND_OPEN: &str = "life 10.0.0.1:7000 9 1000 2000 60000 18421 - c1\nopen\n";

// The second line of a life that opens, and the third, with line feeds about them.
const OPEN_AND_ACK: &str =
    "\nopen\nack 1000 00000027010200010a0000011b58000000090000000000010a0000021b58\
00000005000000000000000100\n";

const ACK: &str = "\nack 1000 00000027010200010a0000011b58000000090000000000010a0000021b5800000005\
000000000000000100\n";

const LINES: [&str; 35] = [
    "",
    "beat ",
    "Beat",
    "open 1",
    "life 10.0.0.1:7000 9 1000 2000 60000 18421 - c1",
    "set 1",
    "set 1 ",
    "set 0 41",
    "set 17 41",
    "set 01 41",
    "set 1 4",
    "set 1 4x",
    "set 1 ff",
    "set 1 07",
    "set 1 41 ",
    "remove",
    "remove ",
    "remove 0",
    "remove 17",
    "remove 01",
    "remove 1 ",
    "remove 1 41",
    "Remove 1",
    // no text is there
    "remove 1",
    "tick 1 2 3 4",
    "tick 1 2 3 4 5 6",
    "tick 1 2 3 4 18446744073709551616",
    "tick 01 2 3 4 5",
    "syn ",
    "syn 0000000801010263310100",
    "syn 00000008010102633101000000",
    "syn 000000080101026332010000",
    "syn 00000004010300",
    "ack 00000004010300",
    "ack2 1 000000080101026331010000",
];

const LIVES: [&str; 16] = [
    "",
    "\n",
    "beat\n",
    "life\n",
    "life 10.0.0.1:7000 9 1000 2000 60000 18421 -\n",
    "life 10.0.0.1:7000 9 1000 2000 60000 18421 - \n",
    "life 10.0.0.1:7000 9 1000 2000 60000 18421  c1\n",
    "life 10.0.0.1:7000 9 0 2000 60000 18421 - c1\n",
    "life 10.0.0.1:7000 9 1000 60001 60000 18421 - c1\n",
    "life 10.0.0.1:7000 9 1000 2000 60000 4294967296 - c1\n",
    "life 10.0.0.1:7000 0 1000 2000 60000 18421 - c1\n",
    "life 10.0.0.1:0 9 1000 2000 60000 18421 - c1\n",
    "life 10.0.0.1:7000 9 1000 2000 60000 18421 10.0.0.2:7000, c1\n",
    "life 10.0.0.1:7000 9 1000 2000 60000 18421 10.0.0.2:7000,10.0.0.2:7000 c1\n",
    "life 10.0.0.1:7000 9 1000 2000 60000 18421 10.0.0.3:7000,10.0.0.2:7000 c1\n",
    "life 10.0.0.1:7000 9 1000 2000 60000 18421 - c1c1c1c1c1c1c1c1c1c1c1c1c1c1c1c1c1c1c1c1c1c1c1c1c\n",
];

// Lines that no journal may have: words of no event, of another, without their texts, with frames of another kind and
// with bytes after a frame.
const JUNK: [&str; 9] = [
    "",
    "lives",
    "beat 1",
    "open ",
    "set 1",
    "tick 1 2 3 4",
    "syn 0000",
    "ack2 1000 0000001601010263310100010a0000011b580000000900000001",
    "ack2 1000 00000017010300010a0000011b580000000900000000000000010000",
];

// Lines, the text before and after each, and its number.
const UNREADABLE: [(&[&str], &str, &str, u64); 5] = [
    (&LINES, LIFE_AND_BEAT, "\nbeat\n", 3),
    (&LIVES, "", "", 1),
    (&JUNK, "", OPEN_AND_ACK, 1),
    (&JUNK, LIFE, ACK, 2),
    (&JUNK, LIFE_AND_OPEN, "\n", 3),
];

#[test]
fn each_line_that_cannot_be_read_is_told(rt: HostRuntime) -> Result<(), Fail> {
    let alloc = rt.alloc();
    for (lines, front, behind, number) in UNREADABLE {
        let due = (Err((number, 2)), Err((number, 2)));
        for line in lines {
            let end = end_of_line(alloc, front, line, 1, behind)?;
            expect_eq!(end, due, "line {number}: {line}")?;
        }
    }
    let no_text = end_of(
        alloc,
        b"life 10.0.0.1:7000 9 1000 2000 60000 18421 - \xff\n",
    );
    expect_eq!(no_text, (Err((1, 2)), Err((1, 2))))?;
    // a text of the greatest length, and one of a byte more
    for (bytes, due) in [(4096, (Ok(2), Ok(()))), (4097, (Err((3, 2)), Err((3, 2))))] {
        let end = end_of_line(alloc, LIFE_BEAT_AND_SET, "41", bytes, "")?;
        expect_eq!(end, due, "{bytes} bytes")?;
    }
    Ok(())
}

#[test]
fn an_unread_journal_says_where(rt: HostRuntime) -> Result<(), Fail> {
    let fault = Fault::BadText;
    let told = format!(in rt.alloc(); "{}", Unread { line: 2, fault })?;
    expect_eq!(
        told.as_str(),
        "the journal can't be read at line 2: 2 BadText"
    )?;
    let quiet = match read_journal(rt.alloc(), &mut Counted::new(&b"live\n"[..])) {
        Ok(_) => 0,
        Err(fault) => fault.number(),
    };
    expect_eq!(quiet, 2)
}
