//! `audit_files` over texts, with the status: one run, a stuck one, lives that do not rise, an unreadable line.

use cg_links::Counted;
use cg_testing::expect_eq;
use cg_tool::audit_files;
use std::alloc::Global;
use std::test::Fail;

/// A's life in the first exchange.
pub(crate) const A: &str = "life 10.0.0.1:7000 9 1000 2000 60000 18421 - c1\n\
open\n\
ack 1000 00000027010200010a0000011b58000000090000000000010a0000021b5800000005000000000000000100\n";

/// B's life in the first exchange.
pub(crate) const B: &str = "life 10.0.0.2:7000 5 1000 2000 60000 18421 - c1\n\
syn 0000001601010263310100010a0000011b580000000900000001\n\
ack2 1000 00000017010300010a0000011b5800000009000000000000000100\n";

/// The same life of A in layout 2.
pub(crate) const A_2: &str = "life 10.0.0.1:7000 9 1000 2000 60000 18421 - c1\n\
open\n\
ack 1000 00000027020200010a0000011b58000000090000000000010a0000021b5800000005000000000000000100\n";

/// The same life of B in layout 2.
pub(crate) const B_2: &str = "life 10.0.0.2:7000 5 1000 2000 60000 18421 - c1\n\
syn 0000001602010263310100010a0000011b580000000900000001\n\
ack2 1000 00000017020300010a0000011b5800000009000000000000000100\n";

/// The same life of A in layout 3.
pub(crate) const A_3: &str = "life 10.0.0.1:7000 9 1000 2000 60000 18421 - c1\n\
open\n\
ack 1000 00000027030200010a0000011b58000000090000000000010a0000021b5800000005000000000000000100\n";

/// The same life of B in layout 3.
pub(crate) const B_3: &str = "life 10.0.0.2:7000 5 1000 2000 60000 18421 - c1\n\
syn 0000001603010263310100010a0000011b580000000900000001\n\
ack2 1000 00000017030300010a0000011b5800000009000000000000000100\n";

// The same life of B, its SYN in layout 3 and its ACK2 in layout 2.
const B_3_2: &str = "life 10.0.0.2:7000 5 1000 2000 60000 18421 - c1\n\
syn 0000001603010263310100010a0000011b580000000900000001\n\
ack2 1000 00000017020300010a0000011b5800000009000000000000000100\n";

/// The audit of the first exchange.
pub(crate) const ONE_RUN: &str = "10.0.0.1:7000 9 0\n10.0.0.1:7000 9 1\n10.0.0.2:7000 5 0\n\
10.0.0.2:7000 5 1\n10.0.0.1:7000 9 2\n10.0.0.2:7000 5 2\none run\n";

// A life of B that did nothing.
const B_5: &str = "life 10.0.0.2:7000 5 1000 2000 60000 18421 - c1\n";

// Lives of B and of A that did nothing.
const B_6: &str = "life 10.0.0.2:7000 6 1000 2000 60000 18421 - c1\n";

const A_9: &str = "life 10.0.0.1:7000 9 1000 2000 60000 18421 - c1\n";

// The starts of A and of B, twice.
const STARTS: &str = "10.0.0.1:7000 9 0\n10.0.0.2:7000 5 0\n10.0.0.2:7000 6 0\none run\n";

// The text of an audit of journals, and the status.
fn said(alloc: Global, journals: &[&str]) -> Result<(String, u8), Fail> {
    let mut readers = Vec::new(alloc);
    for journal in journals {
        readers.push(Counted::new(journal.as_bytes()))?;
    }
    let mut writer = Counted::new(Vec::new(alloc));
    let status = audit_files(alloc, &mut readers, &mut writer);
    Ok((String::from_utf8(writer.into_link())?, status))
}

const SAID: [(&[&str], &str, u8); 14] = [
    (&[A, B], ONE_RUN, 0),
    (&[B, A], ONE_RUN, 0),
    // a message is the same in each layout
    (&[A_2, B_2], ONE_RUN, 0),
    (&[A, B_2], ONE_RUN, 0),
    (&[A_2, B], ONE_RUN, 0),
    (&[A_3, B_3], ONE_RUN, 0),
    (&[A_3, B], ONE_RUN, 0),
    (&[A_2, B_3], ONE_RUN, 0),
    (&[A, B_3_2], ONE_RUN, 0),
    (&[B_5, A_9, B_6], STARTS, 0),
    (&[], "one run\n", 0),
    (&[A, B_5], "stuck 10.0.0.1:7000 9 2\nfault 17 Stuck\n", 1),
    (&[B_5, B_5], "fault 11 NotRising\n", 1),
    (&[A, "live\n"], "fault 2 BadText\n", 1),
];

#[test]
fn the_status_tells_whether_it_is_one_run(rt: HostRuntime) -> Result<(), Fail> {
    for (journals, text, due) in SAID {
        let (written, status) = said(rt.alloc(), journals)?;
        expect_eq!((written.as_str(), status), (text, due))?;
    }
    Ok(())
}
