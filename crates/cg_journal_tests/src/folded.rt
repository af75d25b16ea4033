//! Journals of histories of which records are folded: they are not written.

use crate::audited::A;
use crate::samples::history_in;
use cg_journal::write_journal;
use cg_links::Counted;
use cg_testing::expect_eq;
use cg_types::Fault;
use std::alloc::Global;
use std::test::Fail;

// Writes the journal of A's life, which has two records, once this many of them are folded: the answer, the number of
// bytes written, and the number of failures counted.
fn written(alloc: Global, count: usize) -> Result<(Result<(), Fault>, usize, u64), Fail> {
    let mut history = history_in(alloc, A.as_bytes())?;
    if count <= history.records().len() {
        history.fold_front(alloc, count)?;
    }
    let mut writer = Counted::new(Vec::new(alloc));
    let answer = write_journal(alloc, &history, &mut writer);
    let failed = writer.failed();
    Ok((answer, writer.into_link().len(), failed))
}

#[test]
fn folded_histories_have_no_journal(rt: HostRuntime) -> Result<(), Fail> {
    for (count, due) in [
        (0, (Ok(()), A.len(), 0)),
        (1, (Err(Fault::Folded), 0, 0)),
        (2, (Err(Fault::Folded), 0, 0)),
    ] {
        let written = written(rt.alloc(), count)?;
        expect_eq!(written, due)?;
    }
    Ok(())
}
