//! Scripts of ten megabytes, over links that don't fail.

use cg_links::Counted;
use cg_sim::sim;
use cg_testing::expect;
use std::alloc::{AllocError, Global};
use std::test::Fail;

// The number of bytes of a script.
const LENGTH: usize = 10_000_000;

// A script with this start, and then letters up to its length.
fn long_script(alloc: Global, start: &str) -> Result<Vec<u8>, AllocError> {
    let mut script = Vec::with_capacity(alloc, LENGTH)?;
    script.extend_from_slice(start.as_bytes())?;
    for _ in start.len()..LENGTH {
        script.push(b'a')?;
    }
    Ok(script)
}

// Tests whether such a script prints this text and ends well.
fn prints(alloc: Global, start: &str, text: &[u8]) -> Result<bool, AllocError> {
    let script = long_script(alloc, start)?;
    let mut reader = Counted::new(script.as_slice());
    let mut writer = Counted::new(Vec::new(alloc));
    let status = sim(alloc, &mut reader, &mut writer);
    Ok(writer.into_link().as_slice() == text && status == 0)
}

#[test]
fn lines_of_ten_megabytes_are_read(rt: HostRuntime) -> Result<(), Fail> {
    for (start, text) in [
        (
            "start 10.0.0.1:7000 9\nset 10.0.0.1:7000 1 ",
            "started 10.0.0.1:7000 9\nfault 3 TooLong\n",
        ),
        (
            "start 10.0.0.1:7000 9\nreplicas 10.0.0.1:7000 3 ",
            "started 10.0.0.1:7000 9\n",
        ),
        ("", "fault 2 BadText\n"),
    ] {
        expect!(prints(rt.alloc(), start, text.as_bytes())?, "{text}")?;
    }
    Ok(())
}
