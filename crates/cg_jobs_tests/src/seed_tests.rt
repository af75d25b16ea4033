//! Seeds that are sorted and made distinct.

use crate::samples::text_with;
use cg_settings_file::settings_of;
use cg_testing::expect;
use std::alloc::Global;
use std::test::Fail;

// Tests whether an array is read as these seeds, each with a space after it.
fn is_read_as(alloc: Global, array: &str, due: &str) -> Result<bool, Fail> {
    let text = text_with(alloc, "seeds", array)?;
    let settings = settings_of(alloc, text.as_str())?;
    let mut seeds = String::new(alloc);
    for seed in settings.node.seeds() {
        write!(seeds, "{seed} ")?;
    }
    Ok(seeds.as_str() == due)
}

#[test]
fn seeds_are_sorted_and_made_distinct(rt: HostRuntime) -> Result<(), Fail> {
    let rows = [
        ("[]", ""),
        ("[\"10.0.0.1:7000\"]", "10.0.0.1:7000 "),
        (
            "[\"10.0.0.2:7000\", \"10.0.0.1:7001\", \"9.0.0.1:1\", \"10.0.0.1:7000\"]",
            "9.0.0.1:1 10.0.0.1:7000 10.0.0.1:7001 10.0.0.2:7000 ",
        ),
        (
            "[\"10.0.0.2:7000\", \"10.0.0.1:7000\", \"10.0.0.2:7000\", \"10.0.0.1:7000\"]",
            "10.0.0.1:7000 10.0.0.2:7000 ",
        ),
        ("[\"127.0.0.1:7000\"]", "127.0.0.1:7000 "),
    ];
    for (array, due) in rows {
        expect!(is_read_as(rt.alloc(), array, due)?, "{array}")?;
    }
    Ok(())
}
