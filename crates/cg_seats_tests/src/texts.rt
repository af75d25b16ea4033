//! The text of a change that readers do not see yet.

use cg_operator::add_unpublished;
use cg_testing::{expect_eq, version};
use std::test::Fail;

#[test]
fn a_change_that_is_not_published(rt: HostRuntime) -> Result<(), Fail> {
    let mut text = String::new(rt.alloc());
    add_unpublished(&mut text, version(7))?;
    expect_eq!(text.as_str(), "version 7 unpublished\n")
}
