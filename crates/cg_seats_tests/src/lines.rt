//! Lines of an operator and the texts that they show: sets, views, a quit, unreadable lines, long texts.

use crate::board::{Left, left_after};
use crate::board_operators::DoesLines;
use cg_links::Counted;
use cg_testing::expect;
use std::alloc::Global;
use std::sync::Wait;
use std::test::Fail;

// The text written of an input, and the operator's result.
fn told<R: Wait>(rt: &R, alloc: Global, input: &[u8]) -> Result<(Vec<u8>, Left), Fail> {
    let mut work = DoesLines {
        reader: Counted::new(input),
        writer: Counted::new(Vec::new(alloc)),
    };
    let left = left_after(rt, alloc, &mut work)?;
    let DoesLines { writer, .. } = work;
    Ok((writer.into_link(), left))
}

// Tests whether this text is written of an input, and `records` records are kept and confirmed, with no fault.
fn tells<R: Wait>(
    rt: &R,
    alloc: Global,
    input: &[u8],
    text: &[u8],
    records: usize,
) -> Result<bool, Fail> {
    let (written, left) = told(rt, alloc, input)?;
    Ok(written.as_slice() == text && left == (None, records, records))
}

#[test]
fn a_key_that_is_set_is_shown(rt: HostRuntime) -> Result<(), Fail> {
    let is_told = tells(
        &rt,
        rt.alloc(),
        b"set 3 x\ngossipinfo\n",
        b"version 2\n/10.0.0.1:7000\n  generation:9\n  heartbeat:1\n  LOAD:2:x\n",
        1,
    )?;
    expect!(is_told)
}

#[test]
fn a_key_that_is_removed_is_shown_no_more(rt: HostRuntime) -> Result<(), Fail> {
    let is_told = tells(
        &rt,
        rt.alloc(),
        b"set 3 x\nremove 3\nremove 3\nremove 4\ngossipinfo\ndigests\nset 3 y\n",
        b"version 2\nversion 3\nfault 20 NoSuchKey\nfault 20 NoSuchKey\n/10.0.0.1:7000\n  generation:9\n  heartbeat:1\n10.0.0.1:7000 9 3\nversion 4\n",
        3,
    )?;
    expect!(is_told)
}

#[test]
fn each_view(rt: HostRuntime) -> Result<(), Fail> {
    let is_told = tells(
        &rt,
        rt.alloc(),
        b"set 1 NORMAL\nset 2 0cc175b9c0f1b6a831c399e269772661\nring\nreplicas 1 a\nreplicas 0 a\ndigests",
        b"version 2\nversion 3\n0cc175b9c0f1b6a831c399e269772661 10.0.0.1:7000\n10.0.0.1:7000\n10.0.0.1:7000 9 3\n",
        2,
    )?;
    expect!(is_told)
}

#[test]
fn lines_behind_a_quit_are_not_done(rt: HostRuntime) -> Result<(), Fail> {
    let is_told = tells(
        &rt,
        rt.alloc(),
        b"digests\nquit\nset 3 x\ndigests\n",
        b"10.0.0.1:7000 9 1\n",
        0,
    )?;
    expect!(is_told)
}

#[test]
fn nothing_is_written_of_nothing(rt: HostRuntime) -> Result<(), Fail> {
    let is_told = tells(&rt, rt.alloc(), b"", b"", 0)?;
    expect!(is_told)
}

#[test]
fn an_unreadable_line_shows_its_fault(rt: HostRuntime) -> Result<(), Fail> {
    for line in [
        b"\n".as_slice(),
        b"show\n",
        b"gossipinfo \n",
        b" gossipinfo\n",
        b"Ring\n",
        b"ring x\n",
        b"digests\r\n",
        b"quit \n",
        b"quit now\n",
        b"replicas\n",
        b"replicas 1\n",
        b"replicas x a\n",
        b"replicas 18446744073709551616 a\n",
        b"replicas 01 a\n",
        b"replicas 1 \xff\n",
        b"set\n",
        b"set 3\n",
        b"set 0 x\n",
        b"set 17 x\n",
        b"set 03 x\n",
        b"set 3 \xff\n",
        b"set 3 a\x01b\n",
        b"remove\n",
        b"remove \n",
        b"remove 0\n",
        b"remove 17\n",
        b"remove 03\n",
        b"remove 3 \n",
        b"remove 3 x\n",
    ] {
        let is_told = tells(&rt, rt.alloc(), line, b"fault 2 BadText\n", 0)?;
        expect!(is_told, "{line:?}")?;
    }
    Ok(())
}

// A line that sets a key to a text of `count` bytes.
fn long_line(alloc: Global, count: usize) -> Result<Vec<u8>, Fail> {
    let mut line = Vec::new(alloc);
    line.extend_from_slice(b"set 3 ")?;
    for _ in 0..count {
        line.push(b'y')?;
    }
    Ok(line)
}

#[test]
fn a_text_over_its_limit(rt: HostRuntime) -> Result<(), Fail> {
    let line = long_line(rt.alloc(), 4097)?;
    let is_told = tells(&rt, rt.alloc(), &line, b"fault 3 TooLong\n", 0)?;
    expect!(is_told)?;
    let line = long_line(rt.alloc(), 4096)?;
    let is_told = tells(&rt, rt.alloc(), &line, b"version 2\n", 1)?;
    expect!(is_told)
}

#[test]
fn the_work_goes_on_behind_a_fault(rt: HostRuntime) -> Result<(), Fail> {
    let is_told = tells(
        &rt,
        rt.alloc(),
        b"set 99 x\nset 3 \nset 3 y z\ndigests\n",
        b"fault 2 BadText\nversion 2\nversion 3\n10.0.0.1:7000 9 3\n",
        2,
    )?;
    expect!(is_told)
}
