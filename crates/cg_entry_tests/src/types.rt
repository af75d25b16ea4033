//! Endpoints, numbers, texts, clusters and faults: their texts as a user reads them, and each call once with ample
//! memory.

use cg_testing::{expect, expect_eq, long_text};
use cg_types::laws::{keys_have_names_of_their_own, limits_have_their_values};
use cg_types::{
    Cause, Cluster, Endpoint, Fault, Generation, Owned, StateKey, StateText, Version, cut,
    endpoints_rise, is_plain, number, number_between, owners_rise,
};
use std::alloc::{AllocError, Global};
use std::ops::Deref;
use std::str::from_utf8;
use std::sync::Arc;
use std::test::Fail;

fn is_endpoint(text: &str) -> bool {
    Endpoint::read(text).is_ok()
}

// The text that `Display` writes of an endpoint.
fn written(alloc: Global, endpoint: Endpoint) -> Result<String, AllocError> {
    format!(in alloc; "{endpoint}")
}

#[test]
fn endpoints_are_read(rt: HostRuntime) -> Result<(), Fail> {
    let endpoint = Endpoint::read("10.0.0.1:7000")?;
    let parts = (endpoint.address(), endpoint.port());
    expect_eq!(parts, ([10, 0, 0, 1], 7000))?;
    let made = Endpoint::new([10, 0, 0, 1], 7000);
    let from_bytes = Endpoint::from_bytes(b"10.0.0.1:7000");
    expect_eq!((made, from_bytes), (Some(endpoint), Some(endpoint)))?;
    expect_eq!(written(rt.alloc(), endpoint)?.as_str(), "10.0.0.1:7000")
}

#[test]
fn endpoints_are_added_to_texts(rt: HostRuntime) -> Result<(), Fail> {
    let mut text = String::new(rt.alloc());
    for endpoint in ["1.2.3.4:5", "255.255.255.255:65535"] {
        text.push_str(" ")?;
        Endpoint::read(endpoint)?.push_to(&mut text)?;
    }
    expect_eq!(text.as_str(), " 1.2.3.4:5 255.255.255.255:65535")
}

#[test]
fn other_texts_are_no_endpoints() -> Result<(), Fail> {
    for text in ["0.0.0.0:1", "255.255.255.255:65535"] {
        expect!(is_endpoint(text), "{text}")?;
    }
    for text in [
        "",
        "10.0.0.1",
        "10.0.0.1:",
        "10.0.0.1:0",
        "10.0.0.1:65536",
        "10.0.0.1:07000",
        "10.0.0.01:7000",
        "10.0.0.256:7000",
        "10.0.0:7000",
        "10.0.0.1.1:7000",
        " 10.0.0.1:7000",
        "10.0.0.1:7000 ",
        "+10.0.0.1:7000",
        "a.0.0.1:7000",
    ] {
        expect!(!is_endpoint(text), "{text}")?;
    }
    expect_eq!(Endpoint::read("10.0.0.1").err(), Some(Fault::BadText))
}

#[test]
fn endpoints_are_ordered() -> Result<(), Fail> {
    let least = Endpoint::read("9.255.0.1:65535")?;
    let middle = Endpoint::read("10.0.0.1:7000")?;
    let greatest = Endpoint::read("10.0.0.1:7001")?;
    expect!(least < middle)?;
    expect!(middle < greatest)?;
    expect!(middle != greatest)
}

#[test]
fn endpoints_rise_strictly() -> Result<(), Fail> {
    let a = Endpoint::read("10.0.0.1:7000")?;
    let b = Endpoint::read("10.0.0.1:7001")?;
    let c = Endpoint::read("10.0.0.2:1")?;
    expect!(endpoints_rise(&[]))?;
    expect!(endpoints_rise(&[a, b, c]))?;
    expect!(!endpoints_rise(&[a, b, b]))?;
    expect!(!endpoints_rise(&[a, c, b]))
}

#[test]
fn endpoints_are_owners() -> Result<(), Fail> {
    let a = Endpoint::read("10.0.0.1:7000")?;
    let b = Endpoint::read("10.0.0.1:7001")?;
    expect_eq!(b.owner(), b)?;
    expect!(owners_rise(&[a, b]))?;
    expect!(!owners_rise(&[b, a]))
}

#[test]
fn ports_are_bounded() -> Result<(), Fail> {
    expect!(Endpoint::new([10, 0, 0, 1], 0).is_none())?;
    expect!(Endpoint::new([10, 0, 0, 1], 1).is_some())?;
    expect!(Endpoint::new([10, 0, 0, 1], 65535).is_some())
}

#[test]
fn numbers_are_bounded() -> Result<(), Fail> {
    for (number, is_in) in [
        (0, false),
        (1, true),
        (2147483647, true),
        (2147483648, false),
    ] {
        expect_eq!(
            Generation::new(number).map(|g| g.get()),
            is_in.then_some(number)
        )?;
        expect_eq!(
            Version::new(number).map(|v| v.get()),
            is_in.then_some(number)
        )?;
    }
    expect_eq!(Version::first().get(), 1)
}

#[test]
fn keys_are_bounded() -> Result<(), Fail> {
    for (number, is_in) in [(0, false), (1, true), (16, true), (17, false)] {
        expect_eq!(
            StateKey::new(number).map(|k| k.get()),
            is_in.then_some(number)
        )?;
    }
    Ok(())
}

fn key_name(number: u8) -> Option<&'static str> {
    StateKey::new(number).map(|key| key.name())
}

#[test]
fn keys_have_names() -> Result<(), Fail> {
    for (number, name) in [
        (1, "STATUS"),
        (2, "TOKENS"),
        (3, "LOAD"),
        (4, "SCHEMA"),
        (5, "DC"),
        (6, "RACK"),
        (7, "RELEASE_VERSION"),
        (8, "RPC_ADDRESS"),
        (9, "HOST_ID"),
        (10, "INTERNAL_IP"),
        (11, "NET_VERSION"),
        (12, "SEVERITY"),
        (13, "RPC_READY"),
        (14, "X1"),
        (15, "X2"),
        (16, "X3"),
    ] {
        expect_eq!(key_name(number), Some(name))?;
    }
    Ok(())
}

#[test]
fn no_two_keys_have_one_name() -> Result<(), Fail> {
    keys_have_names_of_their_own();
    for number in 1..17 {
        for other in 1..number {
            expect!(key_name(other) != key_name(number))?;
        }
    }
    Ok(())
}

fn refusal_of_text(alloc: Global, count: usize) -> Result<Option<Fault>, AllocError> {
    let text = long_text(alloc, count)?;
    Ok(StateText::new(alloc, text.as_str()).err())
}

#[test]
fn texts_are_bounded(rt: HostRuntime) -> Result<(), Fail> {
    expect_eq!(refusal_of_text(rt.alloc(), 0)?, None)?;
    expect_eq!(refusal_of_text(rt.alloc(), 4096)?, None)?;
    expect_eq!(refusal_of_text(rt.alloc(), 4097)?, Some(Fault::TooLong))
}

#[test]
fn texts_are_plain(rt: HostRuntime) -> Result<(), Fail> {
    expect!(is_plain("NORMAL,t\u{f6}ken"))?;
    for text in ["a\nb", "\u{1f}", "\u{7f}", "\u{0}"] {
        expect!(!is_plain(text))?;
        expect_eq!(StateText::new(rt.alloc(), text).err(), Some(Fault::BadText))?;
    }
    let mut long = long_text(rt.alloc(), 4097)?;
    long.push('\n')?;
    expect_eq!(
        StateText::new(rt.alloc(), long.as_str()).err(),
        Some(Fault::TooLong)
    )
}

fn text_equals_its_copy(text: &StateText) -> Result<bool, AllocError> {
    Ok(text.copy()? == *text)
}

fn differs_from(alloc: Global, text: &StateText, other: &str) -> Result<bool, Fail> {
    Ok(StateText::new(alloc, other)? != *text)
}

#[test]
fn texts_are_copied(rt: HostRuntime) -> Result<(), Fail> {
    let text = StateText::new(rt.alloc(), "NORMAL")?;
    let same = text_equals_its_copy(&text)?;
    let differs = differs_from(rt.alloc(), &text, "MOVING")?;
    expect_eq!((text.as_str(), same, differs), ("NORMAL", true, true))
}

// The text of a part of a buffer; `None` if it is no text of a state.
fn text_in(
    buffer: &Arc<Vec<u8>, Global>,
    at: usize,
    size: usize,
) -> Result<Option<StateText>, AllocError> {
    let bytes: &Vec<u8> = buffer.deref();
    if at > 100 || size > 100 || bytes.len() < at + size {
        return Ok(None);
    }
    let Ok(text) = from_utf8(&bytes[at..at + size]) else {
        return Ok(None);
    };
    if !is_plain(text) {
        return Ok(None);
    }
    Ok(Some(StateText::of_part(buffer, at as u32, size as u16)?))
}

// The text of a part of some bytes, which nobody else has any more.
fn part_of(
    alloc: Global,
    bytes: &str,
    at: usize,
    size: usize,
) -> Result<Option<StateText>, AllocError> {
    let buffer = Arc::new(alloc, Vec::from_slice(alloc, bytes.as_bytes())?)?;
    text_in(&buffer, at, size)
}

fn is_part(
    alloc: Global,
    (at, size): (usize, usize),
    wanted: Option<&str>,
) -> Result<bool, AllocError> {
    match part_of(alloc, "NORMAL\nx,y", at, size)? {
        Some(text) => Ok(wanted == Some(text.as_str())),
        None => Ok(wanted.is_none()),
    }
}

#[test]
fn texts_are_parts_of_a_buffer(rt: HostRuntime) -> Result<(), Fail> {
    let alloc = rt.alloc();
    for (part, wanted) in [
        ((0, 6), Some("NORMAL")),
        ((7, 3), Some("x,y")),
        ((8, 1), Some(",")),
        ((10, 0), Some("")),
        ((0, 7), None),
        ((8, 3), None),
    ] {
        expect!(is_part(alloc, part, wanted)?)?;
    }
    Ok(())
}

fn refusal_of_name(alloc: Global, count: usize) -> Result<Option<Fault>, AllocError> {
    let name = long_text(alloc, count)?;
    Ok(Cluster::new(alloc, name.as_str()).err())
}

#[test]
fn names_are_bounded(rt: HostRuntime) -> Result<(), Fail> {
    expect_eq!(refusal_of_name(rt.alloc(), 0)?, Some(Fault::BadText))?;
    expect_eq!(refusal_of_name(rt.alloc(), 1)?, None)?;
    expect_eq!(refusal_of_name(rt.alloc(), 48)?, None)?;
    expect_eq!(refusal_of_name(rt.alloc(), 49)?, Some(Fault::TooLong))?;
    expect_eq!(
        Cluster::new(rt.alloc(), "c\u{7f}").err(),
        Some(Fault::BadText)
    )
}

fn cluster_equals_its_copy(cluster: &Cluster) -> Result<bool, AllocError> {
    Ok(cluster.copy()? == *cluster)
}

// A cluster of this name and partitioner beside another: its partitioner, and whether the two differ.
fn other_than(
    alloc: Global,
    cluster: &Cluster,
    name: &str,
    partitioner: u8,
) -> Result<(u8, bool), Fail> {
    let other = Cluster::with(alloc, name, partitioner)?;
    Ok((other.partitioner(), other != *cluster))
}

#[test]
fn clusters_are_copied(rt: HostRuntime) -> Result<(), Fail> {
    let cluster = Cluster::new(rt.alloc(), "c1")?;
    let same = cluster_equals_its_copy(&cluster)?;
    let by_name = other_than(rt.alloc(), &cluster, "c2", 1)?;
    let by_partitioner = other_than(rt.alloc(), &cluster, "c1", 2)?;
    let parts = (cluster.name(), cluster.partitioner());
    expect_eq!((parts, same), (("c1", 1), true))?;
    expect_eq!((by_name, by_partitioner), ((1, true), (2, true)))
}

// The line that a fault's number, name and details make, as people see them.
fn shown(alloc: Global, fault: Fault) -> Result<String, AllocError> {
    format!(in alloc; "fault {fault}\n")
}

#[test]
fn faults_have_lines(rt: HostRuntime) -> Result<(), Fail> {
    for (fault, number, line) in [
        (Fault::OutOfMemory, 1, "fault 1 OutOfMemory\n"),
        (Fault::BadText, 2, "fault 2 BadText\n"),
        (Fault::TooLong, 3, "fault 3 TooLong\n"),
        (Fault::VersionsSpent, 4, "fault 4 VersionsSpent\n"),
        (Fault::TableFull, 8, "fault 8 TableFull\n"),
        (Fault::OtherCluster, 9, "fault 9 OtherCluster\n"),
        (Fault::NoSuchMessage, 10, "fault 10 NoSuchMessage\n"),
        (Fault::NotRising, 11, "fault 11 NotRising\n"),
        (Fault::Truncated, 13, "fault 13 Truncated\n"),
        (Fault::ReadFault, 14, "fault 14 ReadFault\n"),
        (Fault::WriteFault, 15, "fault 15 WriteFault\n"),
        (Fault::Stranger, 16, "fault 16 Stranger\n"),
        (Fault::Stuck, 17, "fault 17 Stuck\n"),
        (Fault::Folded, 18, "fault 18 Folded\n"),
        (Fault::NoSuchNode, 19, "fault 19 NoSuchNode\n"),
    ] {
        expect_eq!(fault.number(), number)?;
        expect_eq!(fault.line(rt.alloc())?.as_str(), line)?;
        expect_eq!(shown(rt.alloc(), fault)?.as_str(), line)?;
    }
    Ok(())
}

#[test]
fn faults_and_causes_have_names() -> Result<(), Fail> {
    let place = Fault::BadFrame {
        place: 22,
        cause: Cause::Order,
    };
    expect_eq!(place.number(), 12)?;
    expect_eq!(place.name(), "BadFrame")?;
    expect_eq!(Fault::TableFull.name(), "TableFull")?;
    expect_eq!(Fault::NoSuchNode.name(), "NoSuchNode")?;
    expect_eq!(Cause::Order.name(), "Order")?;
    expect_eq!(Cause::Unexpected.name(), "Unexpected")
}

#[test]
fn bad_frames_have_lines(rt: HostRuntime) -> Result<(), Fail> {
    for (cause, line) in [
        (Cause::Length, "fault 12 BadFrame 22 Length\n"),
        (Cause::Short, "fault 12 BadFrame 22 Short\n"),
        (Cause::Layout, "fault 12 BadFrame 22 Layout\n"),
        (Cause::Kind, "fault 12 BadFrame 22 Kind\n"),
        (Cause::Name, "fault 12 BadFrame 22 Name\n"),
        (Cause::Count, "fault 12 BadFrame 22 Count\n"),
        (Cause::Endpoint, "fault 12 BadFrame 22 Endpoint\n"),
        (Cause::Order, "fault 12 BadFrame 22 Order\n"),
        (Cause::Generation, "fault 12 BadFrame 22 Generation\n"),
        (Cause::Version, "fault 12 BadFrame 22 Version\n"),
        (Cause::Above, "fault 12 BadFrame 22 Above\n"),
        (Cause::Heartbeat, "fault 12 BadFrame 22 Heartbeat\n"),
        (Cause::Key, "fault 12 BadFrame 22 Key\n"),
        (Cause::Text, "fault 12 BadFrame 22 Text\n"),
        (Cause::Empty, "fault 12 BadFrame 22 Empty\n"),
        (Cause::Rest, "fault 12 BadFrame 22 Rest\n"),
        (Cause::Unexpected, "fault 12 BadFrame 22 Unexpected\n"),
    ] {
        let fault = Fault::BadFrame { place: 22, cause };
        expect_eq!(fault.line(rt.alloc())?.as_str(), line)?;
        expect_eq!(shown(rt.alloc(), fault)?.as_str(), line)?;
    }
    Ok(())
}

#[test]
fn words_are_read() -> Result<(), Fail> {
    expect_eq!(cut(b"a b", b' '), Some((b"a".as_slice(), b"b".as_slice())))?;
    expect_eq!(cut(b"ab", b' '), None)?;
    expect_eq!(number(b"0", 9), Some(0))?;
    expect_eq!(number(b"18446744073709551615", u64::MAX), Some(u64::MAX))?;
    for text in [
        "",
        "01",
        "00",
        "+1",
        "1 ",
        "a",
        "10",
        "18446744073709551616",
    ] {
        expect_eq!(number(text.as_bytes(), 9), None, "{text}")?;
    }
    Ok(())
}

// The numbers that a word is, read as a generation, a version and a key.
fn read_as(word: &[u8]) -> (Option<u32>, Option<u32>, Option<u8>) {
    (
        Generation::from_bytes(word).map(|generation| generation.get()),
        Version::from_bytes(word).map(|version| version.get()),
        StateKey::from_bytes(word).map(|key| key.get()),
    )
}

#[test]
fn words_are_generations_versions_and_keys() -> Result<(), Fail> {
    expect_eq!(read_as(b"1"), (Some(1), Some(1), Some(1)))?;
    expect_eq!(read_as(b"16"), (Some(16), Some(16), Some(16)))?;
    expect_eq!(
        read_as(b"2147483647"),
        (Some(2147483647), Some(2147483647), None)
    )?;
    for word in ["", "0", "01", "+1", "2147483648", "18446744073709551617"] {
        expect_eq!(read_as(word.as_bytes()), (None, None, None), "{word}")?;
    }
    let read = [
        number_between(b"4", 5, 7),
        number_between(b"5", 5, 7),
        number_between(b"8", 5, 7),
    ];
    expect_eq!(read, [None, Some(5), None])?;
    limits_have_their_values();
    Ok(())
}
