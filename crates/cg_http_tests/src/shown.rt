//! The status of a node in JSON and as metrics, its replicas, its health.

use crate::nodes::{ring_of, status, table};
use cg_status::{is_healthy, metrics_text, replicas_json, status_json};
use cg_testing::{B, C, endpoint, expect, expect_eq};
use cg_tokens::Token;
use std::alloc::Global;
use std::str::from_utf8;
use std::test::Fail;

// The status in JSON of the sample node, whose key `LOAD` has this text.
fn shown(alloc: Global, load: &str) -> Result<String, Fail> {
    let body = status_json(alloc, &status(alloc)?, &table(alloc, load)?)?;
    let text = from_utf8(body.as_slice()).ok().ok_or("a text")?;
    Ok(String::from_str(alloc, text)?)
}

#[test]
fn status_in_json(rt: HostRuntime) -> Result<(), Fail> {
    let body = shown(rt.alloc(), "1 \"<b>\\&'")?;
    let due =
        "{\"endpoint\":\"10.0.0.1:7000\",\"generation\":9,\"cluster\":\"c1\",\"uptime_ms\":5000,\
\"versions_left\":7,\"counters\":{\"rounds\":1,\"begun\":2,\"answered\":3,\"bytes_in\":8,\"bytes_out\":9,\
\"records\":10,\"folded\":11,\"taken\":4,\"old\":5,\"gap\":6,\"own\":7,\"broken\":{\"14\":2}},\
\"endpoints\":[{\"endpoint\":\"10.0.0.1:7000\",\"generation\":9,\"heartbeat\":1,\"newest\":1,\"states\":{}},\
{\"endpoint\":\"10.0.0.2:7000\",\"generation\":4,\"heartbeat\":1,\"newest\":4,\"verdict\":\"Alive\",\"since_ms\":12,\
\"states\":{\"STATUS\":\"NORMAL\",\"TOKENS\":\"00000000000000000000000000000010\",\"LOAD\":\"1 \\\"<b>\\\\&'\"}}]}";
    expect_eq!(body.as_str(), due)
}

#[test]
fn metrics(rt: HostRuntime) -> Result<(), Fail> {
    let alloc = rt.alloc();
    let text = metrics_text(alloc, &status(alloc)?)?;
    expect!(text.starts_with(
        "# HELP cg_rounds_total Rounds begun.\n# TYPE cg_rounds_total counter\ncg_rounds_total 1\n"
    ))?;
    expect!(text.contains("\ncg_exchanges_broken_total{fault=\"14\"} 2\n"))?;
    expect!(text.contains("\ncg_written_bytes_total 9\n"))?;
    expect!(text.contains("\n# TYPE cg_endpoints gauge\ncg_endpoints{verdict=\"Alive\"} 1\n"))?;
    expect!(text.contains(
        "\ncg_endpoints{verdict=\"Silent\"} 0\ncg_endpoints{verdict=\"Unheard\"} 1\n"
    ))?;
    expect!(text.ends_with("\n# TYPE cg_versions_left gauge\ncg_versions_left 7\n"))
}

#[test]
fn replicas_in_json(rt: HostRuntime) -> Result<(), Fail> {
    let alloc = rt.alloc();
    let ring = ring_of(alloc)?;
    let body = replicas_json(alloc, &ring, Token::new(17).ok_or("a token")?, 3)?;
    expect_eq!(body.as_slice(), b"[\"10.0.0.2:7000\"]".as_slice())
}

#[test]
fn endpoints_are_looked_up(rt: HostRuntime) -> Result<(), Fail> {
    let status = status(rt.alloc())?;
    let since = status.of(endpoint(B)).and_then(|seen| seen.since);
    expect_eq!((since, status.of(endpoint(C)).is_some()), (Some(12), true))?;
    expect!(status.of(endpoint(7)).is_none())
}

#[test]
fn health(_rt: HostRuntime) -> Result<(), Fail> {
    let found = [
        is_healthy(None, 0, 9),
        is_healthy(Some(1), 0, 999_999),
        is_healthy(None, 1000, 9),
        is_healthy(Some(1), 1000, 3000),
        is_healthy(Some(1), 1000, 3001),
        is_healthy(Some(9), 1, 3),
    ];
    expect_eq!(found, [false, true, false, true, false, true])
}
