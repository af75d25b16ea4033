//! The settings of a node that runs until it is stopped: each key, both ends of its range, and what is refused.

use cg_settings_file::{
    AgentInput, AgentSettings, DEFAULT_JOURNAL_MB, DEFAULT_KEEP, DEFAULT_RECEIVERS, LOAD_LIMIT,
    Loads, RECEIVER_LIMIT, agent_or_key, wanted_by_agents,
};
use cg_testing::{expect, expect_eq};
use cg_types::Fault;
use std::alloc::{AllocError, Global};
use std::test::Fail;

// The keys that are needed, and values for them.
const NEEDED: [(&str, &str); 3] = [
    ("cluster", "\"c1\""),
    ("listen", "\"127.0.0.1:7000\""),
    ("generation_file", "\"g\""),
];

const ALL: &str = "cluster = \"c2\"
listen = \"10.0.0.1:65535\"
generation_file = \"/var/lib/cg/generation\"
journals = \"/var/lib/cg\"
seeds = [\"10.0.0.2:7000\"]
interval = 0
journal_mb = 3
keep = 4
receivers = 5
random = 6
stdin = \"lines\"
http = \"10.0.0.3:8000\"
http_writes = true
window = 7
initial_gap = 8
max_gap = 9
threshold = 10
";

// Keys, and values that are read.
const TAKEN: [(&str, &str); 21] = [
    ("journals", "\"\""),
    ("journals", "\"a folder\""),
    ("interval", "0"),
    ("interval", "60000"),
    ("journal_mb", "1"),
    ("journal_mb", "1000000"),
    ("keep", "1"),
    ("keep", "1000000"),
    ("receivers", "1"),
    ("receivers", "8"),
    ("stdin", "\"ignore\""),
    ("stdin", "\"stop\""),
    ("stdin", "\"lines\""),
    ("random", "9223372036854775807"),
    ("seeds", "[\"10.0.0.1:1\"]"),
    ("window", "1000"),
    ("max_gap", "86400000"),
    ("threshold", "1000000000"),
    ("http", "\"127.0.0.1:8000\""),
    ("http_writes", "true"),
    ("http_writes", "false"),
];

// Keys, and values out of their ranges, of another type, or of a key that has no meaning.
const REFUSED: [(&str, &str); 32] = [
    ("cluster", "\"\""),
    ("listen", "\"127.0.0.1:0\""),
    ("generation_file", "1"),
    ("journals", "1"),
    ("journals", "[\"j\"]"),
    ("seeds", "[\"10.0.0.1\"]"),
    ("interval", "-1"),
    ("interval", "60001"),
    ("journal_mb", "0"),
    ("journal_mb", "1000001"),
    ("journal_mb", "4294967297"),
    ("journal_mb", "\"1\""),
    ("keep", "0"),
    ("keep", "1000001"),
    ("keep", "1.0"),
    ("receivers", "0"),
    ("receivers", "9"),
    ("receivers", "true"),
    ("random", "-1"),
    ("stdin", "\"Ignore\""),
    ("stdin", "\"\""),
    ("stdin", "false"),
    ("window", "1001"),
    ("journal", "\"j\""),
    ("rounds", "1"),
    ("exchanges", "1"),
    ("http", "8000"),
    ("http", "\"127.0.0.1\""),
    ("http_writes", "\"true\""),
    ("http_write", "true"),
    ("Keep", "1"),
    ("other", "1"),
];

// The keys that are needed, with this value for this key, which is left out if the value is empty.
fn text_with(alloc: Global, key: &str, value: &str) -> Result<String, AllocError> {
    let mut text = String::new(alloc);
    for (name, given) in NEEDED {
        if name != key {
            writeln!(text, "{name} = {given}")?;
        }
    }
    if !value.is_empty() {
        writeln!(text, "{key} = {value}")?;
    }
    Ok(text)
}

// The port, the number of seeds, the loads, the seed of the random words, the use of standard input, and the four numbers
// of silence.
type Numbers = (u16, usize, Loads, u64, AgentInput, (usize, u32, u32, u32));

// The numbers of settings. `None` if their texts are others: the cluster, the generation's file, and the folder of the
// journals.
fn numbers(settings: &AgentSettings, names: (&str, &str, Option<&str>)) -> Option<Numbers> {
    let silence = settings.node.silence();
    let journals = match &settings.journals {
        Some(folder) => Some(folder.as_str()),
        None => None,
    };
    let is_named = settings.node.cluster().name() == names.0
        && settings.generation_file.as_str() == names.1
        && journals == names.2;
    if !is_named {
        return None;
    }
    Some((
        settings.listen.port(),
        settings.node.seeds().len(),
        settings.loads,
        settings.random,
        settings.input,
        (
            silence.window(),
            silence.initial_gap(),
            silence.max_gap(),
            silence.threshold(),
        ),
    ))
}

// The port where HTTP is served, if anywhere, and whether it may write.
fn http_of(settings: &AgentSettings) -> (Option<u16>, bool) {
    let port = match settings.http.at {
        Some(at) => Some(at.port()),
        None => None,
    };
    (port, settings.http.writes)
}

// The numbers of the settings that a text has, and where they serve HTTP.
fn numbers_in(
    alloc: Global,
    text: &str,
    names: (&str, &str, Option<&str>),
) -> Result<(Option<Numbers>, (Option<u16>, bool)), Fail> {
    let Ok(settings) = agent_or_key(alloc, text.as_bytes()) else {
        return Err("no settings".into());
    };
    Ok((numbers(&settings, names), http_of(&settings)))
}

#[test]
fn each_key_of_an_agent_is_read_or_has_its_default(rt: HostRuntime) -> Result<(), Fail> {
    let few = text_with(rt.alloc(), "cluster", "\"c1\"")?;
    let (few, http_of_few) = numbers_in(rt.alloc(), few.as_str(), ("c1", "g", None))?;
    let loads = Loads {
        interval: 1000,
        journal_mb: 1024,
        keep: 1000,
        receivers: 2,
    };
    let silence = (1000, 2000, 60000, 18421);
    expect_eq!(few, Some((7000, 0, loads, 0, AgentInput::Ignore, silence)))?;
    expect_eq!(http_of_few, (None, false))?;
    let names = ("c2", "/var/lib/cg/generation", Some("/var/lib/cg"));
    let (all, http_of_all) = numbers_in(rt.alloc(), ALL, names)?;
    let loads = Loads {
        interval: 0,
        journal_mb: 3,
        keep: 4,
        receivers: 5,
    };
    expect_eq!(
        all,
        Some((65535, 1, loads, 6, AgentInput::Lines, (7, 8, 9, 10)))
    )?;
    expect_eq!(http_of_all, (Some(8000), true))
}

#[test]
fn limits_of_an_agent_are_the_stated_ones() -> Result<(), Fail> {
    expect_eq!((LOAD_LIMIT, RECEIVER_LIMIT), (1000000, 8))?;
    expect_eq!(
        (DEFAULT_JOURNAL_MB, DEFAULT_KEEP, DEFAULT_RECEIVERS),
        (1024, 1000, 2)
    )
}

// Tests whether the settings are refused by BadText at this key, or are read if it is empty.
fn is_told(alloc: Global, bytes: &[u8], due: &str) -> bool {
    match agent_or_key(alloc, bytes) {
        Ok(_) => due.is_empty(),
        Err(unset) => match &unset.key {
            Some(key) => key.as_str() == due && unset.fault == Fault::BadText,
            None => false,
        },
    }
}

// The same of the settings that are needed, with this value for this key.
fn told_with(alloc: Global, key: &str, value: &str, due: &str) -> Result<bool, AllocError> {
    let text = text_with(alloc, key, value)?;
    Ok(is_told(alloc, text.as_bytes(), due))
}

// Tests whether the bytes are refused by BadText at no key.
fn is_no_table(alloc: Global, bytes: &[u8]) -> bool {
    match agent_or_key(alloc, bytes) {
        Ok(_) => false,
        Err(unset) => unset.key.is_none() && unset.fault == Fault::BadText,
    }
}

#[test]
fn values_of_an_agent_in_their_ranges_alone_are_read(rt: HostRuntime) -> Result<(), Fail> {
    let alloc = rt.alloc();
    for (key, value) in TAKEN {
        expect!(told_with(alloc, key, value, "")?, "{key} = {value}")?;
    }
    for (key, value) in REFUSED {
        expect!(told_with(alloc, key, value, key)?, "{key} = {value}")?;
    }
    for (key, _) in NEEDED {
        expect!(told_with(alloc, key, "", key)?, "{key}")?;
    }
    expect!(is_no_table(alloc, b"keep"))
}

#[test]
fn a_key_of_an_agent_wants_values() -> Result<(), Fail> {
    for (key, wanted) in [
        ("interval", "0 to 60000"),
        ("journal_mb", "1 to 1000000"),
        ("keep", "1 to 1000000"),
        ("receivers", "1 to 8"),
        ("stdin", "\"ignore\", \"stop\" or \"lines\""),
        ("window", "1 to 1000"),
        ("http", "an endpoint as 127.0.0.1:8000"),
        ("http_writes", "true or false"),
    ] {
        expect_eq!(wanted_by_agents(key), Some(wanted), "{key}")?;
    }
    for (key, _) in TAKEN {
        expect!(wanted_by_agents(key).is_some(), "{key}")?;
    }
    for key in ["rounds", "exchanges", "journal", "http_write", "", "Keep"] {
        expect_eq!(wanted_by_agents(key), None, "{key}")?;
    }
    Ok(())
}
