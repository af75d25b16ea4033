//! The settings of a small file and of a full one, and bytes that are no settings.

use cg_settings_file::{ServeSettings, Turns, settings_of, settings_of_bytes};
use cg_testing::expect_eq;
use cg_types::Fault;
use std::alloc::Global;
use std::test::Fail;

pub(crate) const FEW: &str = "cluster = \"c1\"
listen = \"127.0.0.1:7000\"
generation_file = \"g\"
journal = \"j\"
rounds = 0
exchanges = 0
";

const ALL: &str = "# A full file.
cluster = \"Test Cluster\"
listen = \"10.0.0.1:65535\"
generation_file = \"/var/lib/cg/generation\"
journal = \"/var/lib/cg/journal\"
seeds = [\"10.0.0.2:7000\"]
rounds = 7
exchanges = 1_000_000
interval = 0
random = 9223372036854775807
window = 5
initial_gap = 6
max_gap = 60
threshold = 1000
";

// The numbers of settings: the node's address and port, the number of its seeds, its turns, the seed of its random
// words, and the four by which it judges silence. `None` if they are no settings, or if their texts are others: the
// cluster, and the two files.
fn numbers(
    read: Result<ServeSettings, Fault>,
    names: (&str, &str, &str),
) -> Option<([u8; 4], u16, usize, Turns, u64, (usize, u32, u32, u32))> {
    let Ok(settings) = read else {
        return None;
    };
    let node = &settings.node;
    let silence = node.silence();
    let is_named = node.cluster().name() == names.0
        && node.cluster().partitioner() == 1
        && settings.generation_file.as_str() == names.1
        && settings.journal.as_str() == names.2;
    if !is_named {
        return None;
    }
    Some((
        settings.listen.address(),
        settings.listen.port(),
        node.seeds().len(),
        settings.turns,
        settings.random,
        (
            silence.window(),
            silence.initial_gap(),
            silence.max_gap(),
            silence.threshold(),
        ),
    ))
}

#[test]
fn each_key_is_read_or_has_its_default(rt: HostRuntime) -> Result<(), Fail> {
    let few = numbers(settings_of(rt.alloc(), FEW), ("c1", "g", "j"));
    let turns = Turns {
        rounds: 0,
        exchanges: 0,
        interval: 1000,
    };
    let silence = (1000, 2000, 60000, 18421);
    expect_eq!(few, Some(([127, 0, 0, 1], 7000, 0, turns, 0, silence)))?;
    let files = (
        "Test Cluster",
        "/var/lib/cg/generation",
        "/var/lib/cg/journal",
    );
    let all = numbers(settings_of_bytes(rt.alloc(), ALL.as_bytes()), files);
    let turns = Turns {
        rounds: 7,
        exchanges: 1000000,
        interval: 0,
    };
    let silence = (5, 6, 60, 1000);
    expect_eq!(
        all,
        Some(([10, 0, 0, 1], 65535, 1, turns, 9223372036854775807, silence))
    )
}

// The fault by which the bytes are refused, if they are.
fn fault_of(alloc: Global, bytes: &[u8]) -> Option<Fault> {
    settings_of_bytes(alloc, bytes).err()
}

#[test]
fn other_bytes_are_no_settings(rt: HostRuntime) -> Result<(), Fail> {
    expect_eq!(fault_of(rt.alloc(), FEW.as_bytes()), None)?;
    for bytes in [
        b"".as_slice(),
        b"cluster = \"c1\"".as_slice(),
        b"rounds".as_slice(),
        b"rounds = 1\nrounds = 1\n".as_slice(),
        b"# \xff\n".as_slice(),
        b"cluster = \"\xc3\"".as_slice(),
    ] {
        expect_eq!(fault_of(rt.alloc(), bytes), Some(Fault::BadText))?;
    }
    Ok(())
}
